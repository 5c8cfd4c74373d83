// The lent run of a call: the bytes of all its containers.
ghost use Rattle.std.specs.Prelude.{◌≤◌};

use crate::fault::Fault;
use crate::line::HexBytes;
use crate::setting::Setting;
use feed::Fed;

const ROOM: usize = 65536;

// An array and how many of its bytes are lent: `feed` writes behind these, where an `ArrayVec` lends no room.
#[derive(Drop)]
pub struct Lent {
    run: [u8; ROOM],
    used: usize,
    ghost used_fits: { used ≤ 65536 },
}

impl Lent {
    pub(crate) fn new() -> Lent {
        Lent {
            run: [0; ROOM],
            used: 0,
        }
    }

    pub(crate) fn clear(&mut self) {
        self.used = 0;
    }

    pub(crate) fn bytes(&self) -> &[u8] {
        &self.run[..self.used]
    }

    // Puts the bytes that stand behind a setting at the end.
    pub(crate) fn extend(&mut self, setting: Setting, bytes: HexBytes<'_>) -> Result<(), Fault>
        ensures { self.old.used ≤ self.new.used }
    {
        for byte in bytes {
            let byte = byte.map_err(|_| Fault::BadHex(setting))?;
            if self.used == ROOM {
                return Err(Fault::TooManyBytes);
            }
            self.run[self.used] = byte;
            self.used += 1;
        }
        Ok(())
    }

    // Feeds the bytes of a part, one by one, from an index on, where any run has room: what is kept of its run stands there.
    pub(crate) fn feed(
        &mut self,
        start: usize,
        before: Fed,
        part: HexBytes<'_>,
    ) -> Result<Fed, Fault> {
        if ROOM - feed::KEPT_ROOM < start {
            return Err(Fault::TooManyBytes);
        }
        let mut fed = before;
        for byte in part {
            let byte = byte.map_err(|_| Fault::BadHex(Setting::Part))?;
            fed = feed::feed(fed, &[byte], &mut self.run[start..]);
        }
        self.used = start + (fed.size as usize).min(feed::KEPT_ROOM);
        Ok(fed)
    }
}
