// What is told of the node itself, and of the call.
ghost use Rattle.std.specs.Prelude.{◌≤◌};
ghost use Rattle.choose.specs.Line.{NoMoreLeft};

use crate::fault::Fault;
use crate::lent::Lent;
use crate::line::Rest;
use crate::setting::{Given, Setting};
use model::{Own, Rank};

// The flags of `Own`, whose layout C has.
const OVERLOADED: u8 = 0x01;

const AGGREGATOR: u8 = 0x02;

const ENERGY: u8 = 0x04;

const LOWEST: u8 = 0x08;

const CURRENT: u8 = 0x10;

// The room of an output at most, and where none is given.
pub const MOST_ROOM: usize = 4096;

const USUAL_ROOM: usize = 2056;

// The settings that a call needs.
static NEEDED: [Setting; 3] = [Setting::Minhop, Setting::Maxincrease, Setting::Type];

#[derive(Clone, Copy)]
pub struct OwnSettings {
    pub own: Own,
    // the length of the output that is lent
    pub room: usize,
    // the position that `why` asks about
    pub why: Option<usize>,
    // whether `reasons` asks about each candidate
    pub reasons: bool,
    given: Given,
    ghost room_fits: { room ≤ 4096 },
}

impl OwnSettings {
    // Nothing is told. The edition is 1 then, as files have it that were written before there were two.
    pub(crate) fn untold() -> OwnSettings {
        OwnSettings {
            own: Own {
                minhop: 0,
                maxincrease: 0,
                lowest: Rank(0),
                nodetype: 0,
                flags: 0,
                energy: 0,
                current: 0,
                edition: 1,
            },
            room: USUAL_ROOM,
            why: None,
            reasons: false,
            given: Given::default(),
        }
    }

    // The first setting that is missing.
    pub(crate) fn missing(&self) -> Option<Setting> {
        self.given.first_missing(&NEEDED)
    }

    // Takes a setting, with what stands behind it.
    pub(crate) fn take(
        &mut self,
        setting: Setting,
        line: &mut Rest<'_>,
        lent: &mut Lent,
    ) -> Result<(), Fault>
        ensures { NoMoreLeft line.old line.new }
    {
        if !self.given.insert(setting) {
            return Err(Fault::Twice(setting));
        }
        match setting {
            Setting::Room => self.room = line.up_to(setting, MOST_ROOM as u64)? as usize,
            Setting::Why => self.why = Some(line.number(setting)?),
            Setting::Reasons => self.reasons = true,
            Setting::Lent => {
                lent.extend(setting, line.hex())?;
                line.end();
            }
            _ => take(&mut self.own, setting, line)?,
        }
        Ok(())
    }
}

// Takes a setting of the node itself.
fn take(own: &mut Own, setting: Setting, line: &mut Rest<'_>) -> Result<(), Fault>
    ensures { NoMoreLeft line.old line.new }
{
    match setting {
        Setting::Minhop => own.minhop = line.number(setting)?,
        Setting::Maxincrease => own.maxincrease = line.number(setting)?,
        Setting::Type => own.nodetype = line.number(setting)?,
        Setting::Edition => own.edition = line.number(setting)?,
        Setting::Lowest => {
            own.lowest = Rank(line.number(setting)?);
            own.flags |= LOWEST;
        }
        Setting::Energy => {
            own.energy = line.number(setting)?;
            own.flags |= ENERGY;
        }
        Setting::Current => {
            own.current = line.number(setting)?;
            own.flags |= CURRENT;
        }
        Setting::Aggregator => own.flags |= AGGREGATOR,
        Setting::Overloaded => own.flags |= OVERLOADED,
        _ => return Err(Fault::OfCandidate(setting)),
    }
    Ok(())
}
