// The parts of a run, byte by byte: of every option its container is kept, and of one that is not, the type byte while it is
// incomplete.
ghost use Rattle.std.specs.Prelude.{◌≡◌, length};
ghost use Rattle.feed.specs.Numbers.{phase_of, keep_of};
ghost use Rattle.feed.specs.Step.{more, stored, one_more, closed, closed_in, gone, gone_in, begun, begun_in, stepped, stepped_in, goes_on, goes_on_in, fed, fed_in};
ghost use Rattle.feed.specs.Keeping.{Becomes};

use crate::phase::{Keep, Phase};

// What was fed so far, all zeros before the first part: the bytes kept; where the last byte stands, 1 behind a type byte, 2 in an
// option, 255 where the buffer was too short, else between options; what becomes of the option in hand, 0 dropped, 1 kept as
// an empty container, else kept whole, and how many of its bytes are missing; the containers so far, nine for more. Flat numbers,
// and the size apart from the buffer, as C holds both and may hand in any: `Phase` and `Keep` are what they are read as.
#[repr(C)]
#[derive(Clone, Copy)]
pub struct Fed {
    pub size: u16,
    pub phase: u8,
    pub keep: u8,
    pub missing: u8,
    pub count: u8,
}

// Bytes that hold what is kept of any run: eight containers, an empty one, and the type byte of an option that is cut short.
pub const KEPT_ROOM: usize = 2059;

impl Fed {
    // Between options, with so many bytes kept and so many containers.
    fn between(size: u16, count: u8) -> Fed
        ensures { result ≡ record { size = size; phase = 0; keep = 0; missing = 0; count = count } }
    {
        Fed {
            size,
            phase: Phase::Between as u8,
            keep: Keep::Dropped as u8,
            missing: 0,
            count,
        }
    }

    fn phase(self) -> Phase
        ensures { result ≡ phase_of self.phase }
    {
        Phase::from(self.phase)
    }

    fn keep(self) -> Keep
        ensures { result ≡ keep_of self.keep }
    {
        Keep::from(self.keep)
    }
}

// One container more, of at most nine. Not by `min`: a count over nine, which C may hand in, stays (`one_more`, specs/Step.antt).
fn one_more(count: u8) -> u8
    ensures { result ≡ one_more count }
{
    if count < 9 { count + 1 } else { count }
}

// The state, and the lent buffer, which has room for all that is kept.
#[derive(Drop)]
struct Keeper<'a> {
    fed: Fed,
    kept: &'a mut [u8; KEPT_ROOM],
}

impl Keeper<'_> {
    // One byte more behind those that are kept.
    #[tactic(auto, unfolding(crate::specs::Step::more, crate::specs::Step::stored))]
    fn keep_byte(&mut self, byte: u8)
        ensures { Becomes self.old self.new (more self.old.fed) (stored self.old.fed byte self.old.kept.now) }
    {
        let at = self.fed.size as usize;
        if at < KEPT_ROOM {
            self.kept[at] = byte;
            self.fed.size += 1;
        }
    }

    // An option that is complete. Of one that is dropped the type byte was kept until here.
    #[tactic(auto, unfolding(crate::specs::Step::closed, crate::specs::Step::closed_in))]
    fn close(&mut self)
        ensures { Becomes self.old self.new (closed self.old.fed) (closed_in self.old.fed self.old.kept.now) }
    {
        // by tests and not by a `match`, which takes 11 instructions more at an option of two bytes
        let Fed { size, count, .. } = self.fed;
        if self.fed.keep() == Keep::Dropped {
            self.fed = Fed::between(size.saturating_sub(1), count);
            return;
        }
        if self.fed.keep() == Keep::Empty {
            self.keep_byte(0);
        }
        self.fed = Fed::between(self.fed.size, one_more(count));
    }

    // An option of which so many bytes are missing.
    fn go_on(&mut self, missing: u8)
        ensures { Becomes self.old self.new (goes_on self.old.fed missing) (goes_on_in self.old.fed missing self.old.kept.now) }
    {
        if missing == 0 {
            self.close();
            return;
        }
        self.fed = Fed {
            phase: Phase::Within as u8,
            missing,
            ..self.fed
        };
    }

    // A byte of an option's length or data, behind which so many bytes are missing.
    #[tactic(auto, unfolding(crate::specs::Step::gone, crate::specs::Step::gone_in))]
    fn take_byte(&mut self, byte: u8, missing: u8)
        ensures { Becomes self.old self.new (gone self.old.fed missing) (gone_in self.old.fed missing byte self.old.kept.now) }
    {
        if self.fed.keep() == Keep::Whole {
            self.keep_byte(byte);
        }
        self.go_on(missing);
    }

    // A byte between options: Pad1, or a type byte.
    #[tactic(auto, unfolding(crate::specs::Step::begun, crate::specs::Step::begun_in, crate::specs::Step::more))]
    fn begin(&mut self, byte: u8)
        ensures { Becomes self.old self.new (begun self.old.fed byte) (begun_in self.old.fed byte self.old.kept.now) }
    {
        if byte == 0 {
            self.fed = Fed::between(self.fed.size, self.fed.count);
            return;
        }
        self.keep_byte(byte);
        self.fed = Fed {
            phase: Phase::Typed as u8,
            keep: Keep::of(byte, self.fed.count) as u8,
            missing: 0,
            ..self.fed
        };
    }

    // One byte more.
    #[tactic(auto, unfolding(crate::specs::Step::stepped, crate::specs::Step::stepped_in))]
    fn feed_byte(&mut self, byte: u8)
        ensures { Becomes self.old self.new (stepped self.old.fed byte) (stepped_in self.old.fed byte self.old.kept.now) }
    {
        match self.fed.phase() {
            Phase::Typed => self.take_byte(byte, byte),
            Phase::Within => self.take_byte(byte, self.fed.missing.saturating_sub(1)),
            Phase::Between | Phase::Short => self.begin(byte),
        }
    }
}

// Takes the next part of a run; answers the state for the part behind it.
#[tactic(auto, unfolding(crate::specs::Step::fed, crate::specs::Step::fed_in))]
pub fn feed(state: Fed, part: &[u8], kept: &mut [u8]) -> Fed
    ensures value { result ≡ fed state part.now (length kept.old) }
    ensures written { kept.new ≡ fed_in state part.now kept.old }
{
    let Some(kept) = kept.first_chunk_mut::<KEPT_ROOM>() else {
        return Fed {
            phase: Phase::Short as u8,
            ..state
        };
    };
    if state.phase() == Phase::Short {
        return state;
    }
    let mut keeper = Keeper { fed: state, kept };
    for &byte in part {
        keeper.feed_byte(byte);
    }
    keeper.fed
}
