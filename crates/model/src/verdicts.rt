// What a candidate is judged to be: unbarred, or barred, by what and at which object.
ghost use Rattle.std.specs.Prelude.{◌≡◌};
ghost use Rattle.model.specs.Bars.{object_bar_number, bar_number, place_told};

use crate::Offer;

// A bar at an object.
#[derive(Clone, Copy, PartialEq, Eq)]
pub enum ObjectBar {
    // 15: its body is not as its type has it
    Body,
    // 16: its type stood before, as constraint or as metric both times
    Repeat,
    // 17: its type cannot be recorded, or can only be recorded
    Recorded,
    // 18: a mandatory constraint of unknown type
    Unknown,
    // 19: a mandatory constraint that is not met
    Unmet,
}

impl ObjectBar {
    // The number that stands for it in an answer, 15 to 19.
    pub fn number(self) -> u8
        ensures { result ≡ object_bar_number self }
    {
        match self {
            ObjectBar::Body => 15,
            ObjectBar::Repeat => 16,
            ObjectBar::Recorded => 17,
            ObjectBar::Unknown => 18,
            ObjectBar::Unmet => 19,
        }
    }
}

// A bar: of the candidate's numbers, of its run of options, or at an object, whose index among the run's joined objects is its place.
#[derive(Clone, Copy, PartialEq, Eq)]
pub enum Bar {
    // 11: a number is out of range
    Numbers,
    // 12: the run is not inside the lent bytes
    Outside,
    // 13: a lone container is not framed; no call gives it
    Frame,
    // 14: an object runs past the end of its container
    Overrun,
    // 15 to 19
    AtObject { bar: ObjectBar, place: u16 },
    // 20: the rank is too high
    Rank,
    // 21: the rank is above the lowest advertised plus DAGMaxRankIncrease
    Increase,
    // 22: an option is cut short
    Option,
    // 23: there is a ninth container
    Containers,
}

impl Bar {
    // The number that stands for it in an answer, 11 to 23.
    pub fn number(self) -> u8
        ensures { result ≡ bar_number self }
    {
        match self {
            Bar::Numbers => 11,
            Bar::Outside => 12,
            Bar::Frame => 13,
            Bar::Overrun => 14,
            Bar::AtObject { bar, place: _ } => bar.number(),
            Bar::Rank => 20,
            Bar::Increase => 21,
            Bar::Option => 22,
            Bar::Containers => 23,
        }
    }

    // The index of its object; none where it is at no object.
    pub fn place(self) -> Option<u16>
        ensures { result ≡ place_told self }
    {
        match self {
            Bar::AtObject { bar: _, place } => Some(place),
            _ => None,
        }
    }
}

// The verdict on a candidate: unbarred with what it is compared by, or barred.
#[derive(Clone, Copy, PartialEq, Eq)]
pub enum Verdict {
    Unbarred(Offer),
    Barred(Bar),
}
