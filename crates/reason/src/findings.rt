// What was asked of a candidate that is barred, and what was found.
ghost use Rattle.std.specs.Prelude.{◌≡◌};
ghost use Rattle.reason.specs.Finding.{nothing};
ghost use Rattle.reason.specs.Way.{number_of};
ghost use Rattle.reason.specs.Told.{by_number};

// In what way a candidate falls short; its numbers have the names that `Shortfall` gives them.
#[derive(Clone, Copy, PartialEq, Eq)]
pub enum Way {
    // Bar 11: the number found is not from which to asked.
    Sp = 1,
    Rf = 2,
    Sr = 3,
    Lql = 4,
    NodeType = 5,
    Colour = 6,
    Order = 7,
    Preference = 8,
    // Bar 12: the run starts at which and has asked bytes; found are lent. 10 to 12 were those of bar 13, which bars no candidate any more.
    Outside = 9,
    // Bar 14: at the object of index which, asked bytes of header, or of body by its header; found are in its container.
    Header = 13,
    Body = 14,
    // Bar 19, NSA: it does not aggregate; it is overloaded.
    Aggregator = 15,
    Overloaded = 16,
    // Bar 19, NE with I=1: another type than asked is found; energy found, or unknown, is not above asked, at type which.
    OtherType = 17,
    LittleEnergy = 18,
    UnknownEnergy = 19,
    // Bar 19, NE with I=0: the type asked to be left out is found; energy found, or unknown, is below asked, at type which.
    BarredType = 20,
    BarredEnergy = 21,
    BarredUnknown = 22,
    // Bar 19, HP: the count found is not below asked; there is none.
    Hops = 23,
    UnknownHops = 24,
    // Bar 19, throughput: the link's, found, is below asked; it is unknown.
    Throughput = 25,
    UnknownThroughput = 26,
    // Bar 19, latency: the link's, found, is above asked; the path's is, with which received; the link's is unknown.
    Latency = 27,
    PathLatency = 28,
    UnknownLatency = 29,
    // Bar 19, ETX: in the same order.
    Etx = 30,
    PathEtx = 31,
    UnknownEtx = 32,
    // Bar 19, LQL: the link's, found, is above asked; it is unknown.
    Quality = 33,
    UnknownQuality = 34,
    // Bar 19, colour: the link's, found, lacks the one asked; it has the one asked to be left out.
    LacksColour = 35,
    HasColour = 36,
    // Bar 22: at the option that begins at byte which of the run, asked bytes of type and length, or of data by its length; found are there.
    Option = 37,
    OptionData = 38,
    // Bar 23: asked containers are the most; found are there.
    Containers = 39,
}

impl Way {
    // The number by which C knows it.
    pub fn number(self) -> u8
        ensures { result ≡ number_of self }
    {
        self as u8
    }
}

// In what way a candidate falls short, and the numbers of that way; 0 for one that it does not have.
#[derive(Clone, Copy, PartialEq, Eq)]
pub struct Shortfall {
    pub way: Way,
    pub which: u64,
    pub asked: u64,
    pub found: u64,
}

impl Shortfall {
    // Of small numbers, as most are.
    pub(crate) fn of(way: Way, which: u8, asked: u8, found: u8) -> Shortfall
        ensures { result ≡ record { way = way; which = which; asked = asked; found = found } }
    {
        Shortfall {
            way,
            which: which as u64,
            asked: asked as u64,
            found: found as u64,
        }
    }
}

// The same by number, as C receives it. Way 0: nothing to tell.
#[repr(C)]
#[derive(Clone, Copy)]
pub struct Finding {
    pub way: u8,
    pub which: u64,
    pub asked: u64,
    pub found: u64,
}

impl From<Shortfall> for Finding {
    ghost from_gives = { λ shortfall result. result ≡ by_number shortfall };

    fn from(shortfall: Shortfall) -> Finding {
        Finding {
            way: shortfall.way.number(),
            which: shortfall.which,
            asked: shortfall.asked,
            found: shortfall.found,
        }
    }
}

// Nothing to tell.
pub(crate) fn nothing() -> Finding
    ensures { result ≡ nothing }
{
    Finding {
        way: 0,
        which: 0,
        asked: 0,
        found: 0,
    }
}
