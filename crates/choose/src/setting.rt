// The words of the input that tell something of a call or of a candidate.
use std::fmt;

#[derive(Clone, Copy, PartialEq, Eq)]
pub enum Setting {
    Minhop,
    Maxincrease,
    Rank,
    Sp,
    Rf,
    Sr,
    Type,
    Lql,
    Lowest,
    Energy,
    Current,
    Room,
    Etx,
    Latency,
    Throughput,
    Colour,
    Order,
    Preference,
    Edition,
    Start,
    Size,
    Why,
    Container,
    Lent,
    Part,
    Aggregator,
    Overloaded,
    Grounded,
    Reasons,
}

// All of them, among which a word is looked up.
static SETTINGS: [Setting; 29] = [
    Setting::Minhop,
    Setting::Maxincrease,
    Setting::Rank,
    Setting::Sp,
    Setting::Rf,
    Setting::Sr,
    Setting::Type,
    Setting::Lql,
    Setting::Lowest,
    Setting::Energy,
    Setting::Current,
    Setting::Room,
    Setting::Etx,
    Setting::Latency,
    Setting::Throughput,
    Setting::Colour,
    Setting::Order,
    Setting::Preference,
    Setting::Edition,
    Setting::Start,
    Setting::Size,
    Setting::Why,
    Setting::Container,
    Setting::Lent,
    Setting::Part,
    Setting::Aggregator,
    Setting::Overloaded,
    Setting::Grounded,
    Setting::Reasons,
];

// A word that is the name of no setting.
#[derive(Clone, Copy)]
pub struct UnknownWord;

impl Setting {
    // The word that stands for it in the input.
    pub(crate) fn name(self) -> &'static str {
        match self {
            Setting::Minhop => "minhop",
            Setting::Maxincrease => "maxincrease",
            Setting::Rank => "rank",
            Setting::Sp => "sp",
            Setting::Rf => "rf",
            Setting::Sr => "sr",
            Setting::Type => "type",
            Setting::Lql => "lql",
            Setting::Lowest => "lowest",
            Setting::Energy => "energy",
            Setting::Current => "current",
            Setting::Room => "room",
            Setting::Etx => "etx",
            Setting::Latency => "latency",
            Setting::Throughput => "throughput",
            Setting::Colour => "colour",
            Setting::Order => "order",
            Setting::Preference => "preference",
            Setting::Edition => "edition",
            Setting::Start => "start",
            Setting::Size => "size",
            Setting::Why => "why",
            Setting::Container => "container",
            Setting::Lent => "lent",
            Setting::Part => "part",
            Setting::Aggregator => "aggregator",
            Setting::Overloaded => "overloaded",
            Setting::Grounded => "grounded",
            Setting::Reasons => "reasons",
        }
    }

    // Whether it can be given more than once in its place: each time it adds bytes.
    fn is_repeatable(self) -> bool {
        matches!(self, Setting::Lent | Setting::Part)
    }
}

impl TryFrom<&[u8]> for Setting {
    type Error = UnknownWord;

    fn try_from(word: &[u8]) -> Result<Setting, UnknownWord> {
        SETTINGS
            .iter()
            .copied()
            .find(|setting| setting.name().as_bytes() == word)
            .ok_or(UnknownWord)
    }
}

impl fmt::Display for Setting {
    fn fmt<W: fmt::Write>(&self, f: &mut fmt::Formatter<W>) -> fmt::Result {
        f.write_str(self.name())
    }
}

// The settings that were given in a place, as a set: a bit for each, since the library's sets want the heap.
#[derive(Clone, Copy, Default)]
pub struct Given(u32);

impl Given {
    fn contains(self, setting: Setting) -> bool {
        self.0 & (1 << (setting as u32)) != 0
    }

    // Adds a setting; false where it was given before and can be given but once.
    pub(crate) fn insert(&mut self, setting: Setting) -> bool {
        if self.contains(setting) && !setting.is_repeatable() {
            return false;
        }
        self.0 |= 1 << (setting as u32);
        true
    }

    // The first of some settings that was not given.
    pub(crate) fn first_missing(self, needed: &[Setting]) -> Option<Setting> {
        needed
            .iter()
            .copied()
            .find(|setting| !self.contains(*setting))
    }
}
