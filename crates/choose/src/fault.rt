// What can be wrong with the text of a call.
use crate::setting::{Setting, UnknownWord};
use std::fmt;

#[derive(Clone, Copy)]
pub enum Fault {
    UnknownWord,
    BeforeCall,
    NoCall,
    TooLong,
    TooManyCandidates,
    OfCandidate(Setting),
    OfCall(Setting),
    Twice(Setting),
    ContainerTogether,
    PartTogether,
    NoNumber(Setting),
    // the largest number that can stand behind the setting
    TooLarge(Setting, u64),
    BadHex(Setting),
    TooManyBytes,
    Missing(Setting),
}

impl From<UnknownWord> for Fault {
    fn from(_word: UnknownWord) -> Fault {
        Fault::UnknownWord
    }
}

impl fmt::Display for Fault {
    fn fmt<W: fmt::Write>(&self, f: &mut fmt::Formatter<W>) -> fmt::Result {
        match *self {
            Fault::UnknownWord => write!(f, "unknown word"),
            Fault::BeforeCall => write!(f, "a word before the first call"),
            Fault::NoCall => write!(f, "no call"),
            Fault::TooLong => write!(f, "line too long: 8192 bytes at most"),
            Fault::TooManyCandidates => write!(f, "too many candidates: 16 at most"),
            Fault::OfCandidate(setting) => write!(f, "{setting} belongs to a candidate"),
            Fault::OfCall(setting) => write!(f, "{setting} belongs before the candidates"),
            Fault::Twice(setting) => write!(f, "{setting} is given twice"),
            Fault::ContainerTogether => write!(f, "container together with start or size"),
            Fault::PartTogether => write!(f, "part together with container, start or size"),
            Fault::NoNumber(setting) => write!(f, "{setting} has no number behind it"),
            Fault::TooLarge(setting, most) => write!(f, "{setting} is too large: {most} at most"),
            Fault::BadHex(setting) => write!(f, "{setting} has bad hex behind it"),
            Fault::TooManyBytes => write!(f, "too many bytes: the lent run holds 65536"),
            Fault::Missing(setting) => write!(f, "{setting} is missing"),
        }
    }
}
