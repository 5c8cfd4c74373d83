// The answer of a call.
ghost use Rattle.std.specs.Prelude.{◌≡◌, ◌^◌, ◌<◌};
ghost use Rattle.std.specs.Int.Count.{ones};
ghost use Rattle.choice.specs.Answered.{refused_answer};
ghost use Rattle.choice.specs.Refusal.{number_of};

use crate::refusals::Refusal;
use model::{Answer, Rank};

// The place of a candidate that no object bars.
pub(crate) const NO_PLACE: u16 = 65535;

// The bit of the candidate at a position, in its place.
pub(crate) fn bit_at(position: usize) -> u16
    requires { position < 16 }
    ensures { result ≡ 2 ^ position }
{
    1 << position
}

// How many bits are set.
pub(crate) fn count_of(bits: u16) -> u8
    ensures { result ≡ ones bits }
{
    u16::count_ones(bits) as u8
}

// An answer that names no parent, before any candidate is judged.
pub(crate) fn blank() -> Answer
    ensures { result ≡ refused_answer 0 }
{
    Answer {
        refusal: 0,
        parent: 255,
        rank: Rank(65535),
        verdicts: [0; 16],
        places: [NO_PLACE; 16],
        bits: 0,
        count: 0,
        leaf: 0,
        size: 0,
    }
}

// The answer of a refused call.
pub(crate) fn refused(refusal: Refusal) -> Answer
    ensures { result ≡ refused_answer (number_of refusal) }
{
    Answer {
        refusal: refusal.number(),
        ..blank()
    }
}
