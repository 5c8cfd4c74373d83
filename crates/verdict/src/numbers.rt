// Bar 11, by a neighbour's numbers, and what edition 2 compares before the rank.
ghost use Rattle.std.specs.Prelude.{◌≡◌};
ghost use Rattle.model.specs.Verdict.{out_of_range};
ghost use Rattle.verdict.specs.Judged.{numbers_told};

use model::{Bar, Neighbour, Own};

// Whether one of the numbers that both editions read is out of range: a branch for each.
#[tactic(auto, unfolding(model::specs::Verdict::out_of_range))]
fn is_out_of_range(neighbour: &Neighbour) -> bool
    ensures { result ≡ out_of_range neighbour.now }
{
    neighbour.sp < 1
        || 9 < neighbour.sp
        || neighbour.rf < 1
        || 4 < neighbour.rf
        || 5 < neighbour.sr
        || 7 < neighbour.lql
        || 3 < neighbour.nodetype
        || 1023 < neighbour.colour
}

// What edition 2 compares before the rank, as the digits of an offer, 0 in edition 1; or bar 11.
#[tactic(auto, unfolding(crate::specs::Judged::numbers_told, model::specs::Verdict::bad_numbers, model::specs::Verdict::ahead_of))]
pub(crate) fn check(own: &Own, neighbour: &Neighbour) -> Result<u8, Bar>
    ensures { result ≡ numbers_told own.now neighbour.now }
{
    if is_out_of_range(neighbour) {
        return Err(Bar::Numbers);
    }
    if own.edition != 2 {
        return Ok(0);
    }
    if 7 < neighbour.order || 7 < neighbour.preference {
        return Err(Bar::Numbers);
    }
    Ok(neighbour.order * 16 + (1 - neighbour.flags / 64 % 2) * 8 + (7 - neighbour.preference))
}
