// The resulting rank, and bars 20 and 21.
ghost use Rattle.std.specs.Prelude.{◌≡◌, ◌+◌, ◌≤◌};
ghost use Rattle.model.specs.declared.Neighbour.{Neighbour};
ghost use Rattle.model.specs.Rank.{units_of, grown, resulting, above_lowest};
ghost use Rattle.model.specs.Verdict.{rank_bar, judge_rank};
ghost use Rattle.verdict.specs.Judged.{finite_rank, ranked};

use model::{Bar, Neighbour, Own, Rank, Units};

// Rf × Sp + Sr.
fn units_of(neighbour: &Neighbour) -> Units
    ensures value { result ≡ units_of neighbour.now }
    ensures result_bound { result.0 ≤ 65280 }
{
    Units((neighbour.rf as u32) * (neighbour.sp as u32) + (neighbour.sr as u32))
}

// The formula, which alone leads from units to a rank: a rank grown by units of MinHopRankIncrease, in 32 bits, which hold it.
// None where it is 65535 or more.
#[tactic(auto, unfolding(crate::specs::Judged::finite_rank))]
fn grow(rank: Rank, units: Units, minhop: u16) -> Option<Rank>
    requires { units.0 ≤ 65280 }
    ensures { result ≡ finite_rank (grown rank units minhop) }
{
    let sum = (rank.0 as u32) + units.0 * (minhop as u32);
    if 65535 <= sum {
        return None;
    }
    Some(Rank(sum as u16))
}

// L + DAGMaxRankIncrease, in 32 bits, which hold it.
fn highest(own: &Own) -> u32
    ensures { result ≡ own.now.lowest.0 + own.now.maxincrease }
{
    (own.lowest.0 as u32) + (own.maxincrease as u32)
}

// Bar 21 of a resulting rank. The bit of L and L are asked for in one test; an Option of them would be made to be taken apart.
fn is_above_lowest(own: &Own, rank: Rank) -> bool
    ensures { (c : Neighbour) → rank.0 ≡ resulting own.now c → result ≡ above_lowest own.now c }
{
    (own.maxincrease != 0) & (own.flags / 8 % 2 == 1) & (highest(own) < (rank.0 as u32))
}

// The resulting rank, or bar 20 or 21. An advertised rank of 65535 results in 65535 or more.
pub(crate) fn resulting(own: &Own, neighbour: &Neighbour) -> Result<Rank, Bar>
    ensures { ranked own.now neighbour.now result ≡ judge_rank own.now neighbour.now (rank_bar own.now neighbour.now) }
{
    let Some(rank) = grow(neighbour.rank, units_of(neighbour), own.minhop) else {
        return Err(Bar::Rank);
    };
    if is_above_lowest(own, rank) {
        return Err(Bar::Increase);
    }
    Ok(rank)
}
