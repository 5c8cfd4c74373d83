// The verdict on a candidate: bars 11 and 12, its run's reading, its constraints, its rank.
ghost use Rattle.std.specs.Prelude.{◌≡◌};
ghost use Rattle.model.specs.Verdict.{verdict_of, verdict};
ghost use Rattle.verdict.specs.Judged.{offered, run_told, run_in};

use crate::{constraints, numbers, rank};
use model::{Bar, Candidate, Offer, Own, Verdict};

// A candidate's run in the lent bytes, or bar 12.
#[tactic(auto, unfolding(crate::specs::Judged::run_in))]
fn run_in<'a>(candidate: &Candidate, lent: &'a [u8]) -> Result<&'a [u8], Bar>
    ensures { run_told result ≡ run_in lent.now candidate.now }
{
    let Some(tail) = lent.get(candidate.start..) else {
        return Err(Bar::Outside);
    };
    match tail.get(..candidate.size) {
        Some(run) => Ok(run),
        None => Err(Bar::Outside),
    }
}

// What an unbarred candidate is compared by, or its bar. Most runs have no mandatory constraint, and so no second pass.
fn offer(own: &Own, candidate: &Candidate, lent: &[u8]) -> Result<Offer, Bar>
    ensures { offered result ≡ verdict own.now lent.now candidate.now }
{
    let neighbour = &candidate.neighbour;
    let ahead = numbers::check(own, neighbour)?;
    let run = run_in(candidate, lent)?;
    let reading = wire::read_run(run)?;
    if reading.mandatory {
        constraints::check(neighbour, &reading.summary, run)?;
    }
    let rank = rank::resulting(own, neighbour)?;
    Ok(Offer { ahead, rank })
}

// The verdict on a candidate, by its run in the lent bytes.
pub fn judge(own: &Own, candidate: &Candidate, lent: &[u8]) -> Verdict
    ensures { verdict_of result ≡ verdict own.now lent.now candidate.now }
{
    match offer(own, candidate, lent) {
        Ok(offer) => Verdict::Unbarred(offer),
        Err(bar) => Verdict::Barred(bar),
    }
}
