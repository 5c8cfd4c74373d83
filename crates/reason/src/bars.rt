// What was asked of a candidate that is barred, and what was found, by the number that bars it.
ghost use Rattle.std.specs.Prelude.{◌≡◌, false};
ghost use Rattle.model.specs.Verdict.{Barred};
ghost use Rattle.model.specs.Bars.{bar_number, bar_place};
ghost use Rattle.model.specs.Run.{option_cut};
ghost use Rattle.model.specs.Verdict.{verdict};
ghost use Rattle.reason.specs.Finding.{run_finding, bar_finding, finding_of};
ghost use Rattle.reason.specs.Told.{finding_in};

use crate::findings::{Finding, Shortfall};
use crate::{findings, frames, objects, options, ranges};
use model::{Bar, Candidate, Neighbour, ObjectBar, Own, Verdict};

// Bars 14, 19, 22 and 23, by the run; 14 bars only one whose options are whole.
#[tactic(auto, unfolding(crate::specs::Finding::run_finding))]
fn in_run(neighbour: Neighbour, bar: Bar, run: &[u8]) -> Option<Shortfall>
    ensures { (bar_number bar ≡ 14 → option_cut run.now ≡ false) → finding_in result ≡ run_finding neighbour (bar_number bar) (bar_place bar) run.now }
{
    match bar {
        Bar::Option => options::check(run).err(),
        Bar::Containers => Some(options::containers(run)),
        Bar::Overrun => frames::check(run).err(),
        Bar::AtObject {
            bar: ObjectBar::Unmet,
            place,
        } => objects::unmet(neighbour, place, run),
        _ => None,
    }
}

// By a candidate's bar.
fn of_bar(own: Own, candidate: Candidate, bar: Bar, lent: &[u8]) -> Option<Shortfall>
    ensures { verdict own lent.now candidate ≡ Barred (bar_number bar) (bar_place bar) → finding_in result ≡ bar_finding own candidate (bar_number bar) (bar_place bar) lent.now }
{
    let neighbour = candidate.neighbour;
    if let Bar::Numbers = bar {
        return ranges::check(own, neighbour).err();
    }
    let start = candidate.start;
    let size = candidate.size;
    if lent.len() < start {
        return Some(frames::outside(candidate, lent.len()));
    }
    if lent.len() - start < size {
        return Some(frames::outside(candidate, lent.len()));
    }
    in_run(neighbour, bar, &lent[start..start + size])
}

// What falls short of what is asked of a candidate: where it is barred by 11, 12, 14, 19, 22 or 23; else nothing.
#[tactic(auto, unfolding(crate::specs::Finding::finding_of))]
pub fn shortfall(own: Own, candidate: Candidate, lent: &[u8]) -> Option<Shortfall>
    ensures { finding_in result ≡ finding_of own candidate lent.now }
{
    match verdict::judge(&own, &candidate, lent) {
        Verdict::Barred(bar) => of_bar(own, candidate, bar, lent),
        Verdict::Unbarred(_) => None,
    }
}

// The same by number, as C receives it.
pub fn examine(own: Own, candidate: Candidate, lent: &[u8]) -> Finding
    ensures { result ≡ finding_of own candidate lent.now }
{
    match shortfall(own, candidate, lent) {
        Some(shortfall) => shortfall.into(),
        None => findings::nothing(),
    }
}
