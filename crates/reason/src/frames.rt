// Bars 12 and 14: what runs past what.
ghost use Rattle.std.specs.Prelude.{◌≡◌, ℕ, ◌+◌, ◌≤◌, false, length};
ghost use Rattle.model.specs.Run.{option_cut};
ghost use Rattle.reason.specs.Finding.{All, outside_finding, objects_told, overrun_finding};
ghost use Rattle.reason.specs.Told.{by_number, finding_from, objects_in};

use crate::findings::{Shortfall, Way};
use crate::options;
use model::Candidate;

// Bar 12: a run that is not inside so many lent bytes.
#[tactic(auto, unfolding(crate::specs::Finding::outside_finding))]
pub(crate) fn outside(candidate: Candidate, lent: usize) -> Shortfall
    ensures { by_number result ≡ outside_finding candidate lent }
{
    Shortfall {
        way: Way::Outside,
        which: candidate.start as u64,
        asked: candidate.size as u64,
        found: lent as u64,
    }
}

// Both walks go by index and size, since what runs past what is told by its sizes; wire's iterators end there without a word.

// Bar 14 in one container, by its data and the index of its first object among the joined ones: the index behind the last, unless an object
// is cut short.
fn objects_of(bytes: &[u8], first: u64) -> Result<u64, Shortfall>
    requires { first + length bytes.now ≤ 18446744073709551615 }
    ensures value { objects_in result ≡ objects_told bytes.now first }
    ensures few { (j : ℕ) → objects_in result ≡ All j → j ≤ first + length bytes.now }
{
    let mut at: usize = 0;
    let mut index = first;
    while at < bytes.len() {
        let there = bytes.len() - at;
        if there < 4 {
            return Err(Shortfall {
                way: Way::Header,
                which: index,
                asked: 4,
                found: there as u64,
            });
        }
        let size = bytes[at + 3] as usize;
        if there - 4 < size {
            return Err(Shortfall {
                way: Way::Body,
                which: index,
                asked: size as u64,
                found: (there - 4) as u64,
            });
        }
        at += 4 + size;
        index += 1;
    }
    Ok(index)
}

// Bar 14: no object runs past the end of its container, in a run whose options are whole.
pub(crate) fn check(run: &[u8]) -> Result<(), Shortfall>
    ensures { option_cut run.now ≡ false → finding_from result ≡ overrun_finding run.now }
{
    let mut at: usize = 0;
    let mut index: u64 = 0;
    while at < run.len() {
        let option = options::option_at(run, at)?;
        if option.kind == 2 {
            index = objects_of(&run[at + 2..option.end], index)?;
        }
        at = option.end;
    }
    Ok(())
}
