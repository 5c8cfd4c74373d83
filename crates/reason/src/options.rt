// Bars 22 and 23: the options of a run.
ghost use Rattle.std.specs.Prelude.{◌≡◌, ◌<◌, length};
ghost use Rattle.model.specs.Run.{containers_in};
ghost use Rattle.reason.specs.Finding.{cut_option_finding, containers_finding};
ghost use Rattle.reason.specs.Told.{by_number, finding_from};
ghost use Rattle.reason.specs.Options.{Stands};

use crate::findings::{Shortfall, Way};

// A whole option: its type, and the index behind it.
#[derive(Clone, Copy)]
pub struct Piece {
    pub kind: u8,
    pub end: usize,
}

// The option at an index, unless it is cut short.
pub(crate) fn option_at(run: &[u8], at: usize) -> Result<Piece, Shortfall>
    requires { at < length run.now }
    ensures { Stands run.now at result }
{
    let kind = run[at];
    if kind == 0 {
        return Ok(Piece { kind, end: at + 1 });
    }
    let there = run.len() - at;
    if there < 2 {
        return Err(Shortfall {
            way: Way::Option,
            which: at as u64,
            asked: 2,
            found: 1,
        });
    }
    let size = run[at + 1] as usize;
    if there - 2 < size {
        return Err(Shortfall {
            way: Way::OptionData,
            which: at as u64,
            asked: size as u64,
            found: (there - 2) as u64,
        });
    }
    Ok(Piece {
        kind,
        end: at + 2 + size,
    })
}

// Both walks go by index, since the index of an option that is cut short is told; wire's iterator has none.

// Bar 22: no option is cut short.
pub(crate) fn check(run: &[u8]) -> Result<(), Shortfall>
    ensures { finding_from result ≡ cut_option_finding run.now }
{
    let mut at: usize = 0;
    while at < run.len() {
        at = option_at(run, at)?.end;
    }
    Ok(())
}

// How many containers a run has; 0 where an option is cut short.
fn count(run: &[u8]) -> u64
    ensures { result ≡ length (containers_in run.now) }
{
    let mut from: usize = 0;
    let mut found: u64 = 0;
    while from < run.len() {
        let Ok(option) = option_at(run, from) else {
            return 0;
        };
        if option.kind == 2 {
            found += 1;
        }
        from = option.end;
    }
    found
}

// Bar 23: more containers than eight.
#[tactic(auto, unfolding(crate::specs::Finding::containers_finding))]
pub(crate) fn containers(run: &[u8]) -> Shortfall
    ensures { by_number result ≡ containers_finding run.now }
{
    Shortfall {
        way: Way::Containers,
        which: 0,
        asked: 8,
        found: count(run),
    }
}
