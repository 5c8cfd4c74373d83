// Bar 19: the object of an index among the joined objects of a run.
ghost use Rattle.std.specs.Prelude.{◌≡◌, List};
ghost use Rattle.std.proofs.Math.ListN.{get_elem?};
ghost use Rattle.model.specs.Object.{Object};
ghost use Rattle.model.specs.Reading.{well_formed};
ghost use Rattle.model.specs.Run.{read_run};
ghost use Rattle.verdict.specs.Judged.{WellFormed};
ghost use Rattle.reason.specs.Finding.{object_finding, unmet_finding};
ghost use Rattle.reason.specs.Told.{finding_in};

use crate::asked;
use crate::findings::Shortfall;
use model::{Neighbour, Summary};
use wire::{Containers, Objects};

// What it asks, and what was found, by what a well-formed run tells.
fn at_object(neighbour: Neighbour, summary: Summary, place: u16, run: &[u8]) -> Option<Shortfall>
    requires { WellFormed run.now }
    ensures { (os : List Object) → read_run run.now ≡ well_formed os → finding_in result ≡ object_finding neighbour summary (get_elem? os place) }
{
    let mut left = place;
    let mut containers = Containers::new(run);
    while let Some(data) = containers.next() {
        let mut objects = Objects::new(data);
        while let Some(object) = objects.next() {
            if left == 0 {
                return asked::of_object(neighbour, summary, object);
            }
            left -= 1;
        }
    }
    None
}

// The same of a run that is read first.
pub(crate) fn unmet(neighbour: Neighbour, place: u16, run: &[u8]) -> Option<Shortfall>
    ensures { finding_in result ≡ unmet_finding neighbour (read_run run.now) place }
{
    match wire::read_run(run) {
        Ok(reading) => at_object(neighbour, reading.summary, place, run),
        Err(_) => None,
    }
}
