// A whole run, or a lone container: the bars of its frame, 14, then the first object with 15, 16 or 17; or what later passes ask of it.
ghost use Rattle.std.specs.Prelude.{◌≡◌, ◌<◌, false, not, List};
ghost use Rattle.model.specs.Object.{Object};
ghost use Rattle.model.specs.Reading.{read_objects, reading};
ghost use Rattle.model.specs.Run.{object_cut, option_cut, ninth_container, run_objects, read_run};
ghost use Rattle.wire.specs.Gathered.{Gathers, whole_reading, bars_first};
ghost use Rattle.wire.specs.Reading.{reading_in, reading_of};

use crate::containers;
use crate::containers::Containers;
use crate::gathered::Gathered;
use crate::objects::Objects;
use model::{Bar, ObjectBar, Summary};

// What is read of a well-formed run: the number of its objects, whether some are mandatory constraints, and what they tell the tests of these.
#[derive(Clone, Copy)]
pub struct Reading {
    pub count: u16,
    pub mandatory: bool,
    pub summary: Summary,
}

// Whether no object of a run runs past the end of its container, where no option is cut short.
fn is_whole(run: &[u8]) -> bool
    requires { option_cut run.now ≡ false }
    ensures { result ≡ not (object_cut run.now) }
{
    let mut containers = Containers::new(run);
    while let Some(data) = containers.next() {
        let mut objects = Objects::new(data);
        while let Some(_) = objects.next() {}
        if !objects.is_done() {
            return false;
        }
    }
    true
}

// The first bar among 15 to 17, by the index of its object; 14 comes before it.
fn first_bar(run: &[u8], bar: ObjectBar, place: usize) -> Bar
    requires whole { option_cut run.now ≡ false }
    requires fits { object_cut run.now ≡ false → place < 65536 }
    ensures { result ≡ bars_first (object_cut run.now) bar place }
{
    if is_whole(run) {
        return Bar::AtObject {
            bar,
            place: place as u16,
        };
    }
    Bar::Overrun
}

// Bars 14 to 17, in one pass over the objects of a run whose options are whole and that has no ninth container.
#[inline(never)]
fn read_objects(run: &[u8]) -> Result<Reading, Bar>
    requires whole { option_cut run.now ≡ false }
    requires few { ninth_container run.now ≡ false }
    ensures { reading_in result ≡ reading_of (read_objects (run_objects run.now)) }
{
    let mut gathered = Gathered::new();
    let mut containers = Containers::new(run);
    while let Some(data) = containers.next() {
        let mut objects = Objects::new(data);
        while let Some(object) = objects.next() {
            match gathered.add(object) {
                Ok(more) => gathered = more,
                Err(bar) => return Err(first_bar(run, bar, gathered.count)),
            }
        }
        if !objects.is_done() {
            return Err(Bar::Overrun);
        }
    }
    Ok(Reading {
        count: gathered.count as u16,
        mandatory: gathered.flags.has_mandatory(),
        summary: gathered.summary,
    })
}

// Reads a run: bars 22 and 23, then its joined objects.
pub fn read_run(run: &[u8]) -> Result<Reading, Bar>
    ensures { reading_in result ≡ reading_of (read_run run.now) }
{
    containers::check(run)?;
    read_objects(run)
}

// Reads a lone container: bar 13, then as a run.
pub fn read(container: &[u8]) -> Result<Reading, Bar>
    ensures { reading_in result ≡ reading_of (reading container.now) }
{
    if !containers::is_framed(container) {
        return Err(Bar::Frame);
    }
    read_run(container)
}
