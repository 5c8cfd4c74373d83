// The sentences on a candidate that is barred: what was asked of a number, of a run or by an object, and what was found.
use crate::constraints;
use crate::output::Output;
use reason::{Shortfall, Way};
use std::io;
use std::io::Write;

// Writes what was asked and found. The object is the one that bars.
pub(crate) fn write(out: &mut Output, place: u16, f: &Shortfall) -> io::Result<()> {
    match f.way {
        Way::Sp => range(out, "Sp", f),
        Way::Rf => range(out, "Rf", f),
        Way::Sr => range(out, "Sr", f),
        Way::Lql => range(out, "LQL", f),
        Way::NodeType => range(out, "type", f),
        Way::Colour => range(out, "colour", f),
        Way::Order => range(out, "interface order", f),
        Way::Preference => range(out, "root preference", f),
        Way::Outside | Way::Header | Way::Body | Way::Option | Way::OptionData | Way::Containers =>
            run(out, f),
        _ => constraints::unmet(out, place, f),
    }
}

// Bar 11: a number that is out of its range.
fn range(out: &mut Output, name: &str, f: &Shortfall) -> io::Result<()> {
    let Shortfall {
        which: least,
        asked: most,
        found,
        ..
    } = *f;
    write!(out, ": {name} is {found}, and can be {least} to {most}")
}

// Bars 12, 14, 22 and 23: what is wrong with a run, or with a container of it.
fn run(out: &mut Output, f: &Shortfall) -> io::Result<()> {
    let Shortfall {
        which,
        asked,
        found,
        ..
    } = *f;
    match f.way {
        Way::Outside => write!(
            out,
            ": it starts at {which} and has {asked} bytes, {found} are lent"
        ),
        Way::Option => write!(out, ": the option at byte {which} has no length"),
        Way::OptionData => {
            write!(
                out,
                ": the option at byte {which} says {asked} bytes, {found} are there"
            )
        }
        Way::Containers => write!(out, ": it has {found} containers, and {asked} are the most"),
        Way::Header => {
            write!(
                out,
                ": object {which} has a header of {asked} bytes, {found} are there"
            )
        }
        _ => write!(
            out,
            ": object {which} says {asked} bytes, {found} are there"
        ),
    }
}
