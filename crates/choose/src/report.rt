// The lines of an answered call.
use crate::output::Output;
use model::Answer;
use std::io;
use std::io::Write;

// Writes what a number means, behind `: `.
pub(crate) fn meaning(out: &mut Output, number: u8) -> io::Result<()> {
    write!(out, ": {}", meaning::words(number))
}

// The index of an object, unless its place says that there is none, which is 65535 in what C receives.
pub(crate) fn object_at(place: u16) -> Option<u16> {
    (place != 65535).then_some(place)
}

// Writes a line for each candidate.
fn verdicts(out: &mut Output, answer: &Answer, count: usize) -> io::Result<()> {
    let verdicts = answer.verdicts.iter().zip(&answer.places);
    for (position, (number, place)) in verdicts.take(count).enumerate() {
        write!(out, "candidate {position} verdict {number}")?;
        if let Some(index) = object_at(*place) {
            write!(out, " object {index}")?;
        }
        meaning(out, *number)?;
        writeln!(out)?;
    }
    Ok(())
}

// Writes the lines of the parent and of the rank. `Answer`, whose layout C has, says 255 for no parent, and 0 for no refusal and
// no leaf answer.
fn parent(out: &mut Output, answer: &Answer) -> io::Result<()> {
    if answer.parent == 255 {
        return writeln!(out, "parent none\nrank none");
    }
    writeln!(out, "parent {}\nrank {}", answer.parent, answer.rank.0)
}

// Writes the line of the leaf answer.
fn leaf(out: &mut Output, number: u8) -> io::Result<()> {
    write!(out, "leaf {number}")?;
    if number == 0 {
        return writeln!(out, ": no leaf answer");
    }
    meaning(out, number)?;
    writeln!(out)
}

// Writes the lines of the length and of the containers.
fn containers(out: &mut Output, sent: &[u8]) -> io::Result<()> {
    write!(out, "length {}\ncontainer", sent.len())?;
    if sent.is_empty() {
        return writeln!(out, " none");
    }
    for byte in sent {
        out.byte(b' ')?;
        out.hex(*byte)?;
    }
    writeln!(out)
}

// Writes the lines of a call, the so-manieth of the input.
pub(crate) fn call(
    out: &mut Output,
    calls: u64,
    answer: &Answer,
    count: usize,
    sent: &[u8],
) -> io::Result<()> {
    writeln!(out, "call {calls}")?;
    if answer.refusal != 0 {
        write!(out, "refused {}", answer.refusal)?;
        meaning(out, answer.refusal)?;
        return writeln!(out);
    }
    verdicts(out, answer, count)?;
    parent(out, answer)?;
    writeln!(out, "bits {}\ncount {}", answer.bits, answer.count)?;
    leaf(out, answer.leaf)?;
    let size = (answer.size as usize).min(sent.len());
    containers(out, &sent[..size])
}
