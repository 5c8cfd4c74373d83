// The line that tells why a candidate is the parent, or is not.
use crate::call::Call;
use crate::output::Output;
use crate::{report, sentences};
use choice::{Criterion, Difference};
use model::Bar;
use reason::Standing;
use std::io;
use std::io::Write;

// Writes the line of the candidate at a position.
pub(crate) fn line(out: &mut Output, told: &Call, position: usize) -> io::Result<()> {
    let count = told.candidates.len();
    let lent = told.lent.bytes();
    write!(out, "why {position}: ")?;
    match reason::ask(told.own.own, &told.list(), count, lent, position) {
        Err(refused) => {
            write!(out, "refused {}", refused.number())?;
            report::meaning(out, refused.number())?;
        }
        Ok(Standing::Chosen) => write!(out, "chosen")?,
        Ok(Standing::Barred(bar)) => barred(out, told, position, bar)?,
        Ok(Standing::Beaten { parent, difference }) => {
            write!(out, "beaten by candidate {parent}")?;
            beaten(out, &difference)?;
        }
    }
    writeln!(out)
}

// Writes what bars a candidate, with what was asked and found. Of a run that came in parts only what reads alike is kept, so that
// there is no more to tell where its options bar.
fn barred(out: &mut Output, told: &Call, position: usize, bar: Bar) -> io::Result<()> {
    write!(out, "barred by number {}", bar.number())?;
    if let Some(index) = bar.place() {
        write!(out, " at object {index}")?;
    }
    report::meaning(out, bar.number())?;
    let Some(one) = told.candidates.as_slice().get(position) else {
        return Ok(());
    };
    if one.is_parted() && matches!(bar, Bar::Option | Bar::Containers) {
        return Ok(());
    }
    match reason::shortfall(told.own.own, one.candidate, told.lent.bytes()) {
        Some(shortfall) => sentences::write(out, bar.place().unwrap_or(0), &shortfall),
        None => Ok(()),
    }
}

// Writes on what a candidate is beaten. On grounded it is by one that is.
fn beaten(out: &mut Output, on: &Difference) -> io::Result<()> {
    let Difference {
        criterion,
        value,
        against,
    } = *on;
    match criterion {
        Criterion::Order => write!(out, " on interface order: {value} against {against}"),
        Criterion::Grounded => write!(out, " on grounded: no against yes"),
        Criterion::Preference => write!(out, " on root preference: {value} against {against}"),
        Criterion::Rank => write!(out, " on rank: {value} against {against}"),
        Criterion::Current => write!(out, ", the current parent"),
        Criterion::Position => write!(out, " on position"),
    }
}
