// The call that was told, and its answer.
use crate::call::Call;
use crate::output::Output;
use crate::{own, report, why};
use std::io;

// Calls, and writes the answer and the reasons that are asked for.
pub(crate) fn write(out: &mut Output, calls: u64, told: &Call) -> io::Result<()> {
    let mut sent = [0u8; own::MOST_ROOM];
    let answer = choice::call(
        told.own.own,
        &told.list(),
        told.candidates.len(),
        told.lent.bytes(),
        &mut sent[..told.own.room],
    );
    report::call(out, calls, &answer, told.candidates.len(), &sent)?;
    if let Some(position) = told.own.why {
        why::line(out, told, position)?;
    }
    if told.own.reasons {
        for position in 0..told.candidates.len() {
            why::line(out, told, position)?;
        }
    }
    Ok(())
}
