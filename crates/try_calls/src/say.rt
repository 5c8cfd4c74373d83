// Writing the answer of a case, and the reasons.
use model::Answer;
use reason::{Refused, Standing};
use std::io;
use std::io::{Stdout, Write};

const DIGITS: [u8; 16] = *b"0123456789abcdef";

// The answer of a call with so many candidates, and the output behind it.
pub(crate) fn answer(
    out: &mut Stdout,
    given: &Answer,
    count: usize,
    sent: &[u8],
) -> io::Result<()> {
    let Answer {
        refusal,
        parent,
        rank,
        bits,
        count: unbarred,
        leaf,
        size,
        ..
    } = *given;
    write!(
        out,
        " {refusal} {parent} {} {bits} {unbarred} {leaf} {size} verdicts",
        rank.0
    )?;
    verdicts(out, given, count)?;
    write!(out, " output")?;
    output(out, sent, size as usize)
}

// The verdicts of the first candidates, so many as the count says, and whether any other is set.
fn verdicts(out: &mut Stdout, given: &Answer, count: usize) -> io::Result<()> {
    for (number, place) in given.verdicts.iter().zip(&given.places).take(count) {
        verdict(out, *number, *place)?;
    }
    let mut beyond = given.verdicts.iter().zip(&given.places).skip(count);
    if beyond.any(|(number, place)| *number != 0 || *place != 65535) {
        write!(out, " beyond")?;
    }
    Ok(())
}

// A verdict, and its place if it has one: 65535 is none in `Answer`, whose layout C has.
fn verdict(out: &mut Stdout, number: u8, place: u16) -> io::Result<()> {
    write!(out, " {number}")?;
    if place != 65535 {
        write!(out, "@{place}")?;
    }
    Ok(())
}

// The first bytes of an output, so many as the size says, and whether all others are as before.
fn output(out: &mut Stdout, sent: &[u8], size: usize) -> io::Result<()> {
    for byte in sent.iter().take(size) {
        // one write, since standard output takes each piece of a text by itself
        let digits = [
            b' ',
            DIGITS[(*byte / 16) as usize],
            DIGITS[(*byte % 16) as usize],
        ];
        out.write_all(&digits)?;
    }
    if sent.iter().skip(size).all(|byte| *byte == 0xEE) {
        write!(out, " kept")
    } else {
        write!(out, " changed")
    }
}

// A reason, as one word.
pub(crate) fn reason(out: &mut Stdout, why: Result<Standing, Refused>) -> io::Result<()> {
    match why {
        Err(refused) => write!(out, " refused-{}", refused.number()),
        Ok(Standing::Chosen) => write!(out, " chosen"),
        Ok(Standing::Barred(bar)) => verdict(out, bar.number(), bar.place().unwrap_or(65535)),
        Ok(
            Standing::Beaten {
                parent,
                difference: on,
            },
        ) => {
            let criterion = on.criterion.number();
            write!(out, " {parent}:{criterion}:{}:{}", on.value, on.against)
        }
    }
}
