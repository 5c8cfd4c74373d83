// Runs `choice::call` and `reason::ask` on the cases of its input, one to a line, and writes a line for each.
// A case: NAME minhop maxincrease lowest nodetype flags energy edition current room count, then for each candidate (16 at most
// stand on the line, whatever the count) rank sp rf sr nodetype flags energy lql etx latency throughput colour order preference
// start size, then the bytes of the lent run. One space is between two words; numbers are decimal, bytes two hexadecimal digits.
// The numbers are the fields of `Own` and `Candidate`; room is the length of the lent output, 2100 at most, whose bytes are all
// 0xEE before the call.
// The answer: NAME refusal parent rank bits count leaf size, `verdicts` and those of the candidates on the line, each with `@`
// and its place if it has one, `beyond` if any other verdict or place is set, `output` and the first `size` bytes of the output,
// then `kept` if all bytes behind them are still 0xEE, else `changed`. No parent is 255, no rank 65535, as in `Answer`. Then
// `why` and the reason at each candidate on the line and at the position equal to their number: `chosen`; V or V@I, barred by V,
// at object I; B:K:V:A, beaten by candidate B on criterion K, with value V against A; `refused-N`, refused by N.
// A line of another form has the answer NAME `unreadable`, or `unreadable` if it has no name. A line has 65,536 bytes at most,
// its end among them; of a longer one each 65,536 bytes are taken for a line.
#![tactic(auto)]

ghost use Rattle.std.specs.Prelude.{◌≤◌, length, IfOk};

use crate::case::{Case, MOST_ROOM};
use crate::fields::Fields;
use crate::input::Input;
use std::io;
use std::io::{Stdout, Write};

mod case;
mod fields;
mod input;
mod say;

// No line lends more bytes: each takes a space and two digits of it.
const MOST_LENT: usize = input::ROOM / 3;

// How often the buffer is filled at most: a bound for the loop, which only an input of some gigabytes reaches.
const TURNS: u32 = 65536;

// Calls on a case, and writes the answer and the reason at each candidate on its line and at the position behind them.
fn run_case(out: &mut Stdout, given: &Case, lent: &[u8]) -> io::Result<()> {
    let mut sent = [0xEEu8; MOST_ROOM];
    let answer = choice::call(
        given.own,
        &given.candidates,
        given.count,
        lent,
        &mut sent[..given.room],
    );
    say::answer(out, &answer, given.count, &sent)?;
    write!(out, " why")?;
    for position in 0..=given.shown() {
        let why = reason::ask(given.own, &given.candidates, given.count, lent, position);
        say::reason(out, why)?;
    }
    writeln!(out)
}

// One line: its name, then the answer.
fn run_line(out: &mut Stdout, line: &[u8]) -> io::Result<()> {
    let (name, behind) = line.split_at(words::find(line, 0, b' '));
    if name.is_empty() {
        return writeln!(out, "unreadable");
    }
    out.write_all(name)?;
    let mut fields = Fields { rest: behind };
    if let Some(given) = Case::read(&mut fields) {
        // An array and how many of its bytes were read: nothing here allocates.
        let mut lent = [0u8; MOST_LENT];
        let n = words::bytes(fields.rest, &mut lent);
        if n * 3 == fields.rest.len() {
            return run_case(out, &given, &lent[..n]);
        }
    }
    writeln!(out, " unreadable")
}

// Runs each line of a text that has an end, and answers how long what stands behind the last end is.
fn run_lines(out: &mut Stdout, text: &[u8]) -> io::Result<usize>
    ensures { IfOk result (λ n. n ≤ length text.now) }
{
    let mut lines = text.split(|byte| *byte == b'\n');
    let last = lines.next_back().unwrap_or(&[]);
    for line in lines {
        run_line(out, line)?;
    }
    Ok(last.len())
}

// Runs all cases: reads on, and runs what has come. At the end of the input or of the buffer a line needs no end.
fn run(input: &mut Input, out: &mut Stdout) -> io::Result<()> {
    for _ in 0..TURNS {
        if input.fill() {
            let held = run_lines(out, input.bytes())?;
            input.keep(held);
        } else if input.bytes().is_empty() {
            return Ok(());
        } else {
            run_line(out, input.bytes())?;
            input.keep(0);
        }
    }
    Ok(())
}

fn main(rt: HostRuntime) -> io::Result<()> {
    let mut input = Input::from(rt.stdin());
    let mut out = rt.stdout();
    let answered = run(&mut input, &mut out);
    match input.failed {
        Some(e) => Err(e),
        None => answered,
    }
}
