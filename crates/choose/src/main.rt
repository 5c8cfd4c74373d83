// Answers the calls on its input: verdicts, parent, rank, and the containers for the next hop. docs/FORMATS.md has the forms of
// input and output.
#![tactic(auto)]

use crate::input::Input;
use crate::output::Output;
use crate::session::Session;
use std::io;

mod answer;
mod call;
mod candidate;
mod constraints;
mod fault;
mod input;
mod lent;
mod line;
mod output;
mod own;
mod report;
mod sentences;
mod session;
mod setting;
mod why;

// Answers all calls: reads on, and looks at the lines that have come. Where there is room left, the input is at its end.
fn answer_all(input: &mut Input, out: &mut Output) -> io::Result<()> {
    let mut session = Session::new();
    // a bound for the loop, which no input reaches
    for _ in 0..u64::MAX {
        input.fill();
        let behind = session.lines(input.bytes(), out)?;
        if !input.is_full() {
            return session.end(behind, out);
        }
        let kept = session.kept(behind);
        input.keep(kept);
    }
    Ok(())
}

fn main(rt: HostRuntime) -> io::Result<()> {
    let mut input = Input::from(rt.stdin());
    let mut out = Output::to(rt.stdout());
    let answered = answer_all(&mut input, &mut out);
    match input.failed {
        Some(e) => Err(e),
        None => answered,
    }
}
