// From lines to words, and from words to calls.
ghost use Rattle.std.specs.Prelude.{◌≤◌, length, IfOk};
ghost use Rattle.choose.specs.Line.{NoMoreLeft};

use crate::answer;
use crate::call::Call;
use crate::fault::Fault;
use crate::line::Rest;
use crate::output::Output;
use crate::setting::Setting;
use std::io;
use std::io::Write;

// The bytes of a line at most, its end not among them.
const LONGEST: usize = 8192;

// Where the next word stands: before the first call, in a call, or behind an error, up to the next call.
#[derive(Clone, Copy, PartialEq, Eq)]
enum Place {
    BeforeCalls,
    InCall,
    Skipped,
}

// The place in the input, and the call that is read.
#[derive(Drop)]
pub struct Session {
    place: Place,
    // the line that is read; 0 before the first
    line: u64,
    // whether the start of the next line was dropped, since it is too long
    is_long: bool,
    // how many `call` words there were
    calls: u64,
    // the line of the last `call` or `candidate` word
    begun: u64,
    call: Call,
}

impl Session {
    pub(crate) fn new() -> Session {
        Session {
            place: Place::BeforeCalls,
            line: 0,
            is_long: false,
            calls: 0,
            begun: 0,
            call: Call::new(),
        }
    }

    // Reads the lines of a text that have an end; answers what stands behind the last.
    pub(crate) fn lines<'a>(&mut self, text: &'a [u8], out: &mut Output) -> io::Result<&'a [u8]>
        ensures { IfOk result (λ last. length last.now ≤ length text.now) }
    {
        let mut lines = text.split(|byte| *byte == b'\n');
        let last = lines.next_back().unwrap_or(&[]);
        for line in lines {
            self.line(line, out)?;
        }
        Ok(last)
    }

    // Drops the start of a line that has no end yet, where it is too long; answers how many of its bytes are left.
    pub(crate) fn kept(&mut self, line: &[u8]) -> usize
        ensures { result ≤ length line.now }
    {
        if line.len() <= LONGEST {
            return line.len();
        }
        self.is_long = true;
        0
    }

    // Reads what stands behind the last line's end, which is a line too unless there is nothing, and ends the input.
    pub(crate) fn end(&mut self, text: &[u8], out: &mut Output) -> io::Result<()> {
        if self.is_long || !text.is_empty() {
            self.line(text, out)?;
        }
        if self.place == Place::BeforeCalls {
            self.fail(Fault::NoCall, out)?;
        }
        self.end_call(out)?;
        out.flush()
    }

    // Reads a line without its end.
    fn line(&mut self, text: &[u8], out: &mut Output) -> io::Result<()> {
        self.line = self.line.saturating_add(1);
        if self.is_long || LONGEST < text.len() {
            self.is_long = false;
            return self.fail(Fault::TooLong, out);
        }
        let mut rest = Rest::of(text);
        // a line has no more words than bytes
        for _ in 0..text.len() {
            let Some(word) = rest.word() else {
                return Ok(());
            };
            self.word(word, &mut rest, out)?;
        }
        Ok(())
    }

    // Reads a word, and what belongs to it.
    fn word(&mut self, word: &[u8], rest: &mut Rest<'_>, out: &mut Output) -> io::Result<()>
        ensures { NoMoreLeft rest.old rest.new }
    {
        if matches!(word, b"call") {
            self.end_call(out)?;
            self.begin_call();
            return Ok(());
        }
        match self.read(word, rest) {
            Ok(()) => Ok(()),
            Err(fault) => self.fail(fault, out),
        }
    }

    // Reads a word of a call; none where words are skipped.
    fn read(&mut self, word: &[u8], rest: &mut Rest<'_>) -> Result<(), Fault>
        ensures { NoMoreLeft rest.old rest.new }
    {
        match self.place {
            Place::BeforeCalls => return Err(Fault::BeforeCall),
            Place::Skipped => return Ok(()),
            Place::InCall => {}
        }
        if matches!(word, b"candidate") {
            self.call.begin_candidate()?;
            self.begun = self.line;
            return Ok(());
        }
        self.call.take(Setting::try_from(word)?, rest)
    }

    fn begin_call(&mut self) {
        self.place = Place::InCall;
        self.calls = self.calls.saturating_add(1);
        self.begun = self.line;
        self.call.clear();
    }

    // Ends a call, and answers it where it has no error.
    fn end_call(&mut self, out: &mut Output) -> io::Result<()> {
        if self.place != Place::InCall {
            return Ok(());
        }
        match self.call.missing() {
            Some(setting) => self.fail(Fault::Missing(setting), out),
            None => answer::write(out, self.calls, &self.call),
        }
    }

    // Writes the first error of a call, and skips the rest of it. What is missing is told at the line where its place began.
    fn fail(&mut self, fault: Fault, out: &mut Output) -> io::Result<()> {
        if self.place == Place::Skipped {
            return Ok(());
        }
        self.place = Place::Skipped;
        let line = match fault {
            Fault::Missing(_) => self.begun,
            Fault::NoCall => self.line.max(1),
            _ => self.line,
        };
        writeln!(out, "line {line}: {fault}")
    }
}
