// Standard input. `choose` has another like it: a function that reads belongs to its program (docs/DECISIONS.md).
ghost use Rattle.std.specs.Prelude.{◌≤◌};

use std::io;
use std::io::{Read, Stdin};

// The most bytes of a line.
pub(crate) const ROOM: usize = 65536;

// The bytes that are read and not looked at yet, and the error of the first read that failed: nothing is read after it. An array and
// how many of its bytes are held: a read writes behind these, where an `ArrayVec` lends no room.
#[derive(Drop)]
pub struct Input {
    pub failed: Option<io::Error>,
    buffer: [u8; ROOM],
    held: usize,
    reader: Stdin,
    ghost held_fits: { held ≤ 65536 },
}

impl Input {
    pub(crate) fn from(reader: Stdin) -> Input {
        Input {
            failed: None,
            buffer: [0; ROOM],
            held: 0,
            reader,
        }
    }

    // Reads on until there is no more room, the input ends or a read fails; answers whether anything came.
    pub(crate) fn fill(&mut self) -> bool
        ensures { self.old.held ≤ self.new.held }
    {
        let before = self.held;
        self.read_on();
        before < self.held
    }

    fn read_on(&mut self)
        ensures { self.old.held ≤ self.new.held }
    {
        while self.held < ROOM {
            if self.failed.is_some() {
                return;
            }
            match self.reader.read(&mut self.buffer[self.held..]) {
                Ok(0) => return,
                Ok(n) => self.held += n,
                Err(e) => {
                    self.failed = Some(e);
                    return;
                }
            }
        }
    }

    pub(crate) fn bytes(&self) -> &[u8] {
        &self.buffer[..self.held]
    }

    // Keeps so many of the last bytes.
    pub(crate) fn keep(&mut self, n: usize)
        ensures { self.new.held ≤ self.old.held }
    {
        let from = self.held.saturating_sub(n);
        self.buffer.copy_within(from..self.held, 0);
        self.held -= from;
    }
}
