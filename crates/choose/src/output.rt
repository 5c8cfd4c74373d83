// Standard output: it is gathered, and written out where there is no more room.
ghost use Rattle.std.specs.Prelude.{◌<◌, OnOk};
ghost use Rattle.arrayvec.specs.ArrayVec.{array_vec_len};

use arrayvec::ArrayVec;
use std::io;
use std::io::{Stdout, Write};

const DIGITS: [u8; 16] = *b"0123456789ABCDEF";

#[derive(Drop)]
pub struct Output {
    gathered: ArrayVec<u8, 65536>,
    writer: Stdout,
}

impl Output {
    pub(crate) fn to(writer: Stdout) -> Output {
        Output {
            gathered: ArrayVec::new(),
            writer,
        }
    }

    // Writes out what is gathered.
    fn write_out(&mut self) -> io::Result<()>
        ensures { OnOk result (array_vec_len self.new.gathered < 65536) }
    {
        self.writer.write_all(self.gathered.as_slice())?;
        self.gathered.clear();
        Ok(())
    }

    // Puts one byte, without the way of `write!` over a text and its pieces: a container has some two thousand bytes.
    pub(crate) fn byte(&mut self, byte: u8) -> io::Result<()> {
        if self.gathered.is_full() {
            self.write_out()?;
        }
        self.gathered.push(byte);
        Ok(())
    }

    // Puts a byte as two hexadecimal digits.
    pub(crate) fn hex(&mut self, byte: u8) -> io::Result<()> {
        self.byte(DIGITS[(byte / 16) as usize])?;
        self.byte(DIGITS[(byte % 16) as usize])
    }
}

impl Write for Output {
    fn write(&mut self, bytes: &[u8]) -> io::Result<usize> {
        if self.gathered.is_full() {
            self.write_out()?;
        }
        self.gathered.write(bytes)
    }

    fn flush(&mut self) -> io::Result<()> {
        self.write_out()
    }
}
