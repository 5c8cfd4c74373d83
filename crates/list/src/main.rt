// Lists the container on standard input: a line for each object, or `refused` and the number of the bar.
#![tactic(auto)]

ghost use Rattle.std.specs.Prelude.{◌≤◌, IfOk, length};

use listing::ShortOutput;
use std::io;
use std::io::{Read, Stdin};

// Reads until a buffer is full or the input ends, and answers how many bytes stand at its start.
fn read_full(mut input: Stdin, buffer: &mut [u8]) -> io::Result<usize>
    ensures { IfOk result (λ n. n ≤ length buffer.new) }
{
    let mut done = 0;
    while done < buffer.len() {
        let n = input.read(&mut buffer[done..])?;
        if n == 0 {
            break;
        }
        done += n;
    }
    Ok(done)
}

// A container has 257 bytes at most, so the first 258 bytes of any input have its listing (ListingOfFront).
fn main(rt: HostRuntime) -> io::Result<()> {
    let mut input = [0u8; 258];
    let mut text = [0u8; listing::TEXT_ROOM];
    let n = read_full(rt.stdin(), &mut input)?;
    match listing::list(&input[..n], &mut text) {
        Ok(size) => rt.write_all(&text[..size]),
        Err(ShortOutput) => Ok(()),
    }
}
