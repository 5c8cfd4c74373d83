// Reads lines of a name and the bytes of a container in hexadecimal, a space before each, and writes for each the name and what
// reading the container answers: the bar and the index of its object, or the number of objects, the count of the HP metric, and
// the latency and the ETX that are added up along the path, where they are not 0.
// A line of another form, or with a container of more than 512 bytes, has the answer NAME `unreadable`.
// It takes the first 65,536 bytes of its input.
#![tactic(auto)]

ghost use Rattle.std.specs.Prelude.{◌≤◌, IfOk, length};

use std::io;
use std::io::{Read, Stdin, Stdout, Write};
use wire::Reading;

// Writes what a container holds, and what it tells the tests of its constraints.
fn say_reading(out: &mut Stdout, reading: &Reading) -> io::Result<()> {
    write!(out, " objects {}", reading.count)?;
    let told = reading.summary;
    if let Some(hops) = told.hops {
        write!(out, " hops {hops}")?;
    }
    if 0 < told.latency {
        write!(out, " latency {}", told.latency)?;
    }
    if 0 < told.etx {
        write!(out, " etx {}", told.etx)?;
    }
    Ok(())
}

// One line: its name, then what reading the bytes behind it answers.
fn run_line(out: &mut Stdout, line: &[u8]) -> io::Result<()> {
    let (name, behind) = line.split_at(words::find(line, 0, b' '));
    out.write_all(name)?;
    let mut bytes = [0u8; 512];
    // An array and how many of its bytes were read, since nothing here allocates.
    let n = words::bytes(behind, &mut bytes);
    if n * 3 != behind.len() {
        return writeln!(out, " unreadable");
    }
    match wire::read(&bytes[..n]) {
        Ok(reading) => say_reading(out, &reading)?,
        Err(bar) => {
            write!(out, " refused {}", bar.number())?;
            if let Some(place) = bar.place() {
                write!(out, " at {place}")?;
            }
        }
    }
    writeln!(out)
}

// Reads until a buffer is full or the input ends, and answers how many bytes stand at its start.
fn read_full(mut input: Stdin, buffer: &mut [u8]) -> io::Result<usize>
    ensures { IfOk result (λ n. n ≤ length buffer.new) }
{
    let mut done = 0;
    while done < buffer.len() {
        let n = input.read(&mut buffer[done..])?;
        if n == 0 {
            break;
        }
        done += n;
    }
    Ok(done)
}

fn main(rt: HostRuntime) -> io::Result<()> {
    let mut input = [0u8; 65536];
    let n = read_full(rt.stdin(), &mut input)?;
    let mut out = rt.stdout();
    for line in input[..n].split_inclusive(|byte| *byte == b'\n') {
        run_line(&mut out, line.strip_suffix(b"\n").unwrap_or(line))?;
    }
    Ok(())
}
