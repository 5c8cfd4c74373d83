// The text that lists a container.
#![tactic(auto)]

ghost use Rattle.std.specs.Prelude.{◌≡◌, ◌≤◌, length};
ghost use Rattle.model.specs.Object.{join};
ghost use Rattle.model.specs.Listing.{object_lines};
ghost use Rattle.wire.specs.Front.{front};
ghost use Rattle.listing.specs.Listed.{text_room, listed, listed_in};
ghost use Rattle.listing.specs.Puts.{Puts};

mod writer;

use wire::Objects;
use writer::Writer;

// Bytes that hold the text of any container.
pub const TEXT_ROOM: usize = 1100;

// An output is too short for every text.
#[derive(Clone, Copy, PartialEq, Eq, Debug)]
pub struct ShortOutput;

// Puts a line for each object of a container's data.
fn put_lines(bytes: &[u8], writer: &mut Writer)
    requires few { length (join (front bytes.now)) ≤ 255 }
    requires text_room_in_bounds { text_room ≤ length writer.old.out.now }
    requires unused { writer.old.used ≡ 0 }
    ensures same_output { writer.new.out.ghost_name ≡ writer.old.out.ghost_name }
    ensures put { Puts writer.old.out.now 0 (object_lines (front bytes.now)) writer.new.out.now writer.new.used }
{
    for object in Objects::new(bytes) {
        writer.line(object);
    }
}

// Writes the text that lists a container; answers its length, or that the output is too short for every text, and untouched.
pub fn list(container: &[u8], out: &mut [u8]) -> Result<usize, ShortOutput>
    ensures value { result ≡ listed container.now (length out.old) }
    ensures written { out.new ≡ listed_in container.now out.old }
{
    if out.len() < TEXT_ROOM {
        return Err(ShortOutput);
    }
    let mut writer = Writer { out, used: 0 };
    match wire::read(container) {
        Err(bar) => {
            writer.refused(bar.number());
            Ok(writer.used)
        }
        Ok(_) => {
            put_lines(&container[2..], &mut writer);
            Ok(writer.used)
        }
    }
}
