// The sub-objects of colour behind a reserved byte: ten bits colour, and six bits counter where they are recorded; in a constraint
// five reserved bits and I.
ghost use Rattle.std.specs.Prelude.{◌+◌, ◌≤◌, length};
ghost use Rattle.model.specs.Update.{clear_colour, count_colour, coloured_body};
ghost use Rattle.wire.specs.Put.{Put};

use crate::bytes;

// Puts sub-objects with the hop's colour counted: as they are, then one counter changed or one sub-object added. A lone last byte, which
// no well-formed object has, is kept.
fn put_colours(out: &mut [u8], at: usize, colour: u16, subs: &[u8]) -> usize
    requires colour_bound { colour ≤ 1023 }
    requires subs_in_bounds { at + length (count_colour colour subs.now) ≤ length out.old }
    ensures { Put out.old at (count_colour colour subs.now) result out.new }
{
    let end = bytes::put_bytes(out, at, subs);
    let place = metric::place_of(colour, subs);
    if place + 2 <= subs.len() {
        out[at + place + 1] = subs[place + 1] + 1;
        return end;
    }
    if subs.len() % 2 == 1 {
        return end;
    }
    out[end] = (colour / 4) as u8;
    out[end + 1] = (colour % 4 * 64 + 1) as u8;
    end + 2
}

// Puts the body of a recorded colour: the reserved byte cleared, the link's colour counted.
pub(crate) fn put_coloured(out: &mut [u8], at: usize, colour: u16, body: &[u8]) -> usize
    requires colour_bound { colour ≤ 1023 }
    requires body_in_bounds { at + length (coloured_body colour body.now) ≤ length out.old }
    ensures { Put out.old at (coloured_body colour body.now) result out.new }
{
    if body.len() == 0 {
        return at;
    }
    out[at] = 0;
    put_colours(out, at + 1, colour, &body[1..])
}

// Puts the body of a constraint: the reserved byte and the reserved bits of its sub-object cleared.
pub(crate) fn put_cleared(out: &mut [u8], at: usize, body: &[u8]) -> usize
    requires { at + length body.now ≤ length out.old }
    ensures { Put out.old at (clear_colour body.now) result out.new }
{
    if body.len() < 3 {
        return bytes::put_bytes(out, at, body);
    }
    out[at] = 0;
    out[at + 1] = body[1];
    out[at + 2] = metric::clear_third(body[2]);
    bytes::put_bytes(out, at + 3, &body[3..])
}
