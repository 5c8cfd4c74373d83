// The body of an object for the next hop, put into an output at an index; each function answers the index behind what it puts.
ghost use Rattle.std.specs.Prelude.{◌+◌, ◌/◌, ◌%◌, ◌≤◌, length};
ghost use Rattle.model.specs.Object.{kind_of, role_of};
ghost use Rattle.model.specs.Update.{next_body, on_two};
ghost use Rattle.model.specs.Update as update;
ghost use Rattle.wire.specs.Put.{Put};
ghost use Rattle.metric.specs.Next.{clear_first, clear_second};

use crate::parent::Hop;
use crate::{aggregated, bytes, colours, recorded};
use wire::Header;

// Puts a constraint's body.
fn put_constraint(out: &mut [u8], at: usize, mctype: u8, body: &[u8]) -> usize
    requires { at + length body.now ≤ length out.old }
    ensures { Put out.old at (on_two (clear_first (kind_of mctype)) (clear_second (kind_of mctype)) body.now) result out.new }
{
    if body.len() < 2 {
        return bytes::put_bytes(out, at, body);
    }
    bytes::put_two(
        out,
        at,
        metric::clear_first(mctype, body[0]),
        metric::clear_second(mctype, body[1]),
        body,
    )
}

// Puts the body of an object.
pub(crate) fn put_body(out: &mut [u8], at: usize, hop: Hop, header: Header, body: &[u8]) -> usize
    requires body_in_bounds { at + length (next_body hop.own hop.neighbour (kind_of header.mctype) (role_of header.flags header.mode) (header.mode / 16 % 8) body.now) ≤ length out.old }
    ensures { Put out.old at (next_body hop.own hop.neighbour (kind_of header.mctype) (role_of header.flags header.mode) (header.mode / 16 % 8) body.now) result out.new }
{
    if header.is_constraint() {
        if header.mctype == 8 {
            return colours::put_cleared(out, at, body);
        }
        return put_constraint(out, at, header.mctype, body);
    }
    if header.is_recorded() {
        return recorded::put_recorded(out, at, hop, header.mctype, body);
    }
    aggregated::put_aggregated(out, at, hop, header, body)
}
