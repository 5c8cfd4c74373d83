// Bodies of aggregated metrics for the next hop, put into an output at an index; each function answers the index behind what it puts.
ghost use Rattle.std.specs.Prelude.{◌+◌, ◌/◌, ◌%◌, ◌≤◌, length};
ghost use Rattle.model.specs.Object.{kind_of};
ghost use Rattle.model.specs.Update.{local_value, value_or_0, aggregated_body, on_two, on_field};
ghost use Rattle.model.specs.Update as update;
ghost use Rattle.wire.specs.Put.{Put};
ghost use Rattle.metric.specs.Next.{clear_first, combine_second};

use crate::bytes;
use crate::parent::Hop;
use wire::Header;

// Puts the body of an aggregated node metric.
fn put_node(out: &mut [u8], at: usize, mctype: u8, a: u8, v: u8, body: &[u8]) -> usize
    requires { at + length body.now ≤ length out.old }
    ensures { Put out.old at (on_two (clear_first (kind_of mctype)) (combine_second (kind_of mctype) a v) body.now) result out.new }
{
    if body.len() < 2 {
        return bytes::put_bytes(out, at, body);
    }
    bytes::put_two(
        out,
        at,
        metric::clear_first(mctype, body[0]),
        metric::combine_second(mctype, a, v, body[1]),
        body,
    )
}

// Puts the body of an aggregated metric of four bytes.
fn put_field_4(out: &mut [u8], at: usize, a: u8, v: u32, body: &[u8]) -> usize
    requires { at + length body.now ≤ length out.old }
    ensures { Put out.old at (on_field 4 (λ x. update.combine a 4294967295 x v) body.now) result out.new }
{
    if body.len() != 4 {
        return bytes::put_bytes(out, at, body);
    }
    bytes::put_number::<4>(
        out,
        at,
        metric::combine(a, 4294967295, wire::number_4(body), v),
    )
}

// Puts the body of an aggregated metric of two bytes.
fn put_field_2(out: &mut [u8], at: usize, a: u8, v: u32, body: &[u8]) -> usize
    requires { at + length body.now ≤ length out.old }
    ensures { Put out.old at (on_field 2 (λ x. update.combine a 65535 x v) body.now) result out.new }
{
    if body.len() != 2 {
        return bytes::put_bytes(out, at, body);
    }
    bytes::put_number::<2>(
        out,
        at,
        metric::combine(a, 65535, wire::number_2(body) as u32, v),
    )
}

// Puts the body of an aggregated metric, combined with the local value.
pub(crate) fn put_aggregated(
    out: &mut [u8],
    at: usize,
    hop: Hop,
    header: Header,
    body: &[u8],
) -> usize
    requires { at + length body.now ≤ length out.old }
    ensures { Put out.old at (aggregated_body (kind_of header.mctype) (header.mode / 16 % 8) (value_or_0 (local_value hop.own hop.neighbour (kind_of header.mctype))) body.now) result out.new }
{
    let t = header.mctype;
    let a = header.mode / 16 % 8;
    let v = metric::local_or_0(hop.own, hop.neighbour, t);
    if (t == 4) | (t == 5) {
        return put_field_4(out, at, a, v, body);
    }
    if t == 7 {
        return put_field_2(out, at, a, v, body);
    }
    if (t == 1) | (t == 2) | (t == 3) {
        return put_node(out, at, t, a, v as u8, body);
    }
    bytes::put_bytes(out, at, body)
}
