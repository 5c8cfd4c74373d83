// Bodies of recorded metrics for the next hop, put into an output at an index; each function answers the index behind what it puts.
ghost use Rattle.std.specs.Prelude.{◌+◌, ◌/◌, ◌%◌, ◌≤◌, length};
ghost use Rattle.model.specs.Object.{kind_of};
ghost use Rattle.model.specs.Constraint.{energy_in};
ghost use Rattle.model.specs.Update.{sub_object, clear_each, own_energy, counted_body, recorded_body};
ghost use Rattle.model.specs.Update as update;
ghost use Rattle.wire.specs.Put.{Put};

use crate::parent::Hop;
use crate::{bytes, colours, levels};

// Puts the link's value as a sub-object of WIDTH bytes, where it is known.
fn put_sub<const WIDTH: usize>(out: &mut [u8], at: usize, q: Option<u32>) -> usize
    requires width { WIDTH ≤ 4 }
    requires room { at + length (sub_object WIDTH q) ≤ length out.old }
    ensures { Put out.old at (sub_object WIDTH q) result out.new }
{
    match q {
        Some(v) => bytes::put_number::<WIDTH>(out, at, v),
        None => at,
    }
}

// Puts the sub-objects of a recorded NE, the upper four bits of each flags byte cleared.
fn put_energies(out: &mut [u8], at: usize, body: &[u8]) -> usize
    requires { at + length body.now ≤ length out.old }
    ensures { Put out.old at (clear_each body.now) result out.new }
{
    let n = body.len();
    let mut i: usize = 0;
    while i < n {
        if n - i < 2 {
            out[at + i] = body[i];
            return at + n;
        }
        out[at + i] = body[i] % 16;
        out[at + i + 1] = body[i + 1];
        i += 2;
    }
    at + n
}

// Puts the sub-object of this node behind those of a recorded NE: own type, I=0, E and E_E.
fn put_own_energy(out: &mut [u8], at: usize, hop: Hop) -> usize
    requires { at + 2 ≤ length out.old }
    ensures { Put out.old at (own_energy hop.own.nodetype (energy_in hop.own.flags hop.own.energy)) result out.new }
{
    let own = hop.own;
    if own.flags / 4 % 2 == 1 {
        out[at] = own.nodetype * 2 + 1;
        out[at + 1] = own.energy;
        return at + 2;
    }
    out[at] = own.nodetype * 2;
    out[at + 1] = 0;
    at + 2
}

// Puts the body of a recorded LQL metric: the reserved byte cleared, the link's level counted.
fn put_counted(out: &mut [u8], at: usize, level: u8, body: &[u8]) -> usize
    requires level_bound { level ≤ 7 }
    requires body_in_bounds { at + length (counted_body level body.now) ≤ length out.old }
    ensures { Put out.old at (counted_body level body.now) result out.new }
{
    if body.len() == 0 {
        return at;
    }
    out[at] = 0;
    levels::put_levels(out, at + 1, level, &body[1..])
}

// Puts the body of a recorded metric: the local value behind the last sub-object, for throughput before the first.
pub(crate) fn put_recorded(out: &mut [u8], at: usize, hop: Hop, mctype: u8, body: &[u8]) -> usize
    requires body_in_bounds { at + length (recorded_body hop.own hop.neighbour (kind_of mctype) body.now) ≤ length out.old }
    ensures { Put out.old at (recorded_body hop.own hop.neighbour (kind_of mctype) body.now) result out.new }
{
    if mctype == 2 {
        let end = put_energies(out, at, body);
        return put_own_energy(out, end, hop);
    }
    if mctype == 6 {
        return put_counted(out, at, hop.neighbour.lql, body);
    }
    if mctype == 8 {
        return colours::put_coloured(out, at, hop.neighbour.colour, body);
    }
    let q = metric::link_value(hop.neighbour, mctype);
    if mctype == 4 {
        let end = put_sub::<4>(out, at, q);
        return bytes::put_bytes(out, end, body);
    }
    let end = bytes::put_bytes(out, at, body);
    if mctype == 7 {
        return put_sub::<2>(out, end, q);
    }
    put_sub::<4>(out, end, q)
}
