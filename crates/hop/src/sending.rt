// The containers for the next hop: each is built in an array of 257 bytes, and copied to the output when it is closed.
ghost use Rattle.std.specs.Prelude.{◌≡◌, ◌+◌, ◌-◌, ◌≤◌, ◌<◌, List, leb, length, get_or, set, take, drop};
ghost use Rattle.std.proofs.Math.Option.{some};
ghost use Rattle.std.proofs.lemmas.List.Edits.{sets};
ghost use Rattle.model.specs.declared.Own.{Own};
ghost use Rattle.model.specs.Object.{bytes_of};
ghost use Rattle.model.specs.Object as model;
ghost use Rattle.model.specs.Run.{run_objects};
ghost use Rattle.model.specs.Update.{update, update_object};
ghost use Rattle.model.specs.Pack.{packed};
ghost use Rattle.model.specs.Choice.{output_of};
ghost use Rattle.wire.specs.Front.{seen};
ghost use Rattle.wire.specs.Put.{Put};
ghost use Rattle.hop.specs.Sent.{unfit, sends, sent_of, told_by};
ghost use Rattle.hop.specs.Built.{Fits, OpensFor};

use crate::parent::Hop;
use crate::{bodies, bytes, plan};
use metric::Leaf;
use model::{Neighbour, Own};
use wire::{Containers, Object, Objects};

// Where the next container goes in the output, and the next object in the array.
#[derive(Clone, Copy)]
pub struct Place {
    pub done: usize,
    pub at: usize,
}

// Puts an object for the next hop at an index; answers the index behind it.
fn put_object(out: &mut [u8], at: usize, hop: Hop, object: Object) -> usize
    requires body_in_bounds { at + length (bytes_of (update_object hop.own hop.neighbour (seen object))) ≤ length out.old }
    requires out_len_bound { length out.old ≤ 257 }
    ensures { Put out.old at (bytes_of (update_object hop.own hop.neighbour (seen object.entry))) result out.new }
{
    let header = object.header;
    out[at] = header.mctype;
    out[at + 1] = metric::next_flags(hop.neighbour, header);
    out[at + 2] = metric::next_mode(header);
    let end = bodies::put_body(out, at + 4, hop, header, object.body);
    out[at + 3] = (end - at - 4) as u8;
    end
}

// Whether an object for the next hop has room from an index of the array on.
fn has_room(at: usize, neighbour: Neighbour, object: Object) -> bool
    requires { at ≤ 257 }
    ensures { (own : Own) → result ≡ leb (at + length (bytes_of (update_object own neighbour (seen object.entry)))) 257 }
{
    at + 4 + object.body.len() + metric::growth(neighbour, object.header, object.body) <= 257
}

// Copies the container that is built in the array, which begins with 2, to the output; answers the index behind it.
fn flush(out: &mut [u8], done: usize, array: &mut [u8], at: usize) -> usize
    requires le_at { (2 ≤ at) × (at ≤ 257) × (length array.old ≡ 257) }
    requires at_in_bounds { done + at ≤ length out.old }
    ensures put { Put out.old done (take at (set array.old 1 (at - 2))) result out.new }
    ensures framed { array.new ≡ set array.old 1 (at - 2) }
{
    array[1] = (at - 2) as u8;
    bytes::put_bytes(out, done, &array[..at])
}

// Has room for an object in the array: where there is none, the container in it is closed and the next one opened. No object of a lone
// container is asked.
fn open_for(
    out: &mut [u8],
    array: &mut [u8],
    place: Place,
    neighbour: Neighbour,
    object: Object,
    many: bool,
) -> Place
    requires le_at { (2 ≤ place.at) × (place.at ≤ 257) × (length array.old ≡ 257) }
    requires at_in_bounds { place.done + place.at ≤ length out.old }
    ensures { OpensFor neighbour (seen object.entry) many place out.old array.old result out.new array.new }
{
    if !many {
        return place;
    }
    if has_room(place.at, neighbour, object) {
        return place;
    }
    Place {
        done: flush(out, place.done, array, place.at),
        at: 2,
    }
}

// Puts the containers of a run's objects for the next hop.
fn put_objects(out: &mut [u8], array: &mut [u8], hop: Hop, run: &[u8], many: bool)
    requires array_len { (length array.old ≡ 257) × (get_or array.old 0 0 ≡ 2) × (2056 ≤ length out.old) }
    requires fits { Fits hop.own hop.neighbour run.now many }
    ensures { (os : List model.Object) → run_objects run.now ≡ some os → out.new ≡ sets out.old 0 (packed (update hop.own hop.neighbour os)) }
{
    let mut place = Place { done: 0, at: 2 };
    let mut containers = Containers::new(run);
    while let Some(data) = containers.next() {
        let mut objects = Objects::new(data);
        while let Some(object) = objects.next() {
            let opened = open_for(out, array, place, hop.neighbour, object, many);
            place = Place {
                done: opened.done,
                at: put_object(array, opened.at, hop, object),
            };
        }
    }
    flush(out, place.done, array, place.at);
}

// Whether a number has no room in its field, or the output is shorter than any of an unrefused call.
fn is_unfit(own: Own, neighbour: Neighbour, room: usize) -> bool
    ensures { result ≡ unfit own neighbour room }
{
    (3 < own.nodetype) | (7 < neighbour.lql) | (1023 < neighbour.colour) | (room < 2056)
}

// Writes the containers for the next hop and answers their length, 0 where there is none; or why none is sent on. The plan has ruled out
// every leaf answer before a byte is written.
pub fn send(own: Own, neighbour: Neighbour, run: &[u8], out: &mut [u8]) -> Result<u16, Leaf>
    ensures value { told_by result ≡ sent_of (sends own neighbour run.now (length out.old)) }
    ensures written { out.new ≡ output_of (sends own neighbour run.now (length out.old)) out.old }
{
    if is_unfit(own, neighbour, out.len()) {
        return Ok(0);
    }
    let sent = plan::plan(own, neighbour, run);
    let size = sent.unwrap_or(0);
    if size == 0 {
        return sent;
    }
    let mut built = [0u8; 257];
    built[0] = 2;
    put_objects(out, &mut built, Hop { own, neighbour }, run, 257 < size);
    sent
}
