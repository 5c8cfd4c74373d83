// What is sent on, before a byte is written: a leaf answer, or the length of the containers.
ghost use Rattle.std.specs.Prelude.{◌≡◌, ◌≤◌, List, [], ◌∷◌, ◌++◌, length, drop};
ghost use Rattle.std.proofs.Math.Option.{some};
ghost use Rattle.model.specs.declared.Own.{Own};
ghost use Rattle.model.specs.declared.Neighbour.{Neighbour};
ghost use Rattle.model.specs.Object.{bytes_of};
ghost use Rattle.model.specs.Object as model;
ghost use Rattle.model.specs.Run.{run_objects};
ghost use Rattle.wire.specs.Front.{seen};
ghost use Rattle.hop.specs.Sent.{sends_objects, sent_of, told_by};
ghost use Rattle.hop.specs.Planned.{Small, Fills, Plans};

use metric::Leaf;
use model::{Neighbour, Own};
use wire::{Containers, Object, Objects};

// Objects by containers: containers closed; their bytes with frames, behind which the open one's frame stands; the bytes in the open
// one, 256 where there is no room for the objects.
#[derive(Clone, Copy)]
pub struct Filled {
    pub closed: usize,
    pub frame: usize,
    pub fill: usize,
}

// What is known of the objects so far: the first of 31 to 34 and 36; their containers for the next hop.
#[derive(Clone, Copy)]
pub struct Planned {
    pub leaf: Result<(), Leaf>,
    pub filled: Filled,
}

// One object of n bytes more.
fn pack_object(f: Filled, n: usize) -> Filled
    requires small { Small f }
    requires n_bound { n ≤ 18446744073709551000 }
    ensures small_2 { Small result }
    ensures packed { (os : List model.Object) (o : model.Object) → n ≡ length (bytes_of o) → Fills f os → Fills result (os ++ (o ∷ [])) }
{
    if f.fill + n <= 255 {
        return Filled {
            closed: f.closed,
            frame: f.frame,
            fill: f.fill + n,
        };
    }
    if 255 < f.fill {
        return f;
    }
    if 255 < n {
        return Filled {
            closed: f.closed,
            frame: f.frame,
            fill: 256,
        };
    }
    if 7 <= f.closed {
        return Filled {
            closed: f.closed,
            frame: f.frame,
            fill: 256,
        };
    }
    Filled {
        closed: f.closed + 1,
        frame: f.frame + 2 + f.fill,
        fill: n,
    }
}

// One object more.
fn plan_object(p: Planned, own: Own, neighbour: Neighbour, object: Object) -> Planned
    requires { Small p.filled }
    ensures small { Small result.filled }
    ensures planned { (es : List model.Object) → Plans own neighbour p es → Plans own neighbour result (es ++ (seen object.entry ∷ [])) }
{
    let n = 4 + object.body.len() + metric::growth(neighbour, object.header, object.body);
    let filled = pack_object(p.filled, n);
    let leaf = match p.leaf {
        Ok(()) => metric::object_leaf(own, neighbour, object.header, object.body),
        Err(_) => p.leaf,
    };
    Planned { leaf, filled }
}

// The answer for all objects of a run.
fn conclude(p: Planned) -> Result<u16, Leaf>
    requires { Small p.filled }
    ensures { (own : Own) (c : Neighbour) (os : List model.Object) → Plans own c p os → told_by result ≡ sent_of (sends_objects own c (some os)) }
{
    match p.leaf {
        Err(leaf) => Err(leaf),
        Ok(()) if 255 < p.filled.fill => Err(Leaf::Length),
        Ok(()) => Ok((p.filled.frame + 2 + p.filled.fill) as u16),
    }
}

// The answer for a run, in one pass over its objects; no container is sent where an object or an option is cut short.
pub(crate) fn plan(own: Own, neighbour: Neighbour, run: &[u8]) -> Result<u16, Leaf>
    ensures { told_by result ≡ sent_of (sends_objects own neighbour (run_objects run.now)) }
{
    let mut planned = Planned {
        leaf: Ok(()),
        filled: Filled {
            closed: 0,
            frame: 0,
            fill: 0,
        },
    };
    let mut containers = Containers::new(run);
    while let Some(data) = containers.next() {
        let mut objects = Objects::new(data);
        while let Some(object) = objects.next() {
            planned = plan_object(planned, own, neighbour, object);
        }
        if !objects.is_done() {
            return Ok(0);
        }
    }
    if !containers.is_done() {
        return Ok(0);
    }
    conclude(planned)
}
