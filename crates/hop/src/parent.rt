// The node and the parent that it takes.
ghost use Rattle.std.specs.Prelude.{◌≤◌};

use model::{Neighbour, Own};

// The numbers that an update takes, those that it writes into bits of a byte within these bits.
#[derive(Clone, Copy)]
pub struct Hop {
    pub own: Own,
    pub neighbour: Neighbour,
    ghost type_fits: { own.nodetype ≤ 3 },
    ghost level_fits: { neighbour.lql ≤ 7 },
    ghost colour_fits: { neighbour.colour ≤ 1023 },
}
