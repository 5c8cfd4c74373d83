// Reading a case.
ghost use Rattle.std.specs.Prelude.{◌≤◌};

use crate::fields::Fields;
use model::{Candidate, Neighbour, Own, Rank};

// The length of the lent output at most.
pub const MOST_ROOM: usize = 2100;

// A case but for the lent run.
#[derive(Drop)]
pub struct Case {
    pub own: Own,
    // An array and a count, as a call has them: a count above 16 is refused by 2.
    pub candidates: [Candidate; 16],
    pub count: usize,
    pub room: usize,
    ghost room_fits: { room ≤ 2100 },
}

impl Case {
    // The case that the next fields tell.
    pub(crate) fn read(fields: &mut Fields<'_>) -> Option<Case> {
        let own = own(fields)?;
        let room = fields.number()?;
        if MOST_ROOM < room {
            return None;
        }
        let count = fields.number()?;
        let mut candidates = [blank(); 16];
        for place in candidates.iter_mut().take(count) {
            *place = candidate(fields)?;
        }
        Some(Case {
            own,
            candidates,
            count,
            room,
        })
    }

    // How many candidates stand on the line.
    pub(crate) fn shown(&self) -> usize
        ensures { result ≤ 16 }
    {
        self.count.min(16)
    }
}

fn own(fields: &mut Fields<'_>) -> Option<Own> {
    Some(Own {
        minhop: fields.number()?,
        maxincrease: fields.number()?,
        lowest: Rank(fields.number()?),
        nodetype: fields.number()?,
        flags: fields.number()?,
        energy: fields.number()?,
        edition: fields.number()?,
        current: fields.number()?,
    })
}

fn candidate(fields: &mut Fields<'_>) -> Option<Candidate> {
    Some(Candidate {
        neighbour: Neighbour {
            rank: Rank(fields.number()?),
            sp: fields.number()?,
            rf: fields.number()?,
            sr: fields.number()?,
            nodetype: fields.number()?,
            flags: fields.number()?,
            energy: fields.number()?,
            lql: fields.number()?,
            etx: fields.number()?,
            latency: fields.number()?,
            throughput: fields.number()?,
            colour: fields.number()?,
            order: fields.number()?,
            preference: fields.number()?,
        },
        start: fields.number()?,
        size: fields.number()?,
    })
}

// What stands behind the last candidate.
fn blank() -> Candidate {
    Candidate {
        neighbour: Neighbour {
            rank: Rank(0),
            sp: 0,
            rf: 0,
            sr: 0,
            nodetype: 0,
            flags: 0,
            energy: 0,
            lql: 0,
            etx: 0,
            latency: 0,
            throughput: 0,
            colour: 0,
            order: 0,
            preference: 0,
        },
        start: 0,
        size: 0,
    }
}
