// The choice of a preferred parent.
ghost use Rattle.std.specs.Prelude.{◌≡◌, cond, Some};
ghost use Rattle.model.specs.Verdict.{Unbarred};
ghost use Rattle.model.specs.Choice.{current_of, not_current, criteria, precedes, choice_in, after_verdict};

use model::{Own, Parent};

// Whether a position is that of the current parent.
pub(crate) fn is_current(own: Own, position: u8) -> bool
    ensures { cond result 0 1 ≡ not_current (current_of own) position }
{
    (own.flags / 16 % 2 == 1) & (own.current == position as usize)
}

// Whether an unbarred candidate comes before another: by what comes before the rank, then by the lower rank, then as the current parent,
// then by the lower position.
fn comes_before(own: Own, one: Parent, other: Parent) -> bool
    ensures { result ≡ precedes (criteria (current_of own) one.position one.offer) (criteria (current_of own) other.position other.offer) }
{
    let a = (one.offer, !is_current(own, one.position), one.position);
    let b = (
        other.offer,
        !is_current(own, other.position),
        other.position,
    );
    a < b
}

// The best candidate so far, with one more that is unbarred.
pub fn better(own: Own, best: Option<Parent>, candidate: Parent) -> Parent
    ensures { choice_in (Some result) ≡ after_verdict (current_of own) (choice_in best) candidate.position (Unbarred candidate.offer) }
{
    match best {
        Some(parent) => {
            if comes_before(own, candidate, parent) {
                return candidate;
            }
            parent
        }
        None => candidate,
    }
}
