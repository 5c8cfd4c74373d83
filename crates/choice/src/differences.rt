// On which criterion two unbarred candidates differ first.
ghost use Rattle.std.specs.Prelude.{◌≡◌};
ghost use Rattle.model.specs.Choice.{current_of};
ghost use Rattle.choice.specs.Difference.{number_of, told, told_of, ahead_difference, difference_of};

use crate::preference;
use model::{Own, Parent};

// What unbarred candidates are compared by, in this order; edition 1 compares by the last three alone.
#[derive(Clone, Copy, PartialEq, Eq, PartialOrd, Ord)]
pub enum Criterion {
    Order = 1,
    Grounded = 2,
    Preference = 3,
    Rank = 4,
    Current = 5,
    Position = 6,
}

impl Criterion {
    // The number by which C knows it.
    pub fn number(self) -> u8
        ensures { result ≡ number_of self }
    {
        self as u8
    }
}

// A criterion, and what one candidate and another have there, as their fields say it: of yes and no, yes is 1.
#[derive(Clone, Copy, PartialEq, Eq)]
pub struct Difference {
    pub criterion: Criterion,
    pub value: u16,
    pub against: u16,
}

// Two small numbers on a criterion.
fn on(criterion: Criterion, value: u8, against: u8) -> Difference
    ensures { result ≡ record { criterion = criterion; value = value; against = against } }
{
    Difference {
        criterion,
        value: value as u16,
        against: against as u16,
    }
}

// Of two numbers that differ, by their digits: what edition 2 compares before the rank.
#[tactic(auto, unfolding(crate::specs::Difference::ahead_difference))]
fn ahead_difference(value: u8, against: u8) -> Difference
    ensures { told result ≡ ahead_difference value against }
{
    if value / 16 != against / 16 {
        return on(Criterion::Order, value / 16, against / 16);
    }
    if value / 8 % 2 != against / 8 % 2 {
        return on(Criterion::Grounded, 1 - value / 8 % 2, 1 - against / 8 % 2);
    }
    on(Criterion::Preference, 7 - value % 8, 7 - against % 8)
}

// The first criterion on which a candidate differs from another. It names no winner: `better` alone does.
#[tactic(auto, using(crate::proofs::DifferenceLaws::differs))]
pub fn first_difference(own: Own, one: Parent, other: Parent) -> Option<Difference>
    ensures { told_of result ≡ difference_of (current_of own) one.position one.offer other.position other.offer }
{
    if one.offer.ahead != other.offer.ahead {
        return Some(ahead_difference(one.offer.ahead, other.offer.ahead));
    }
    if one.offer.rank != other.offer.rank {
        return Some(Difference {
            criterion: Criterion::Rank,
            value: one.offer.rank.0,
            against: other.offer.rank.0,
        });
    }
    let current = preference::is_current(own, one.position);
    let other_current = preference::is_current(own, other.position);
    if current != other_current {
        return Some(on(Criterion::Current, current as u8, other_current as u8));
    }
    if one.position != other.position {
        return Some(on(Criterion::Position, one.position, other.position));
    }
    None
}
