// What is told of a candidate: that it is the parent, or why it is not.
ghost use Rattle.std.specs.Prelude.{◌≡◌};
ghost use Rattle.model.specs.Choice.{current_of, choice_in};
ghost use Rattle.model.specs.Verdict.{verdict_of};
ghost use Rattle.reason.specs.Why.{reason_of, refused, beside_choice, by_verdict};
ghost use Rattle.reason.specs.declared.reasons.Refused.TheVariants.{Call};
ghost use Rattle.reason.specs.Standing.{kind_of, refused_by, standing_of};

use choice::{Difference, Refusal};
use model::{Bar, Own, Parent, Verdict};

// The place of a candidate that no object bars.
const NO_PLACE: u16 = 65535;

// Why a question is refused: as a call is, or since its position is not below the count.
#[derive(Clone, Copy, PartialEq, Eq)]
pub enum Refused {
    Call(Refusal),
    Position,
}

impl Refused {
    // The number by which C knows it.
    pub fn number(self) -> u8
        ensures { result ≡ refused_by self }
    {
        match self {
            Refused::Call(refusal) => refusal.number(),
            Refused::Position => 6,
        }
    }
}

impl From<Refusal> for Refused {
    ghost from_gives = { λ refusal result. result ≡ Call refusal };

    fn from(refusal: Refusal) -> Refused {
        Self::Call(refusal)
    }
}

// Where a candidate stands: it is the parent; it is barred; or it is beaten by the parent, first on a criterion.
#[derive(Clone, Copy, PartialEq, Eq)]
pub enum Standing {
    Chosen,
    Barred(Bar),
    Beaten { parent: u8, difference: Difference },
}

// The kinds of a reason.
#[derive(Clone, Copy, PartialEq, Eq)]
pub enum Kind {
    Refused = 0,
    Chosen = 1,
    Barred = 2,
    Beaten = 3,
}

// Why a candidate is the parent, or is not, by number, as C receives it: by its kind the refusal of the question; nothing more; the bar's
// number and place; or the parent's position, the first criterion on which the two differ, and what the candidate and the parent have there.
// What a kind does not have is 0; no parent is 255, no place is 65535.
#[repr(C)]
#[derive(Clone, Copy)]
pub struct Reason {
    pub refusal: u8,
    pub kind: u8,
    pub number: u8,
    pub parent: u8,
    pub criterion: u8,
    pub place: u16,
    pub value: u16,
    pub against: u16,
}

// A reason of a kind that has nothing yet.
fn blank(kind: Kind) -> Reason
    ensures { result ≡ record { refusal = 0; kind = kind_of kind; number = 0; parent = 255; criterion = 0; place = 65535; value = 0; against = 0 } }
{
    Reason {
        refusal: 0,
        kind: kind as u8,
        number: 0,
        parent: 255,
        criterion: 0,
        place: NO_PLACE,
        value: 0,
        against: 0,
    }
}

impl From<Standing> for Reason {
    ghost from_gives = { λ standing result. result ≡ reason_of (standing_of standing) };

    fn from(standing: Standing) -> Reason {
        match standing {
            Standing::Chosen => blank(Kind::Chosen),
            Standing::Barred(bar) => {
                let mut reason = blank(Kind::Barred);
                reason.number = bar.number();
                reason.place = bar.place().unwrap_or(NO_PLACE);
                reason
            }
            Standing::Beaten { parent, difference } => Reason {
                parent,
                criterion: difference.criterion.number(),
                value: difference.value,
                against: difference.against,
                ..blank(Kind::Beaten)
            },
        }
    }
}

impl From<Refused> for Reason {
    ghost from_gives = { λ refusal result. result ≡ reason_of (refused (refused_by refusal)) };

    fn from(refused: Refused) -> Reason {
        Reason {
            refusal: refused.number(),
            ..blank(Kind::Refused)
        }
    }
}

// An unbarred candidate beside the choice, which names a parent then.
#[tactic(auto, unfolding(crate::specs::Why::beside_choice))]
fn beside(own: Own, choice: Option<Parent>, candidate: Parent) -> Standing
    ensures { standing_of result ≡ beside_choice (current_of own) (choice_in choice) candidate.position candidate.offer }
{
    match choice {
        None => Standing::Chosen,
        Some(parent) => {
            if parent.position == candidate.position {
                return Standing::Chosen;
            }
            match choice::first_difference(own, candidate, parent) {
                Some(difference) => Standing::Beaten {
                    parent: parent.position,
                    difference,
                },
                None => Standing::Chosen,
            }
        }
    }
}

// A candidate by its verdict and the choice.
#[tactic(auto, unfolding(crate::specs::Why::by_verdict))]
pub(crate) fn by_verdict(
    own: Own,
    choice: Option<Parent>,
    position: u8,
    verdict: Verdict,
) -> Standing
    ensures { standing_of result ≡ by_verdict (current_of own) (choice_in choice) position (verdict_of verdict) }
{
    match verdict {
        Verdict::Unbarred(offer) => beside(own, choice, Parent { position, offer }),
        Verdict::Barred(bar) => Standing::Barred(bar),
    }
}
