// Whole-call refusals.
ghost use Rattle.std.specs.Prelude.{◌≡◌};
ghost use Rattle.model.specs.Choice.{bad_own, current_past, bad_edition, refusal};
ghost use Rattle.choice.specs.Refusal.{number_of, refused_as};

use model::Own;

// Why a call is refused: MinHopRankIncrease is 0 or the own type unknown; more than 16 candidates; a current position past the count; an
// output of fewer than 2,056 bytes; an edition other than 1 and 2.
#[derive(Clone, Copy, PartialEq, Eq)]
pub enum Refusal {
    Own = 1,
    Count = 2,
    Current = 3,
    Output = 4,
    Edition = 5,
}

impl Refusal {
    // The number by which C knows it.
    pub fn number(self) -> u8
        ensures { result ≡ number_of self }
    {
        self as u8
    }
}

// Refusal 1.
#[tactic(auto, unfolding(model::specs::Choice::bad_own))]
fn is_bad(own: Own) -> bool
    ensures { result ≡ bad_own own }
{
    (own.minhop == 0) | (3 < own.nodetype)
}

// Refusal 3.
fn is_past(own: Own, count: usize) -> bool
    ensures { result ≡ current_past own count }
{
    (own.flags / 16 % 2 == 1) & (count <= own.current)
}

// Refusal 5.
fn is_bad_edition(own: Own) -> bool
    ensures { result ≡ bad_edition own }
{
    !((own.edition == 1) | (own.edition == 2))
}

// The first refusal that holds.
#[tactic(auto, unfolding(model::specs::Choice::refusal))]
pub fn check_call(own: Own, count: usize, room: usize) -> Result<(), Refusal>
    ensures { refused_as result ≡ refusal own count room }
{
    if is_bad(own) {
        return Err(Refusal::Own);
    }
    if 16 < count {
        return Err(Refusal::Count);
    }
    if is_past(own, count) {
        return Err(Refusal::Current);
    }
    if room < 2056 {
        return Err(Refusal::Output);
    }
    if is_bad_edition(own) {
        return Err(Refusal::Edition);
    }
    Ok(())
}
