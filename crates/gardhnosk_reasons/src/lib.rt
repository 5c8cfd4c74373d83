// The static library of reasons, beside the one that chooses: what include/gardhnosk.h declares of them.
#![tactic(auto)]

ghost use Rattle.std.specs.Prelude.{◌≡◌};
ghost use Rattle.choice.specs.Given.{given};
ghost use Rattle.reason.specs.Why.{reason_of, why};
ghost use Rattle.reason.specs.Finding.{finding_of};

use model::{Candidate, Candidates, Own};
use reason::{Finding, Reason};

// Tells why the candidate at a position is the parent, or is not.
#[unsafe(no_mangle)]
pub extern "C" fn gardhnosk_why(
    own: Own,
    candidates: Candidates,
    count: usize,
    lent: &[u8],
    position: usize,
) -> Reason
    ensures { result ≡ reason_of (why own (given candidates.at count) lent.now position) }
{
    reason::explain(own, &candidates.at, count, lent, position)
}

// Tells what was asked of a candidate that is barred, and what was found.
#[unsafe(no_mangle)]
pub extern "C" fn gardhnosk_examine(own: Own, candidate: Candidate, lent: &[u8]) -> Finding
    ensures { result ≡ finding_of own candidate lent.now }
{
    reason::examine(own, candidate, lent)
}
