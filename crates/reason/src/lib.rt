// Why a candidate is the parent, or is not; and what was asked of one that is barred.
#![tactic(auto)]

ghost use Rattle.std.specs.Prelude.{◌≡◌, cond, eqb};
ghost use Rattle.model.specs.Choice.{current_of, choice_in, after_verdict};
ghost use Rattle.model.specs.Verdict.{verdict_of};
ghost use Rattle.choice.specs.Given.{given};
ghost use Rattle.reason.specs.Why.{why_refusal, reason_of, why};
ghost use Rattle.reason.specs.Standing.{refused_as, why_of};

use model::{Bar, Candidate, Own, Parent, Verdict};

mod asked;
mod bars;
mod findings;
mod frames;
mod objects;
mod options;
mod ranges;
mod reasons;

pub use bars::{examine, shortfall};
pub use findings::{Finding, Shortfall, Way};
pub use reasons::{Kind, Reason, Refused, Standing};

// An output that is long enough: a question lends none, so that it is never refused for a short one.
const ROOM: usize = 2056;

// The refusal of a question: that of the call but for its output, then a position that is not below the count.
#[tactic(auto, using(crate::proofs::WhyLaws::questions))]
fn check_question(own: Own, count: usize, position: usize) -> Result<(), Refused>
    ensures { refused_as result ≡ why_refusal own count position }
{
    choice::check_call(own, count, ROOM)?;
    if count <= position {
        return Err(Refused::Position);
    }
    Ok(())
}

// The best candidate so far, with the verdict on one more.
fn after(own: Own, best: Option<Parent>, position: u8, verdict: Verdict) -> Option<Parent>
    ensures { choice_in result ≡ after_verdict (current_of own) (choice_in best) position (verdict_of verdict) }
{
    match verdict {
        Verdict::Unbarred(offer) => Some(choice::better(own, best, Parent { position, offer })),
        Verdict::Barred(_) => best,
    }
}

// The verdict that is asked about, if it is this one; else as it was.
fn kept(at: usize, position: usize, verdict: Verdict, before: Verdict) -> Verdict
    ensures { result ≡ cond (eqb at position) verdict before }
{
    if at == position {
        return verdict;
    }
    before
}

// Where the candidate at a position stands in the call with the same candidates and bytes.
pub fn ask(
    own: Own,
    candidates: &[Candidate; 16],
    count: usize,
    lent: &[u8],
    position: usize,
) -> Result<Standing, Refused>
    ensures { why_of result ≡ why own (given candidates.now count) lent.now position }
{
    check_question(own, count, position)?;
    let mut best = None;
    let mut asked = Verdict::Barred(Bar::Frame);
    for (i, candidate) in candidates[..count].iter().enumerate() {
        let verdict = verdict::judge(&own, candidate, lent);
        asked = kept(i, position, verdict, asked);
        best = after(own, best, i as u8, verdict);
    }
    Ok(reasons::by_verdict(own, best, position as u8, asked))
}

// The same by number, as C receives it: why the candidate at a position is the parent, or is not.
pub fn explain(
    own: Own,
    candidates: &[Candidate; 16],
    count: usize,
    lent: &[u8],
    position: usize,
) -> Reason
    ensures { result ≡ reason_of (why own (given candidates.now count) lent.now position) }
{
    match ask(own, candidates, count, lent, position) {
        Ok(standing) => standing.into(),
        Err(refused) => refused.into(),
    }
}
