// The call: refusals, a verdict on each candidate, the preferred parent, and the containers for the next hop.
#![tactic(auto)]

ghost use Rattle.std.specs.Prelude.{◌≡◌};
ghost use Rattle.model.specs.Choice.{call};
ghost use Rattle.choice.specs.Given.{given};
ghost use Rattle.choice.specs.Demand3.{Returned};

use model::{Answer, Candidate, Own, Parent, Verdict};

mod answers;
mod differences;
mod preference;
mod refusals;

pub use differences::{Criterion, Difference, first_difference};
pub use preference::better;
pub use refusals::{Refusal, check_call};

// The whole call: refusals, a verdict on each candidate, the preferred parent, and the containers for the next hop in the output.
pub fn call(
    own: Own,
    candidates: &[Candidate; 16],
    count: usize,
    lent: &[u8],
    out: &mut [u8],
) -> Answer
    ensures value { result ≡ (call own (given candidates.now count) lent.now out.old).answer }
    ensures written { out.new ≡ (call own (given candidates.now count) lent.now out.old).output }
    ensures returned { Returned own candidates.now count lent.now out.old (record { answer = result; output = out.new }) }
{
    if let Err(refusal) = refusals::check_call(own, count, out.len()) {
        return answers::refused(refusal);
    }
    let mut answer = answers::blank();
    let mut best: Option<Parent> = None;
    for (i, candidate) in candidates[..count].iter().enumerate() {
        match verdict::judge(&own, candidate, lent) {
            Verdict::Barred(bar) => {
                answer.verdicts[i] = bar.number();
                answer.places[i] = bar.place().unwrap_or(answers::NO_PLACE);
            }
            Verdict::Unbarred(offer) => {
                answer.verdicts[i] = 10;
                answer.bits |= answers::bit_at(i);
                let unbarred = Parent {
                    position: i as u8,
                    offer,
                };
                best = Some(preference::better(own, best, unbarred));
            }
        }
    }
    answer.count = answers::count_of(answer.bits);
    if let Some(parent) = best {
        let chosen = candidates[parent.position as usize];
        let end = chosen.start + chosen.size;
        answer.parent = parent.position;
        answer.rank = parent.offer.rank;
        match hop::send(own, chosen.neighbour, &lent[chosen.start..end], out) {
            Ok(size) => answer.size = size,
            Err(leaf) => answer.leaf = leaf.number(),
        }
    }
    answer
}
