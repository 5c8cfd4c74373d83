// The static library for firmware: what include/gardhnosk.h declares.
#![tactic(auto)]

ghost use Rattle.std.specs.Prelude.{◌≡◌, length};
ghost use Rattle.model.specs.Choice.{call};
ghost use Rattle.choice.specs.Given.{given};
ghost use Rattle.choice.specs.Demand3.{Returned};
ghost use Rattle.feed.specs.Step.{fed, fed_in};
ghost use Rattle.listing.specs.Listed.{listed, listed_in};
ghost use Rattle.meaning.specs.Meaning.{told, told_in};
ghost use Rattle.gardhnosk.specs.Texts.{size_of};

use feed::Fed;
use listing::ShortOutput;
use model::{Answer, Candidates, Own};

// Chooses a preferred parent, and writes the containers for the next hop.
#[unsafe(no_mangle)]
pub extern "C" fn gardhnosk_choose(
    own: Own,
    candidates: Candidates,
    count: usize,
    lent: &[u8],
    out: &mut [u8],
) -> Answer
    ensures value { result ≡ (call own (given candidates.at count) lent.now out.old).answer }
    ensures written { out.new ≡ (call own (given candidates.at count) lent.now out.old).output }
    ensures returned { Returned own candidates.at count lent.now out.old (record { answer = result; output = out.new }) }
{
    choice::call(own, &candidates.at, count, lent, out)
}

// Takes the next part of a run into a lent buffer; answers the state for the part behind it.
#[unsafe(no_mangle)]
pub extern "C" fn gardhnosk_feed(state: Fed, part: &[u8], kept: &mut [u8]) -> Fed
    ensures value { result ≡ fed state part.now (length kept.old) }
    ensures written { kept.new ≡ fed_in state part.now kept.old }
{
    feed::feed(state, part, kept)
}

// The length of a text as C receives it: 2^64 - 1 where the output is too short for any text.
fn size_of(text: Result<usize, ShortOutput>) -> usize
    ensures { result ≡ size_of text }
{
    text.unwrap_or(usize::MAX)
}

// Writes the text that lists a container; answers its length, or 2^64 - 1 where the output is too short for any text.
#[unsafe(no_mangle)]
pub extern "C" fn gardhnosk_list(container: &[u8], out: &mut [u8]) -> usize
    ensures value { result ≡ size_of (listed container.now (length out.old)) }
    ensures written { out.new ≡ listed_in container.now out.old }
{
    size_of(listing::list(container, out))
}

// Writes what a number means, in words; answers their length, 0 where it has no meaning or the output is too short.
#[unsafe(no_mangle)]
pub extern "C" fn gardhnosk_meaning(number: u8, out: &mut [u8]) -> usize
    ensures value { result ≡ told number (length out.old) }
    ensures written { out.new ≡ told_in number out.old }
{
    meaning::put_meaning(number, out)
}
