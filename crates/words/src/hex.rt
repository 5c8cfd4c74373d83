// The bytes that a text spells, each by a space and two hexadecimal digits.
ghost use Rattle.std.specs.Prelude.{◌≡◌, ◌≤◌, ◌∷◌, [], length, MatchOption};
ghost use Rattle.words.specs.Hex.{bytes_from, spelled, spelled_in};

use crate::digits;

// The byte that a text spells first, and the text behind it.
#[tactic(auto, using(crate::proofs::HexLaws::first), unfolding(crate::specs::Hex::ahead))]
fn first_byte(text: &[u8]) -> Option<(u8, &[u8])>
    ensures { MatchOption result (bytes_from text.now ≡ []) (λ first. bytes_from text.now ≡ first.0 ∷ bytes_from first.1.now) }
{
    let [b' ', high, low, rest @ ..] = text else {
        return None;
    };
    let byte = digits::byte(*high, *low)?;
    Some((byte, rest))
}

// Puts the bytes that a text spells at the start of an output, up to what spells none or the output's end; answers how many.
pub fn bytes(text: &[u8], out: &mut [u8]) -> usize
    ensures value { result ≡ length (spelled text.now (length out.old)) }
    ensures written { out.new ≡ spelled_in text.now out.old }
    ensures bound { result ≤ length out.new }
{
    let mut rest = text;
    for (n, place) in out.iter_mut().enumerate() {
        let Some((byte, behind)) = first_byte(rest) else {
            return n;
        };
        *place = byte;
        rest = behind;
    }
    out.len()
}
