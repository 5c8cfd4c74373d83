// Where a byte or a word stands. Space, tab and carriage return stand between words; `#` starts a comment.
ghost use Rattle.std.specs.Prelude.{◌≡◌, ◌+◌, ◌-◌, ◌≤◌, ℕ, Bool, length};
ghost use Rattle.words.specs.Places.{is_space, in_word, is_other, behind, IsTest};

// Whether a byte stands between words.
fn is_space(byte: u8) -> bool
    ensures { result ≡ is_space byte }
{
    matches!(byte, b' ' | b'\t' | b'\r')
}

// Whether a byte can stand in a word.
fn in_word(byte: u8) -> bool
    ensures { result ≡ in_word byte }
{
    !matches!(byte, b' ' | b'\t' | b'\r' | b'#')
}

// The index of the first byte from an index on that fails a test, or the text's length, at which callers cut the text as at any other; an
// index beyond it is its own answer.
#[tactic(auto, unfolding(crate::specs::Places::behind))]
fn behind<F: Fn(u8) -> bool>(text: &[u8], from: usize, passes: F) -> usize
    requires { F.IsAlwaysCallable passes }
    ensures value { (test : ℕ → Bool) → IsTest (F.post passes) test → result ≡ behind test text.now from }
    ensures bounds { (from ≤ result) × (result ≤ from + (length text.now - from)) }
{
    from + text
        .iter()
        .skip(from)
        .take_while(|byte| passes(**byte))
        .count()
}

// The index of a byte in a text from an index on, or the text's length; an index beyond it is its own answer.
pub fn find(text: &[u8], from: usize, byte: u8) -> usize
    ensures value { result ≡ behind (is_other byte) text.now from }
    ensures bounds { (from ≤ result) × (result ≤ from + (length text.now - from)) }
{
    behind(text, from, |other| other != byte)
}

// The index of the first byte from an index on that stands not between words, or the text's length.
pub fn word_start(text: &[u8], from: usize) -> usize
    ensures value { result ≡ behind is_space text.now from }
    ensures bounds { (from ≤ result) × (result ≤ from + (length text.now - from)) }
{
    behind(text, from, is_space)
}

// The index of the first byte from an index on that is in no word, or the text's length.
pub fn word_end(text: &[u8], from: usize) -> usize
    ensures value { result ≡ behind in_word text.now from }
    ensures bounds { (from ≤ result) × (result ≤ from + (length text.now - from)) }
{
    behind(text, from, in_word)
}
