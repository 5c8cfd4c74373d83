// The number that a word spells in decimal, and the byte that two digits spell in hexadecimal.
ghost use Rattle.std.specs.Prelude.{◌≡◌, ◌<◌, ◌+◌, ◌*◌, ◌^◌, SomeIff};
ghost use Rattle.words.specs.Digits.{decimal_of, byte_of};

// Why a word spells no number: it has more than 64 bits, or a byte is no digit, or there is none.
#[derive(Clone, Copy, PartialEq, Eq, Debug)]
pub enum NotDecimal {
    TooLarge,
    NotANumber,
}

// A number with one digit more, where it has 64 bits at most.
fn with_digit(number: u64, digit: u8) -> Option<u64>
    ensures { SomeIff result (number * 10 + digit < 2 ^ 64) (number * 10 + digit) }
{
    let tens = number.checked_mul(10)?;
    tens.checked_add(u64::from(digit))
}

// The number of a word in decimal: digits only, one at least, whose number has 64 bits at most.
pub fn number(word: &[u8]) -> Result<u64, NotDecimal>
    ensures { result ≡ decimal_of word.now }
{
    if word.is_empty() {
        return Err(NotDecimal::NotANumber);
    }
    let mut sum = Some(0);
    for byte in word {
        if !byte.is_ascii_digit() {
            return Err(NotDecimal::NotANumber);
        }
        sum = sum.and_then(|number| with_digit(number, *byte - b'0'));
    }
    sum.ok_or(NotDecimal::TooLarge)
}

// The byte of two hexadecimal digits, small or capital.
#[tactic(auto, using(crate::proofs::DigitLaws::digit_by_value), unfolding(crate::specs::Digits::byte_of))]
pub fn byte(high: u8, low: u8) -> Option<u8>
    ensures { result ≡ byte_of high low }
{
    let high = char::from(high).to_digit(16)?;
    let low = char::from(low).to_digit(16)?;
    Some((high * 16 + low) as u8)
}
