// What is left of a line: words, numbers and bytes.
ghost use Rattle.std.specs.Prelude.{◌≡◌, ◌≤◌, ◌+◌, length, IfOk, IfSome, OnErr};
ghost use Rattle.std.specs.Iterator.{at_most};
ghost use Rattle.choose.specs.Line.{NoMoreLeft};

use crate::fault::Fault;
use crate::setting::Setting;
use std::num::TryFromIntError;
use words::NotDecimal;

// A field's type, with its largest number.
pub trait Field: TryFrom<u64, Error = TryFromIntError> {
    const MOST: u64;
}

impl Field for u8 {
    const MOST: u64 = 255;
}

impl Field for u16 {
    const MOST: u64 = 65535;
}

impl Field for u32 {
    const MOST: u64 = 4294967295;
}

impl Field for usize {
    const MOST: u64 = 18446744073709551615;
}

#[derive(Clone, Copy)]
pub struct Rest<'a> {
    bytes: &'a [u8],
}

impl<'a> Rest<'a> {
    pub(crate) fn of(line: &'a [u8]) -> Rest<'a> {
        Rest { bytes: line }
    }

    // The next word; none at the line's end or at a comment.
    pub(crate) fn word(&mut self) -> Option<&'a [u8]>
        ensures left { NoMoreLeft self.old self.new }
        ensures taken { IfSome result (λ word. length word.now + length self.new.bytes.now ≤ length self.old.bytes.now) }
    {
        let text = &self.bytes[words::word_start(self.bytes, 0)..];
        let (word, behind) = text.split_at(words::word_end(text, 0));
        if word.is_empty() {
            return None;
        }
        self.bytes = behind;
        Some(word)
    }

    // The number behind a setting, which is at most so large. Any other word is left on the line, since it can begin a call.
    pub(crate) fn up_to(&mut self, setting: Setting, most: u64) -> Result<u64, Fault>
        ensures bound { IfOk result (λ n. n ≤ most) }
        ensures left { NoMoreLeft self.old self.new }
        ensures unread { OnErr result (self.new.bytes.now ≡ self.old.bytes.now) }
    {
        let mut behind = *self;
        let word = behind.word().ok_or(Fault::NoNumber(setting))?;
        match words::number(word) {
            Ok(n) if n <= most => {
                *self = behind;
                Ok(n)
            }
            Ok(_) | Err(NotDecimal::TooLarge) => Err(Fault::TooLarge(setting, most)),
            Err(NotDecimal::NotANumber) => Err(Fault::NoNumber(setting)),
        }
    }

    // The number behind a setting, for a field.
    pub(crate) fn number<T: Field>(&mut self, setting: Setting) -> Result<T, Fault>
        ensures { NoMoreLeft self.old self.new }
    {
        let n = self.up_to(setting, T::MOST)?;
        T::try_from(n).map_err(|_| Fault::TooLarge(setting, T::MOST))
    }

    // The bytes that are left, up to a comment.
    pub(crate) fn hex(self) -> HexBytes<'a> {
        HexBytes { text: self.bytes }
    }

    // Leaves nothing of the line.
    pub(crate) fn end(&mut self)
        ensures { NoMoreLeft self.old self.new }
    {
        self.bytes = &[];
    }
}

// What is not two hexadecimal digits.
#[derive(Clone, Copy)]
pub struct NotHex;

// The bytes of a text, each of two hexadecimal digits, up to a comment.
#[derive(Clone, Copy)]
pub struct HexBytes<'a> {
    text: &'a [u8],
}

impl Iterator for HexBytes<'_> {
    type Item = Result<u8, NotHex>;

    ghost remaining = { λ s. at_most (length s.text.now) };

    fn next(&mut self) -> Option<Result<u8, NotHex>> {
        match &self.text[words::word_start(self.text, 0)..] {
            [] | [b'#', ..] => None,
            [_] => {
                self.text = &[];
                Some(Err(NotHex))
            }
            [high, low, behind @ ..] => {
                self.text = behind;
                Some(words::byte(*high, *low).ok_or(NotHex))
            }
        }
    }
}
