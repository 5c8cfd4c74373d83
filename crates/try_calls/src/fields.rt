// The numbers of a line.
use std::num::TryFromIntError;

// What is left of a line: numbers in decimal, each behind a space.
#[derive(Drop)]
pub struct Fields<'a> {
    pub rest: &'a [u8],
}

impl Fields<'_> {
    // The next number; none where a field of its type does not hold it.
    pub(crate) fn number<T: TryFrom<u64, Error = TryFromIntError>>(&mut self) -> Option<T> {
        let [b' ', text @ ..] = self.rest else {
            return None;
        };
        let (word, rest) = text.split_at(words::find(text, 0, b' '));
        self.rest = rest;
        T::try_from(words::number(word).ok()?).ok()
    }
}
