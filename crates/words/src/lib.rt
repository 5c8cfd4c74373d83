// Reading a line of text: where its words stand, and the numbers and bytes that they spell.
#![tactic(auto)]

mod digits;
mod hex;
mod places;

pub use digits::{NotDecimal, byte, number};
pub use hex::bytes;
pub use places::{find, word_end, word_start};
