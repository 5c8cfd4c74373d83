// The verdict on one candidate: bars 11 and 12, the reading of its container, and bars 18 to 21.
#![tactic(auto)]

mod candidate;
mod constraints;
mod numbers;
mod rank;

pub use candidate::judge;
