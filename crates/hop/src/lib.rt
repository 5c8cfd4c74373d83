// One hop: leaf answers 31 to 36, and the parent's objects updated for the next hop.
#![tactic(auto)]

mod aggregated;
mod bodies;
mod bytes;
mod colours;
mod levels;
mod parent;
mod plan;
mod recorded;
mod sending;

pub use sending::send;
