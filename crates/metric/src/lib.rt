// What this hop makes of one metric or constraint: leaf answers 31 to 34 and 36, header bytes, values, and the bytes of changed bodies.
#![tactic(auto)]

mod colours;
mod headers;
mod leaf;
mod leaves;
mod levels;
mod pairs;
mod sizes;
mod values;

pub use colours::{clear_third, place_of};
pub use headers::{next_flags, next_mode};
pub use leaf::Leaf;
pub use leaves::object_leaf;
pub use levels::counts_in;
pub use pairs::{clear_first, clear_second, combine_second};
pub use sizes::growth;
pub use values::{combine, link_value, local_or_0};
