// From bytes to objects: a run's containers and a container's objects, one after another, the table of the types, and the
// bars of a container or a run by itself: 13 to 17, 22 and 23.
#![tactic(auto)]

mod bars;
mod bodies;
mod container;
mod containers;
mod gathered;
mod mandatory;
mod metric_type;
mod numbers;
mod objects;
mod seen;
mod table;

pub use container::{Reading, read, read_run};
pub use containers::Containers;
pub use metric_type::MetricType;
pub use numbers::{number_2, number_4};
pub use objects::{Header, Object, Objects};
pub use table::Row;
