// A run of options that comes in parts: its containers are kept in a lent buffer, as a run that reads as all that was fed.
#![tactic(auto)]

mod bytes;
mod phase;

pub use bytes::{Fed, KEPT_ROOM, feed};
