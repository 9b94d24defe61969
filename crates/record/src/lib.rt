// Kinds of record: what a waypoint and a parameter are, and how one is made.
#![tactic(auto)]

mod fault;
mod interface;
mod kind;
mod par;
mod range;
mod way;

pub use fault::Fault;
pub use interface::{MOST_FIELDS, Record};
pub use kind::Kind;
pub use par::Par;
pub use way::Way;
