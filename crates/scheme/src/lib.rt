// Schemes that tell when the readers have gone.
#![tactic(auto)]

mod bits;
mod interface;
mod pair;
mod phase;
mod phase_number;
mod reader;
mod reader_set;
mod refused;
mod script;
mod visits;

pub use bits::Bits;
pub use interface::{Poll, READERS, Scheme};
pub use pair::Pair;
pub use phase::Phase;
pub use refused::Refused;
pub use script::{Answer, Call, call_on, run};
