//! Memory that runs out: what tests share that take it.
#![tactic(auto)]

mod hog;
mod scarce;

pub use hog::Hog;
pub use scarce::{Calls, Met, Scarce};
