//! Rules as values, the rules of lengths, and what stands behind the rules of patterns, URLs and
//! addresses: the crate `regex` for patterns, the crate `url` for URLs, and a reader of addresses.
//!
//! They stand apart from the other rules since no crate may have a module of the name of a library
//! that it lists, and since the proof of the grammar of addresses is long.
#![tactic(auto)]

pub mod addresses;
mod bounds;
mod count;
pub mod laws;
pub mod length;
pub mod patterns;
mod rule;
pub mod urls;

pub use bounds::OutOfBounds;
pub use rule::Rule;
