//! The tests of `garde`, of the types of the example crates and of patterns, by their public calls, and
//! those that need several crates: memory that runs out, hostile values, user-defined handlers, and
//! values at scale and at the limits.
//! They stand in a crate of their own, since the tests within a crate prove all of it once more.
#![tactic(auto)]

#[cfg(test)]
mod tests;
