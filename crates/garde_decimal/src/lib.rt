//! Exact decimal numbers, as texts write them.
#![tactic(auto)]

mod cut;
mod decimal;
mod digits;
mod multiples;
mod sizes;
#[cfg(test)]
mod tests;

pub use decimal::{Decimal, compare, is_multiple};
