//! The import of a list of rows into a table that takes valid rows alone.
#![tactic(auto)]

pub mod item;
pub mod laws;
pub mod memory;
pub mod row;
pub mod run;
pub mod store;
mod taking;
