//! The table of a stock list in a SQLite database, as a table that takes valid rows alone.
#![tactic(auto)]

pub mod database;
pub mod opening;
pub mod reading;
mod schema;
mod statements;
