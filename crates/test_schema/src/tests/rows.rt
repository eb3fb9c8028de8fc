//! Rows of a table.

mod long;
mod tables;
