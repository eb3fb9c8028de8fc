//! Rows of a table in CSV, read by the forms of `garde_schema`.
#![tactic(auto)]

mod columns;
mod fields;
mod names;
mod put;
mod row;
mod row_form;

pub use columns::{Columns, read_columns};
pub use names::Names;
pub use row::read_row;
