//! JSON Schema as a form: the rules are a JSON value, which is read at run time.
#![tactic(auto)]

mod bounds;
mod check;
mod keyword;
mod leads;
mod lengths;
mod links;
mod meta;
mod numbers;
mod put;
mod reference;
mod required;
mod same;
mod schema;
#[cfg(test)]
mod tests;
mod types;

pub use meta::{META_SCHEMA, MetaSchema};
pub use schema::Schema;
