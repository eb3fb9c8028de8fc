//! Tests by what they are of.
mod label;
mod leaks;
mod long;
mod made;
mod walked;
