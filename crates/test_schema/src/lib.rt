//! The tests of `garde_tape` and of `garde_schema`, of `garde_catalog`, `garde_csv`, `garde_form`,
//! `garde_parsed`, `garde_rows` and `garde_toml`, and of what example crates read, by their public calls. They
//! stand in a crate of their own, since the tests within a crate prove all of it once more.
#![tactic(auto)]

#[cfg(test)]
mod tests;
