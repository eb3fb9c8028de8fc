//! The tests of `garde_rules`, `garde_engines` and `garde_i18n`, but for patterns, and of `garde_report`,
//! `garde_command`, `garde_html`, `garde_json`, `garde_places`, `garde_problem` and `garde_tape`, by their
//! public calls. They stand in a crate of their own, since the tests within a crate prove all of it once
//! more.
#![tactic(auto)]

#[cfg(test)]
mod tests;
