//! Reports and paths as trees of `serde_json`, and back.

pub(crate) mod form;
pub(crate) mod path;
pub(crate) mod report;
