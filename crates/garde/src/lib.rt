//! Validates values, and reports every fault at its path.
#![tactic(auto)]

mod containers;
pub mod fields;
mod first_error;
mod into_valid_error;
pub mod laws;
mod many;
mod no_text;
pub mod recursive;
mod stated;
mod unvalidated;
mod valid;
mod valid_under;
pub mod validate;
mod validate_error;

pub use first_error::FirstError;
pub use garde_i18n as i18n;
pub use garde_i18n::{CodeI18n, DefaultI18n, I18n, with_i18n};
pub use garde_report::{
    Component, Error, Path, Report, Result, RuleError, Trail, error, rc_list, select, trail,
};
pub use garde_rules as rules;
pub use stated::Stated;
pub use unvalidated::{IntoValidError, Unvalidated};
pub use valid::Valid;
pub use valid_under::ValidUnder;
pub use validate::Validate;
pub use validate_error::ValidateError;
