//! Web forms.

mod fields;
mod lists;
mod numbers;
mod reports;
mod texts;
