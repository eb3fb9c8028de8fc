//! The rules of the validation library: what they ask of a value, and the fault where it does not
//! hold.
#![tactic(auto)]

mod adapter;
pub mod alphanumeric;
mod as_str;
pub mod ascii;
mod condition;
pub mod contains;
pub mod credit_card;
pub mod inner;
pub mod ip;
pub mod matches;
mod memory_rule;
pub mod multiple_of;
mod named;
pub mod pattern;
pub mod phone_number;
pub mod prefix;
pub mod range;
mod redaction;
pub mod required;
pub mod suffix;
pub mod url;
pub mod values;
mod view;
mod with_message;

pub use adapter::adapt;
pub use as_str::AsStr;
pub use condition::when;
pub use garde_engines::{Rule, laws, length};
pub use redaction::{Discreet, DiscreetInMemory};
