//! What is checked of a value, written as a value.
//!
//! The author of a type takes the value apart and lists the checks of each field in one expression,
//! for instance
//!
//! ```text
//! let Self { name, tags, address } = self;
//! (
//!     Field("name", name, (Is(Ascii), Is(length!(min = 3, max = 25)))),
//!     Field("tags", tags, Each(Is(Ascii))),
//!     Field("address", address, Dive(ctx)),
//! )
//!     .visit(trail, report, h)
//! ```
//!
//! and states `visits` by the combinators of `garde.specs.Fields` in the same shape. A field that is
//! forgotten does not compile. Such an implementation needs no proof file.

mod asks;
mod bounds;
mod check;
mod condition;
mod each;
mod field;
mod if_some;
mod lists;
mod over_lists;
mod question;
mod redaction;
mod required_if;
mod rules;
mod tuples;
mod unique;

pub use asks::{Asks, AsksAs};
pub use check::{Check, Dive, check_under};
pub use condition::When;
pub use each::{Each, check_part};
pub use field::{Field, Fields, Item, Transparent};
pub use garde_rules::values::{
    Adapt, Alphanumeric, Ascii, ByteLength, CharLength, Contains, CreditCard, GraphemeLength, Ip,
    Length, Matches, MultipleOf, Pattern, PhoneNumber, Prefix, Range, Required, Suffix, Url,
    Utf16Length, View, WithMessage,
};
pub use garde_rules::{Discreet, DiscreetInMemory, Rule};
pub use if_some::IfSome;
pub use lists::{all_of, any_of, distinct};
pub use over_lists::{AllOf, AnyOf, Distinct, Includes, Listed};
pub use question::{Asked, Question};
pub use redaction::DiscreetRules;
pub use required_if::RequiredIf;
pub use rules::{Is, IsInMemory, Rules, ask_under};
pub use unique::{Equal, Same, Unique, includes};
