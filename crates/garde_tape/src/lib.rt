//! A JSON text, or texts that stand by themselves, as a tree that borrows from them. A contract sees
//! the JSON value, and the tokens of a JSON text only where it says when memory may run out.
//!
//! The tree of a JSON text stands on `json::Tape`: one list of tokens over the text, with its texts
//! borrowed.
#![tactic(auto)]

mod fault;
mod field;
mod find;
mod found;
mod input;
mod items;
mod kind;
mod literal;
mod members;
mod node;
mod number;
mod parse_error;
mod place;
mod read;
mod scratch;
mod source;
mod stop;
mod string;
mod surrogate;
mod syntax;
mod tape_items;
mod tape_members;
mod tape_tree;
mod tree;

pub use field::FieldValue;
pub use found::Found;
pub use input::{json_has_no_mark, without_mark};
pub use items::TreeItems;
pub use kind::Kind;
pub use members::TreeMembers;
pub use parse_error::ParseError;
pub use place::{Place, place_of_byte};
pub use read::{parse, parse_bytes};
pub use scratch::{Scratch, Tape};
pub use stop::{Stop, stop_of, stop_of_utf8};
pub use tree::Tree;
