//! A value of a tree.
ghost use Rattle.std.specs.Prelude.{◌≡◌, ◌<◌, ◌^◌, length, option_map, option_and_then};
ghost use Rattle.std.specs.Prelude.{IfSome, unwrap_or, false};
ghost use Rattle.json.specs.Json.{string, array, object};
ghost use Rattle.json.specs.Find.{get, as_str, as_number, as_bool, is_null, as_array, as_object};
ghost use Rattle.garde_tape.specs.Reading.{json_of, item_list, member_list};
ghost use Rattle.garde_tape.specs.Number.{unsigned_of, signed_of, has_minus, is_whole_text};
ghost use Rattle.garde_tape.specs.Look.{find_answer, kind_of};
ghost use Rattle.garde_tape.specs.Texts.{text_items, field_members};

use crate::field::FieldValue;
use crate::find::{find_field, get_field, get_member};
use crate::found::Found;
use crate::items::TreeItems;
use crate::kind::Kind;
use crate::members::TreeMembers;
use crate::number;
use crate::scratch::Tape;
use crate::source::{ItemSource, MemberSource, Source};
use crate::tape_tree::TapeTree;
use std::marker::Model;

/// A JSON value that borrows what it is read from: a JSON text, or texts that stand by themselves. A
/// contract sees the JSON value itself.
#[derive(Debug, Drop)]
pub struct Tree<'t, 'a> {
    pub(crate) source: Source<'t, 'a>,
}

impl<'t, 'a> Model for Tree<'t, 'a> {
    ghost use Rattle.json.specs.Json.{Json};
    ghost use Rattle.garde_tape.specs.Code.{json_code};

    ghost Value = { Json };

    ghost coded = { json_code };

    ghost use Rattle.garde_tape.specs.Source.{source_json};

    ghost view = { λ a. source_json a.source };
}

impl<'t, 'a> Tree<'t, 'a> {
    /// The value of the whole text.
    pub fn root(tape: &'t Tape<'a>) -> Tree<'t, 'a>
        ensures { result ≡ json_of tape.now }
    {
        Tree {
            source: Source::Tape(TapeTree::root(tape)),
        }
    }

    /// A text by itself.
    pub fn text(text: &'a str) -> Tree<'t, 'a>
        ensures { result ≡ string text.now }
    {
        Tree {
            source: Source::Text(text),
        }
    }

    /// The list of these texts.
    pub fn texts(texts: &'t [&'a str]) -> Tree<'t, 'a>
        ensures { result ≡ array (text_items texts.now) }
    {
        Tree {
            source: Source::Texts(texts),
        }
    }

    /// The object with a member for each pair of a name and a value, in their order. A name may come
    /// twice.
    pub fn fields(fields: &'t [(&'a str, FieldValue<'t, 'a>)]) -> Tree<'t, 'a>
        ensures { result ≡ object (field_members fields.now) }
    {
        Tree {
            source: Source::Fields(fields),
        }
    }

    /// The text, where this is one, with its escapes read.
    pub fn as_str(&self) -> Option<&'a str>
        ensures { option_map (λ s. s.now) result ≡ as_str self.now }
    {
        match &self.source {
            Source::Tape(tree) => tree.as_str(),
            Source::Text(text) => Some(*text),
            _ => None,
        }
    }

    /// The number as it is written, where this is one.
    pub fn as_number(&self) -> Option<&'a str>
        ensures { option_map (λ s. s.now) result ≡ as_number self.now }
    {
        match &self.source {
            Source::Tape(tree) => tree.as_number(),
            _ => None,
        }
    }

    /// The whole number without a sign, where this is one that fits 64 bits. It is written by digits
    /// alone: `18.0` and `1e2` are none, as `serde_json` has it.
    pub fn as_u64(&self) -> Option<u64>
        ensures { result ≡ option_and_then (unsigned_of 64) (as_number self.now) }
    {
        match self.as_number() {
            Some(text) => number::unsigned(text.as_bytes()),
            None => None,
        }
    }

    /// The whole number, where this is one that fits 64 bits with its sign. It is written by digits
    /// alone, perhaps behind a minus: `18.0`, `1e2` and `-0` are none, as `serde_json` has it.
    pub fn as_i64(&self) -> Option<i64>
        ensures { result ≡ option_and_then (signed_of 64) (as_number self.now) }
    {
        match self.as_number() {
            Some(text) => number::signed(text.as_bytes()),
            None => None,
        }
    }

    /// Whether this is a whole number, of any size: written by digits alone, perhaps behind a minus,
    /// but not `-0`. So a number that a type does not hold differs from one that is not whole.
    pub fn is_whole(&self) -> bool
        ensures { result ≡ unwrap_or (option_map is_whole_text (as_number self.now)) false }
    {
        match self.as_number() {
            Some(text) => number::is_whole(text.as_bytes()),
            None => false,
        }
    }

    /// Whether this is a number behind a minus.
    pub fn is_negative(&self) -> bool
        ensures { result ≡ unwrap_or (option_map has_minus (as_number self.now)) false }
    {
        match self.as_number() {
            Some(text) => number::has_minus(text.as_bytes()),
            None => false,
        }
    }

    /// `true` or `false`, where this is one of them.
    pub fn as_bool(&self) -> Option<bool>
        ensures { result ≡ as_bool self.now }
    {
        match &self.source {
            Source::Tape(tree) => tree.as_bool(),
            _ => None,
        }
    }

    /// Whether this is `null`.
    pub fn is_null(&self) -> bool
        ensures { result ≡ is_null self.now }
    {
        match &self.source {
            Source::Tape(tree) => tree.is_null(),
            _ => false,
        }
    }

    /// What this is.
    pub fn kind(&self) -> Kind
        ensures { result ≡ kind_of self.now }
    {
        if self.as_str().is_some() {
            return Kind::Text;
        }
        if self.as_number().is_some() {
            return Kind::Number;
        }
        if self.as_bool().is_some() {
            return Kind::Boolean;
        }
        if self.is_null() {
            return Kind::Null;
        }
        if self.items().is_some() {
            return Kind::List;
        }
        Kind::Object
    }

    /// The items, where this is a list.
    pub fn items(&self) -> Option<TreeItems<'t, 'a>>
        ensures value { result ≡ option_map item_list (as_array self.now) }
        ensures bound { IfSome result (λ items. length items < 2 ^ 64) }
    {
        match &self.source {
            Source::Tape(tree) => match tree.items() {
                Some(items) => Some(TreeItems {
                    source: ItemSource::Tape(items),
                }),
                None => None,
            },
            Source::Texts(texts) => {
                // It fits a `usize`, so there are fewer than 2^64 texts.
                let _len = texts.len();
                Some(TreeItems {
                    source: ItemSource::Texts(*texts),
                })
            }
            _ => None,
        }
    }

    /// The members, where this is an object.
    pub fn members(&self) -> Option<TreeMembers<'t, 'a>>
        ensures value { result ≡ option_map member_list (as_object self.now) }
        ensures bound { IfSome result (λ members. length members < 2 ^ 64) }
    {
        match &self.source {
            Source::Tape(tree) => match tree.members() {
                Some(members) => Some(TreeMembers {
                    source: MemberSource::Tape(members),
                }),
                None => None,
            },
            Source::Fields(fields) => {
                // It fits a `usize`, so there are fewer than 2^64 fields.
                let _len = fields.len();
                Some(TreeMembers {
                    source: MemberSource::Fields(*fields),
                })
            }
            _ => None,
        }
    }

    /// The value of the last member of that name, where this is an object with one.
    pub fn get(&self, name: &str) -> Option<Tree<'t, 'a>>
        ensures { result ≡ get name.now self.now }
    {
        match &self.source {
            Source::Tape(tree) => match tree.members() {
                Some(members) => get_member(members, name),
                None => None,
            },
            Source::Fields(fields) => get_field(fields, name),
            _ => None,
        }
    }

    /// The member of that name, if just one has it. A name that no member has is missing, as is any
    /// name in a value that is no object. A name that comes twice is repeated.
    #[inline]
    pub fn find(&self, name: &str) -> Found<'t, 'a>
        ensures { result ≡ find_answer name.now self.now }
    {
        match &self.source {
            Source::Tape(tree) => tree.find(name),
            Source::Fields(fields) => find_field(fields, name),
            _ => Found::Missing,
        }
    }
}
