//! A value of a JSON text.
ghost use Rattle.std.specs.Prelude.{◌≡◌, ◌<◌, ◌^◌, length, option_map, IfSome};
ghost use Rattle.json.specs.Find.{as_str, as_number, as_bool, is_null, as_array, as_object};
ghost use Rattle.garde_tape.specs.Look.{find_answer};
ghost use Rattle.garde_tape.specs.Node.{IsOf};
ghost use Rattle.garde_tape.specs.Reading.{json_of, item_list, member_list};

use crate::found::Found;
use crate::node::{Spot, node_at, spot_from};
use crate::scratch::Tape;
use crate::source::Source;
use crate::tape_items::TapeItems;
use crate::tape_members::TapeMembers;
use crate::tree::Tree;
use json::Node;
use std::marker::Model;

// The whole value of a JSON text, or one inside it.
#[derive(Debug, Drop)]
pub(crate) struct TapeTree<'t, 'a> {
    pub(crate) nodes: &'t [Node<'a>],
    pub(crate) at: usize,
}

impl<'t, 'a> Model for TapeTree<'t, 'a> {
    ghost use Rattle.json.specs.Json.{Json};
    ghost use Rattle.garde_tape.specs.Reading.{json_of};
    ghost use Rattle.garde_tape.specs.Walk.{tokens_at, IsTreeAt};
    ghost use Rattle.garde_tape.specs.Code.{json_code};

    ghost Value = { Json };

    ghost coded = { json_code };

    ghost view = { λ a. json_of (tokens_at a.nodes.now a.at) };

    ghost invariant = { λ a. IsTreeAt a.nodes.now a.at };
}

impl<'t, 'a> TapeTree<'t, 'a> {
    pub(crate) fn root(tape: &'t Tape<'a>) -> TapeTree<'t, 'a>
        ensures { result ≡ json_of tape.now }
    {
        // It fits a `usize`, so there are fewer than 2^64 tokens.
        let _len = tape.len();
        // They begin with a value.
        let _root = tape.root();
        TapeTree {
            nodes: tape.nodes(),
            at: 0,
        }
    }

    // The node that the value begins with.
    #[inline(always)]
    fn node(&self) -> Node<'a>
        ensures { IsOf self.now result }
    {
        node_at(self.nodes, self.at)
    }

    #[inline]
    pub(crate) fn as_str(&self) -> Option<&'a str>
        ensures { option_map (λ s. s.now) result ≡ as_str self.now }
    {
        if let Node::String(text) = self.node() {
            Some(text)
        } else {
            None
        }
    }

    #[inline]
    pub(crate) fn as_number(&self) -> Option<&'a str>
        ensures { option_map (λ s. s.now) result ≡ as_number self.now }
    {
        if let Node::Number(text) = self.node() {
            Some(text)
        } else {
            None
        }
    }

    #[inline]
    pub(crate) fn as_bool(&self) -> Option<bool>
        ensures { result ≡ as_bool self.now }
    {
        if let Node::Bool(held) = self.node() {
            Some(held)
        } else {
            None
        }
    }

    #[inline]
    pub(crate) fn is_null(&self) -> bool
        ensures { result ≡ is_null self.now }
    {
        if let Node::Null = self.node() {
            true
        } else {
            false
        }
    }

    pub(crate) fn items(&self) -> Option<TapeItems<'t, 'a>>
        ensures value { result ≡ option_map item_list (as_array self.now) }
        ensures bound { IfSome result (λ items. length items < 2 ^ 64) }
    {
        if let Node::Array(_) = node_at(self.nodes, self.at) {
            Some(TapeItems {
                nodes: self.nodes,
                at: self.at + 1,
            })
        } else {
            None
        }
    }

    pub(crate) fn members(&self) -> Option<TapeMembers<'t, 'a>>
        ensures value { result ≡ option_map member_list (as_object self.now) }
        ensures bound { IfSome result (λ members. length members < 2 ^ 64) }
    {
        if let Node::Object(_) = node_at(self.nodes, self.at) {
            Some(TapeMembers {
                nodes: self.nodes,
                at: self.at + 1,
            })
        } else {
            None
        }
    }

    #[inline]
    pub(crate) fn find(&self, name: &str) -> Found<'t, 'a>
        ensures { result ≡ find_answer name.now self.now }
    {
        let Node::Object(_) = node_at(self.nodes, self.at) else {
            return Found::Missing;
        };
        match spot_from(self.nodes, self.at + 1, name) {
            Spot::Nowhere => Found::Missing,
            Spot::Once(at) => Found::Once(Tree {
                source: Source::Tape(TapeTree {
                    nodes: self.nodes,
                    at,
                }),
            }),
            Spot::Repeated => Found::Repeated,
        }
    }
}
