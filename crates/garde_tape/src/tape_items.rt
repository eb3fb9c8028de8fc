//! The items of a list.
ghost use Rattle.std.specs.Prelude.{◌≡◌, [], ◌∷◌, MatchOption};

use crate::node::{after, has_item};
use crate::tape_tree::TapeTree;
use json::Node;
use std::marker::Model;

/// The items of a list that are left, in the order of the text.
#[derive(Debug, Drop)]
pub(crate) struct TapeItems<'t, 'a> {
    pub(crate) nodes: &'t [Node<'a>],
    pub(crate) at: usize,
}

impl<'t, 'a> Model for TapeItems<'t, 'a> {
    ghost use Rattle.std.specs.Prelude.{List};
    ghost use Rattle.json.specs.Json as spec;
    ghost use Rattle.garde_tape.specs.Reading.{items_of, item_list};
    ghost use Rattle.garde_tape.specs.Walk.{tokens_at, AreItemsAt};
    ghost use Rattle.garde_tape.specs.Code.{jsons_code};

    ghost Value = { List spec.Json };

    ghost coded = { jsons_code };

    ghost view = { λ a. item_list (items_of (tokens_at a.nodes.now a.at)) };

    ghost invariant = { λ a. AreItemsAt a.nodes.now a.at };
}

impl<'t, 'a> TapeItems<'t, 'a> {
    #[inline(always)]
    pub(crate) fn take_item(&mut self) -> Option<TapeTree<'t, 'a>>
        ensures { MatchOption result ((self.old ≡ []) × (self.new ≡ []))
            (λ item. self.old ≡ item ∷ self.new) }
    {
        let (nodes, at) = (self.nodes, self.at);
        if !has_item(nodes, at) {
            return None;
        }
        self.at = after(nodes, at);
        Some(TapeTree { nodes, at })
    }
}
