//! The members of an object.
ghost use Rattle.std.specs.Prelude.{◌≡◌, [], ◌∷◌, MatchOption};

use crate::node::{after, name_at};
use crate::tape_tree::TapeTree;
use json::Node;
use std::marker::Model;

/// The members of an object that are left, in the order of the text. A name that comes twice is
/// there twice.
#[derive(Debug, Drop)]
pub(crate) struct TapeMembers<'t, 'a> {
    pub(crate) nodes: &'t [Node<'a>],
    pub(crate) at: usize,
}

impl<'t, 'a> Model for TapeMembers<'t, 'a> {
    ghost use Rattle.std.specs.Prelude.{ℕ, List};
    ghost use Rattle.json.specs.Json as spec;
    ghost use Rattle.garde_tape.specs.Reading.{members_of, member_list};
    ghost use Rattle.garde_tape.specs.Walk.{tokens_at, AreMembersAt};
    ghost use Rattle.garde_tape.specs.Code.{members_code};

    ghost Value = { List (List ℕ × spec.Json) };

    ghost coded = { members_code };

    ghost view = { λ a. member_list (members_of (tokens_at a.nodes.now a.at)) };

    ghost invariant = { λ a. AreMembersAt a.nodes.now a.at };
}

impl<'t, 'a> TapeMembers<'t, 'a> {
    #[inline(always)]
    pub(crate) fn take_member(&mut self) -> Option<(&'a str, TapeTree<'t, 'a>)>
        ensures { MatchOption result ((self.old ≡ []) × (self.new ≡ []))
            (λ member. self.old ≡ (member.0.now, member.1) ∷ self.new) }
    {
        let (nodes, at) = (self.nodes, self.at);
        let Some(key) = name_at(nodes, at) else {
            return None;
        };
        self.at = after(nodes, at + 1);
        Some((key, TapeTree { nodes, at: at + 1 }))
    }
}
