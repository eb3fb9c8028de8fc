//! The nodes of a tree.
ghost use Rattle.std.specs.Prelude.{◌≡◌, ℕ, List, [], ◌∷◌, ◌++◌, ◌+◌, ◌≤◌, ◌<◌, IfOk, OnOk, IfSome, length, Some, None};
ghost use Rattle.json.specs.Find.{as_array, as_number, as_object};
ghost use Rattle.garde_tape.specs.Reading.{item_list, json_of, member_list};
ghost use Rattle.garde_library.specs.declared.node.Node.{Node as ANode};
ghost use Rattle.garde_library.specs.declared.node.TheConstants as kinds;
ghost use Rattle.garde_library.specs.Nodes.{Adds, LiesAt, HasText, Spells, marks, each_marks, pair_marks, a_text, a_number, whole_kind};

use crate::find::{find_number, find_text};
use crate::node::{FALSE, LIST, NEGATIVE, NULL, NUMBER, Node, OBJECT, TEXT, TRUE, WHOLE};
use garde_tape::{Tape, Tree, TreeItems, TreeMembers};
use std::alloc::{AllocError, Global};

/// The nodes of a value, and the room for its texts with an escape.
#[derive(Debug, Drop)]
pub struct Nodes {
    pub nodes: Vec<Node>,
    pub room: Vec<u8>,
}

// What a walk works on: the body, up to where its texts are found, and the nodes so far.
#[derive(Drop)]
pub(crate) struct Walk<'b> {
    pub(crate) body: &'b [u8],
    pub(crate) from: usize,
    pub(crate) nodes: Vec<Node>,
    pub(crate) room: Vec<u8>,
}

impl<'b> Walk<'b> {
    #[inline(always)]
    fn push(&mut self, node: Node) -> Result<(), AllocError>
        ensures ok { OnOk result (self.new.nodes.items ≡ self.old.nodes.items ++ node ∷ []) }
        ensures body { self.new.body ≡ self.old.body }
        ensures room { self.new.room.items ≡ self.old.room.items }
    {
        self.nodes.push(node)?;
        Ok(())
    }

    // A node without a text.
    #[inline(always)]
    pub(crate) fn push_plain(&mut self, kind: u8, value: u64) -> Result<(), AllocError>
        ensures ok { OnOk result ((node : ANode) × (node.kind ≡ kind) × (node.value ≡ value)
            × (self.new.nodes.items ≡ self.old.nodes.items ++ node ∷ [])) }
        ensures body { self.new.body ≡ self.old.body }
        ensures room { self.new.room.items ≡ self.old.room.items }
    {
        let node = Node {
            kind,
            in_texts: false,
            len: 0,
            value,
        };
        self.push(node)
    }

    // Keeps a text in the room: where it lies there.
    fn keep(&mut self, text: &[u8]) -> Result<usize, AllocError>
        ensures ok { IfOk result (λ at. (at ≡ length self.old.room.items)
            × (self.new.room.items ≡ self.old.room.items ++ text.now)) }
        ensures body { self.new.body ≡ self.old.body }
        ensures nodes { self.new.nodes.items ≡ self.old.nodes.items }
    {
        let at = self.room.len();
        self.room.extend_from_slice(text)?;
        Ok(at)
    }

    // A node with a text, where it is found in the body or in the room.
    #[inline(always)]
    pub(crate) fn push_found(
        &mut self,
        kind: u8,
        text: &str,
        found: Option<usize>,
    ) -> Result<(), AllocError>
        requires { IfSome found (λ at. LiesAt self.old.body.now at text.now) }
        ensures ok { OnOk result ((node : ANode) × (more : List ℕ) × (node.kind ≡ kind)
            × (self.new.nodes.items ≡ self.old.nodes.items ++ node ∷ [])
            × (self.new.room.items ≡ self.old.room.items ++ more)
            × HasText self.old.body.now self.new.room.items text.now node) }
        ensures body { self.new.body ≡ self.old.body }
    {
        let Ok(len) = u32::try_from(text.len()) else {
            return Err(AllocError);
        };
        match found {
            Some(at) => self.push(Node {
                kind,
                in_texts: false,
                len,
                value: at as u64,
            }),
            None => {
                let at = self.keep(text.as_bytes())?;
                self.push(Node {
                    kind,
                    in_texts: true,
                    len,
                    value: at as u64,
                })
            }
        }
    }

    #[inline(always)]
    fn push_text(&mut self, text: &str) -> Result<(), AllocError>
        ensures ok { OnOk result (Adds (a_text text.now ∷ []) self.old.body.now
            self.old.nodes.items self.old.room.items self.new.nodes.items self.new.room.items) }
        ensures body { self.new.body ≡ self.old.body }
    {
        let found = find_text(self.body, &mut self.from, text.as_bytes());
        self.push_found(TEXT, text, found)
    }

    #[inline(always)]
    fn push_number(&mut self, tree: &Tree<'_, '_>, text: &str) -> Result<(), AllocError>
        requires { as_number tree.now ≡ Some text.now }
        ensures ok { OnOk result (Adds (a_number text.now ∷ []) self.old.body.now
            self.old.nodes.items self.old.room.items self.new.nodes.items self.new.room.items) }
        ensures body { self.new.body ≡ self.old.body }
    {
        if let Some(number) = tree.as_i64() {
            return self.push_plain(whole_kind(number), number.unsigned_abs());
        }
        if let Some(number) = tree.as_u64() {
            return self.push_plain(WHOLE, number);
        }
        let found = find_number(self.body, &mut self.from, text.as_bytes());
        self.push_found(NUMBER, text, found)
    }

    #[cycle(tree)]
    fn push_items(&mut self, items: TreeItems<'_, '_>) -> Result<(), AllocError>
        ensures ok { OnOk result (Adds (each_marks items.entry) self.old.body.now
            self.old.nodes.items self.old.room.items self.new.nodes.items self.new.room.items) }
        ensures body { self.new.body ≡ self.old.body }
    {
        let mut items = items;
        while let Some(item) = items.next() {
            self.push_tree(&item)?;
        }
        Ok(())
    }

    #[cycle(tree)]
    fn push_members(&mut self, members: TreeMembers<'_, '_>) -> Result<(), AllocError>
        ensures ok { OnOk result (Adds (pair_marks members.entry) self.old.body.now
            self.old.nodes.items self.old.room.items self.new.nodes.items self.new.room.items) }
        ensures body { self.new.body ≡ self.old.body }
    {
        let mut members = members;
        while let Some((name, value)) = members.next() {
            self.push_text(name)?;
            self.push_tree(&value)?;
        }
        Ok(())
    }

    #[cycle(tree)]
    fn push_tree(&mut self, tree: &Tree<'_, '_>) -> Result<(), AllocError>
        ensures ok { OnOk result (Adds (marks tree.now) self.old.body.now
            self.old.nodes.items self.old.room.items self.new.nodes.items self.new.room.items) }
        ensures body { self.new.body ≡ self.old.body }
    {
        if let Some(text) = tree.as_str() {
            return self.push_text(text);
        }
        if let Some(text) = tree.as_number() {
            return self.push_number(tree, text);
        }
        if let Some(items) = tree.items() {
            let count = count_items(tree);
            self.push_plain(LIST, count)?;
            return self.push_items(items);
        }
        if let Some(members) = tree.members() {
            let count = count_members(tree);
            self.push_plain(OBJECT, count)?;
            return self.push_members(members);
        }
        match tree.as_bool() {
            Some(true) => self.push_plain(TRUE, 0),
            Some(false) => self.push_plain(FALSE, 0),
            None => self.push_plain(NULL, 0),
        }
    }
}

// The kind of a whole number.
#[inline(always)]
fn whole_kind(number: i64) -> u8
    ensures { result ≡ whole_kind number }
{
    if number < 0 { NEGATIVE } else { WHOLE }
}

// How many items a list has.
#[inline(always)]
fn count_items(tree: &Tree<'_, '_>) -> u64
    ensures { IfSome (as_array tree.now) (λ js. result ≡ length (item_list js)) }
{
    match tree.items() {
        Some(items) => items.count() as u64,
        None => 0,
    }
}

// How many members an object has.
#[inline(always)]
fn count_members(tree: &Tree<'_, '_>) -> u64
    ensures { IfSome (as_object tree.now) (λ ms. result ≡ length (member_list ms)) }
{
    match tree.members() {
        Some(members) => members.count() as u64,
        None => 0,
    }
}

/// The nodes of the value of a tape, whose text is this body.
pub fn nodes_of(alloc: Global, body: &[u8], tape: &Tape<'_>) -> Result<Nodes, AllocError>
    ensures { IfOk result (λ made. Spells body.now made.room.items made.nodes.items (json_of tape.now)) }
{
    let mut walk = Walk {
        body,
        from: 0,
        nodes: Vec::with_capacity(alloc, tape.len())?,
        room: Vec::new(alloc),
    };
    walk.push_tree(&Tree::root(tape))?;
    let Walk { nodes, room, .. } = walk;
    Ok(Nodes { nodes, room })
}
