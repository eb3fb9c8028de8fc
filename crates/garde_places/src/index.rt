//! An index of the names of wide objects.
ghost use Rattle.std.specs.Prelude.{◌≡◌, ◌+◌, ◌<◌, List, map, length, drop, IfOk, OnOk};
ghost use Rattle.json.specs.Json.{Members as SpecMembers};
ghost use Rattle.json.specs.Token.{Token};
ghost use Rattle.json.specs.Tape.{node_token, Linked};
ghost use Rattle.garde_places.specs.Steps.{SpellMembers, member_spot};
ghost use Rattle.garde_places.specs.Index.{AreNames, IndexHolds, Knows};

use crate::walk::{after, member_at};
use json::Node;
use std::alloc::{AllocError, Global};
use std::collections::BTreeMap;

// An object of more tokens than these is wide.
const WIDE: usize = 256;

// So many look-ups in wide objects walk along them, since an index of a wide one costs more than that.
const FEW: usize = 4;

/// The names of the wide objects that were looked into, each with the value of its last member. They
/// stand by the node of the first name of their object.
#[derive(Debug, Drop)]
pub(crate) struct Index<'a> {
    alloc: Global,
    /// How many look-ups walked along a wide object, up to `FEW`.
    walks: usize,
    wide: BTreeMap<usize, BTreeMap<&'a str, usize>>,
}

/// The names of the members that begin at a node.
fn names_from<'a>(
    alloc: Global,
    nodes: &[Node<'a>],
    at: usize,
) -> Result<BTreeMap<&'a str, usize>, AllocError>
    requires { Linked (map node_token nodes.now) 0 nodes.now }
    ensures { IfOk result (λ names. AreNames (map node_token nodes.now) at names) }
{
    let mut names = BTreeMap::new(alloc);
    let mut here = at;
    loop {
        if here >= nodes.len().saturating_sub(1) {
            return Ok(names);
        }
        let Node::Key(key) = nodes[here] else {
            return Ok(names);
        };
        names.insert(key, here + 1)?;
        here = after(nodes, here + 1);
    }
}

// Whether an index of the object at a node pays. It changes no answer.
fn is_wide(nodes: &[Node<'_>], object: usize) -> bool
    requires { object < length nodes.now }
{
    match nodes[object] {
        Node::Object(end) => end.saturating_sub(object) > WIDE,
        _ => false,
    }
}

impl<'a> Index<'a> {
    pub(crate) fn new(alloc: Global) -> Index<'a>
        ensures { (ts : List Token) → IndexHolds ts result }
    {
        Index {
            alloc,
            walks: 0,
            wide: BTreeMap::new(alloc),
        }
    }

    /// Lists the names of the members that begin at a node, once.
    fn learn(&mut self, nodes: &[Node<'a>], at: usize) -> Result<(), AllocError>
        requires links { Linked (map node_token nodes.now) 0 nodes.now }
        requires holds { IndexHolds (map node_token nodes.now) self.old }
        ensures ok { OnOk result (Knows self.new at) }
        ensures holds { IndexHolds (map node_token nodes.now) self.new }
    {
        if self.wide.contains_key(&at) {
            return Ok(());
        }
        let names = names_from(self.alloc, nodes, at)?;
        self.wide.insert(at, names)?;
        Ok(())
    }

    /// The value that the index has for a name, among the members that begin at a node.
    fn look_up(&self, nodes: &[Node<'a>], at: usize, name: &str) -> Option<usize>
        requires known { Knows self.now at }
        requires holds { IndexHolds (map node_token nodes.now) self.now }
        ensures { (ms : SpecMembers) → SpellMembers (drop at (map node_token nodes.now)) ms
            → result ≡ member_spot at name.now ms }
    {
        match self.wide.get(&at) {
            Some(names) => names.get(name).copied(),
            None => unreachable!(),
        }
    }

    /// The value of the last member of that name, of the object at a node.
    pub(crate) fn member(&mut self, nodes: &[Node<'a>], object: usize, name: &str) -> Option<usize>
        requires within { object < length nodes.now }
        requires links { Linked (map node_token nodes.now) 0 nodes.now }
        requires holds { IndexHolds (map node_token nodes.now) self.old }
        ensures value { (ms : SpecMembers) → SpellMembers (drop (object + 1) (map node_token nodes.now)) ms
            → result ≡ member_spot (object + 1) name.now ms }
        ensures holds { IndexHolds (map node_token nodes.now) self.new }
    {
        if !is_wide(nodes, object) {
            return member_at(nodes, object + 1, name);
        }
        if self.walks < FEW {
            self.walks += 1;
            return member_at(nodes, object + 1, name);
        }
        match self.learn(nodes, object + 1) {
            Ok(()) => self.look_up(nodes, object + 1, name),
            Err(_) => member_at(nodes, object + 1, name),
        }
    }
}
