//! The walk along the members of an object.
ghost use Rattle.std.specs.Prelude.{◌≡◌, ◌+◌, ◌<◌, map, length, drop};
ghost use Rattle.json.specs.Json.{Json, Members as SpecMembers};
ghost use Rattle.json.specs.Tape.{node_token, Linked};
ghost use Rattle.json.specs.Tree.{json_tokens};
ghost use Rattle.garde_places.specs.Steps.{Spells, SpellMembers, member_spot};

use json::Node;

/// The node behind the value that begins at a node.
pub(crate) fn after(nodes: &[Node<'_>], at: usize) -> usize
    requires { (at < length nodes.now) × Linked (map node_token nodes.now) 0 nodes.now }
    ensures value { (j : Json) → Spells (drop at (map node_token nodes.now)) j
        → result ≡ at + length (json_tokens j) }
    ensures later { at < result }
{
    match nodes[at] {
        Node::Object(end) | Node::Array(end) => end,
        _ => at + 1,
    }
}

/// The value of the last member of that name, of the members that begin at a node.
pub(crate) fn member_at(nodes: &[Node<'_>], at: usize, name: &str) -> Option<usize>
    requires { Linked (map node_token nodes.now) 0 nodes.now }
    ensures { (ms : SpecMembers) → SpellMembers (drop at (map node_token nodes.now)) ms
        → result ≡ member_spot at name.now ms }
{
    let mut here = at;
    let mut found = None;
    loop {
        if here >= nodes.len().saturating_sub(1) {
            return found;
        }
        let Node::Key(key) = nodes[here] else {
            return found;
        };
        if key == name {
            found = Some(here + 1);
        }
        here = after(nodes, here + 1);
    }
}
