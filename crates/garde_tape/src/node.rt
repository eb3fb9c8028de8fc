//! The nodes of a JSON text.
ghost use Rattle.std.specs.Prelude.{◌≡◌, ◌<◌, ◌+◌, ◌^◌, ℕ, List, get_or, map, drop, length, MatchOption};
ghost use Rattle.json.specs.Token.{Token};
ghost use Rattle.json.specs.Json.{Json, no_members, value};
ghost use Rattle.json.specs.Tape.{node_token, Linked};
ghost use Rattle.json.specs.Find.{HasValue};
ghost use Rattle.json.specs.declared.tape.Node.TheVariants.{Object};
ghost use Rattle.garde_tape.specs.Reading.{members_of, member_list, HasItems, HasMembers};
ghost use Rattle.garde_tape.specs.Spot.{IsSpot};
ghost use Rattle.garde_tape.specs.Walk.{tokens_at, AreMembersAt, IsMemberAt, TellsItem};

use json::Node;

// Where a name stands among members.
#[derive(Clone, Copy, Drop)]
pub(crate) enum Spot {
    // No member has it.
    Nowhere,
    // One member has it, whose value begins at this index.
    Once(usize),
    // Two members have it, or more.
    Repeated,
}

// The node that a value begins with.
#[inline(always)]
pub(crate) fn node_at<'a>(nodes: &[Node<'a>], at: usize) -> Node<'a>
    requires { HasValue (tokens_at nodes.now at) }
    ensures node { result ≡ get_or nodes.now at (Object 0) }
    ensures within { (at < length nodes.now) × (at + 1 < 2 ^ 64) }
{
    nodes[at]
}

// The index after the value that begins at `at`.
#[inline(always)]
pub(crate) fn after(nodes: &[Node<'_>], at: usize) -> usize
    requires linked { Linked (map node_token nodes.now) 0 nodes.now }
    requires begins { HasValue (tokens_at nodes.now at) }
    ensures value { (depth : ℕ) (j : Json) (rest : List Token)
        → value depth (tokens_at nodes.now at) ≡ Some (j, rest)
        → rest ≡ tokens_at nodes.now result }
    ensures later { at < result }
{
    match node_at(nodes, at) {
        Node::Object(end) => end,
        Node::Array(end) => end,
        _ => at + 1,
    }
}

// Whether an item begins at `at`, where items are left.
#[inline(always)]
pub(crate) fn has_item(nodes: &[Node<'_>], at: usize) -> bool
    requires { HasItems (tokens_at nodes.now at) }
    ensures { TellsItem nodes.now at result }
{
    if let Node::EndArray = nodes[at] {
        false
    } else {
        true
    }
}

// The name of the member that begins at `at`, where members are left.
#[inline(always)]
pub(crate) fn name_at<'a>(nodes: &[Node<'a>], at: usize) -> Option<&'a str>
    requires { HasMembers (tokens_at nodes.now at) }
    ensures { MatchOption result (members_of (tokens_at nodes.now at) ≡ no_members)
        (λ name. IsMemberAt nodes.now at name.now) }
{
    if let Node::Key(name) = nodes[at] {
        Some(name)
    } else {
        None
    }
}

// The name of the member that begins at `at`, where members are left. `rest` are the nodes from there
// on, so that a walk adds to an address and multiplies no index.
#[inline(always)]
fn first_name<'a>(nodes: &[Node<'a>], at: usize, rest: &[Node<'a>]) -> Option<&'a str>
    requires rest { rest.now ≡ drop at nodes.now }
    requires members { HasMembers (tokens_at nodes.now at) }
    ensures { MatchOption result (members_of (tokens_at nodes.now at) ≡ no_members)
        (λ name. IsMemberAt nodes.now at name.now) }
{
    if let Node::Key(name) = rest[0] {
        Some(name)
    } else {
        None
    }
}

// Goes past the value that begins at `at + 1`, where `rest` are the nodes from `at` on: the index after
// it. `rest` are the nodes from there on.
#[inline(always)]
fn pass<'n, 'a>(nodes: &[Node<'a>], at: usize, rest: &mut &'n [Node<'a>]) -> usize
    requires linked { Linked (map node_token nodes.now) 0 nodes.now }
    requires begins { HasValue (tokens_at nodes.now (at + 1)) }
    requires rest { rest.old.now ≡ drop at nodes.now }
    ensures value { (depth : ℕ) (j : Json) (others : List Token)
        → value depth (tokens_at nodes.now (at + 1)) ≡ Some (j, others)
        → others ≡ tokens_at nodes.now result }
    ensures later { at < result }
    ensures rest { rest.new.now ≡ drop result nodes.now }
{
    let all: &'n [Node<'a>] = *rest;
    match all[1] {
        Node::Object(end) => {
            *rest = &all[end - at..];
            end
        }
        Node::Array(end) => {
            *rest = &all[end - at..];
            end
        }
        _ => {
            *rest = &all[2..];
            at + 2
        }
    }
}

// The nodes from `from` on.
#[inline(always)]
fn nodes_from<'n, 'a>(nodes: &'n [Node<'a>], from: usize) -> &'n [Node<'a>]
    requires { from < length nodes.now }
    ensures { result.now ≡ drop from nodes.now }
{
    &nodes[from..]
}

// Where a name stands among the members at `from`, where `from_there` are the nodes from there on.
#[inline(always)]
fn spot_in<'n, 'a>(nodes: &[Node<'a>], from: usize, from_there: &'n [Node<'a>], name: &str) -> Spot
    requires members { AreMembersAt nodes.now from }
    requires rest { from_there.now ≡ drop from nodes.now }
    ensures { let members = member_list (members_of (tokens_at nodes.now from)) in
        IsSpot nodes.now members name.now result }
{
    let mut first = None;
    let mut at = from;
    let mut rest = from_there;
    while let Some(key) = first_name(nodes, at, rest) {
        if key == name {
            if first.is_some() {
                return Spot::Repeated;
            }
            first = Some(at + 1);
        }
        at = pass(nodes, at, &mut rest);
    }
    match first {
        Some(at) => Spot::Once(at),
        None => Spot::Nowhere,
    }
}

// The same, by a loop of its own in each caller.
#[inline(always)]
fn spot_of(nodes: &[Node<'_>], from: usize, name: &str) -> Spot
    requires { AreMembersAt nodes.now from }
    ensures { let members = member_list (members_of (tokens_at nodes.now from)) in
        IsSpot nodes.now members name.now result }
{
    let from_there = nodes_from(nodes, from);
    spot_in(nodes, from, from_there, name)
}

// Where a name stands among the members at `from`. A read asks for each member this way, so the loop
// asks nothing of a member but its name and where the next one is. Names of fewer than 8 bytes and of
// at most 16 have a loop each, in which LLVM compares them with few instructions and registers.
#[inline(never)]
pub(crate) fn spot_from(nodes: &[Node<'_>], from: usize, name: &str) -> Spot
    requires { AreMembersAt nodes.now from }
    ensures { let members = member_list (members_of (tokens_at nodes.now from)) in
        IsSpot nodes.now members name.now result }
{
    if name.len() < 8 {
        spot_of(nodes, from, name)
    } else if name.len() <= 16 {
        spot_of(nodes, from, name)
    } else {
        spot_of_long(nodes, from, name)
    }
}

// The same out of line, so that what the comparison of long names takes is not paid for short ones.
#[inline(never)]
fn spot_of_long(nodes: &[Node<'_>], from: usize, name: &str) -> Spot
    requires { AreMembersAt nodes.now from }
    ensures { let members = member_list (members_of (tokens_at nodes.now from)) in
        IsSpot nodes.now members name.now result }
{
    spot_of(nodes, from, name)
}
