//! Which token of a tape begins the value that a path leads to.
ghost use Rattle.std.specs.Prelude.{◌≡◌, ◌+◌, ◌<◌, ◌≤◌, List, map, length, drop, is_some, option_map, IfSome};
ghost use Rattle.json.specs.Json.{Json, Items as SpecItems};
ghost use Rattle.json.specs.Token.{Token};
ghost use Rattle.json.specs.Tape.{node_token, Linked};
ghost use Rattle.json.specs.Find.{as_object, as_array};
ghost use Rattle.garde_places.specs.Index.{IndexHolds};
ghost use Rattle.garde_places.specs.Marks.{MarkHolds, MarksHold, mark_of};
ghost use Rattle.garde_report.specs.Part.{item_part};
ghost use Rattle.garde_tape.specs.Number.{unsigned_of};
ghost use Rattle.garde_places.specs.Steps.{Spells, SpellItems, item_spot};
ghost use Rattle.garde_places.specs.Steps.{inside_spot, step_spot, tokens_before, before_name, IsTokenBy};

use crate::index::Index;
use crate::walk::after;
use fast_float::Numeral;
use garde_report::Kind;
use json::Node;

fn is_object(nodes: &[Node<'_>], at: usize) -> bool
    requires { at < length nodes.now }
    ensures { (j : Json) → Spells (drop at (map node_token nodes.now)) j
        → result ≡ is_some (as_object j) }
{
    matches!(nodes[at], Node::Object(_))
}

fn is_array(nodes: &[Node<'_>], at: usize) -> bool
    requires { at < length nodes.now }
    ensures { (j : Json) → Spells (drop at (map node_token nodes.now)) j
        → result ≡ is_some (as_array j) }
{
    matches!(nodes[at], Node::Array(_))
}

/// An item of an array that was found before: walks to later items begin at it.
#[derive(Clone, Copy, Debug, Drop)]
pub(crate) struct Mark {
    /// The node of the first item.
    pub(crate) first: usize,
    pub(crate) index: usize,
    /// The node of the item of the index.
    pub(crate) here: usize,
}

/// The item of that index, from an earlier one on.
fn item_from(nodes: &[Node<'_>], mark: Mark, index: usize) -> Option<Mark>
    requires links { Linked (map node_token nodes.now) 0 nodes.now }
    requires holds { MarkHolds (map node_token nodes.now) mark }
    requires earlier { mark.index ≤ index }
    ensures value { (js : SpecItems) → SpellItems (drop mark.first (map node_token nodes.now)) js
        → option_map (λ m. m.here) result ≡ item_spot mark.first index js }
    ensures holds { IfSome result (λ m. MarkHolds (map node_token nodes.now) m) }
{
    let first = mark.first;
    let mut here = mark.here;
    let mut passed = mark.index;
    loop {
        if here >= nodes.len() {
            return None;
        }
        if let Node::EndArray = nodes[here] {
            return None;
        }
        if passed == index {
            return Some(Mark { first, index, here });
        }
        passed += 1;
        here = after(nodes, here);
    }
}

/// The item of that index, of the items that begin at a node. The walk begins at the mark, if that is
/// one of these items and not a later one.
fn item_at(nodes: &[Node<'_>], first: usize, mark: Mark, index: usize) -> Option<Mark>
    requires links { Linked (map node_token nodes.now) 0 nodes.now }
    requires holds { MarkHolds (map node_token nodes.now) mark }
    ensures value { (js : SpecItems) → SpellItems (drop first (map node_token nodes.now)) js
        → option_map (λ m. m.here) result ≡ item_spot first index js }
    ensures holds { IfSome result (λ m. MarkHolds (map node_token nodes.now) m) }
{
    if mark.first == first && mark.index <= index {
        item_from(nodes, mark, index)
    } else {
        let start = Mark {
            first,
            index: 0,
            here: first,
        };
        item_from(nodes, start, index)
    }
}

/// The number that a text writes by decimal digits alone, where it fits.
fn number(text: &str) -> Option<usize>
    ensures { result ≡ unsigned_of 64 text.now }
{
    match Numeral::scan(text.as_bytes()).to_u64() {
        Some(number) => Some(number as usize),
        None => None,
    }
}

/// The value that a text leads to from the one at a node, if it leads to one, and the mark for later
/// steps.
fn inside_at<'a>(
    nodes: &[Node<'a>],
    index: &mut Index<'a>,
    at: usize,
    mark: Mark,
    text: &str,
) -> Option<(usize, Mark)>
    requires links { Linked (map node_token nodes.now) 0 nodes.now }
    requires holds { MarkHolds (map node_token nodes.now) mark }
    requires names { IndexHolds (map node_token nodes.now) index.old }
    requires within { at < length nodes.now }
    ensures value { (j : Json) → Spells (drop at (map node_token nodes.now)) j
        → option_map (λ r. r.0) result ≡ inside_spot at text.now j }
    ensures holds { IfSome result (λ r. MarkHolds (map node_token nodes.now) r.1) }
    ensures names { IndexHolds (map node_token nodes.now) index.new }
{
    if is_object(nodes, at) {
        return match index.member(nodes, at, text) {
            Some(next) => Some((next, mark)),
            None => None,
        };
    }
    if !is_array(nodes, at) {
        return None;
    }
    let Some(item) = number(text) else {
        return None;
    };
    match item_at(nodes, at + 1, mark, item) {
        Some(found) => Some((found.here, found)),
        None => None,
    }
}

/// The same of a component. One without a name stays at the value.
fn step_at<'a>(
    nodes: &[Node<'a>],
    index: &mut Index<'a>,
    at: usize,
    mark: Mark,
    component: &(Kind, &str),
) -> Option<(usize, Mark)>
    requires links { Linked (map node_token nodes.now) 0 nodes.now }
    requires holds { MarkHolds (map node_token nodes.now) mark }
    requires names { IndexHolds (map node_token nodes.now) index.old }
    ensures value { (j : Json) → Spells (drop at (map node_token nodes.now)) j
        → option_map (λ r. r.0) result ≡ step_spot at (item_part component.now) j }
    ensures holds { IfSome result (λ r. MarkHolds (map node_token nodes.now) r.1) }
    ensures names { IndexHolds (map node_token nodes.now) index.new }
{
    if at >= nodes.len() {
        return None;
    }
    let (kind, text) = *component;
    match kind {
        Kind::None => Some((at, mark)),
        Kind::Key | Kind::Index => inside_at(nodes, index, at, mark, text),
    }
}

const START: Mark = Mark {
    first: 0,
    index: 0,
    here: 0,
};

/// The marks before anything was found.
pub(crate) fn no_marks() -> [Mark; 128]
    ensures { (ts : List Token) → MarksHold ts result }
{
    [START; 128]
}

fn mark_at(marks: &[Mark], depth: usize) -> Mark
    ensures { result ≡ mark_of marks.now depth }
{
    if depth < marks.len() {
        marks[depth]
    } else {
        START
    }
}

/// The value that a path leads to, or the last one on its way where it leads to none. There is a mark
/// for each of the first steps of a path.
fn find<'a>(
    nodes: &[Node<'a>],
    index: &mut Index<'a>,
    marks: &mut [Mark],
    way: &[(Kind, &str)],
) -> usize
    requires links { Linked (map node_token nodes.now) 0 nodes.now }
    requires hold { MarksHold (map node_token nodes.now) marks.old }
    requires names { IndexHolds (map node_token nodes.now) index.old }
    ensures value { (j : Json) → Spells (map node_token nodes.now) j
        → result ≡ tokens_before (map item_part way.now) j }
    ensures hold { MarksHold (map node_token nodes.now) marks.new }
    ensures names { IndexHolds (map node_token nodes.now) index.new }
{
    let mut here = 0;
    for (depth, component) in way.iter().enumerate() {
        match step_at(nodes, index, here, mark_at(marks, depth), component) {
            Some((next, mark)) => {
                here = next;
                if depth < marks.len() {
                    marks[depth] = mark;
                }
            }
            None => return here,
        }
    }
    here
}

/// The name of the last member of that name, of the object at a node. It is the node itself where there
/// is no such member.
fn name_at<'a>(nodes: &[Node<'a>], index: &mut Index<'a>, at: usize, name: &str) -> usize
    requires links { Linked (map node_token nodes.now) 0 nodes.now }
    requires names { IndexHolds (map node_token nodes.now) index.old }
    ensures value { (j : Json) → Spells (drop at (map node_token nodes.now)) j
        → result ≡ at + before_name name.now j }
    ensures names { IndexHolds (map node_token nodes.now) index.new }
{
    if at >= nodes.len() {
        return at;
    }
    if is_object(nodes, at) {
        match index.member(nodes, at, name) {
            Some(value) => value.saturating_sub(1),
            None => at,
        }
    } else {
        at
    }
}

/// The token with which the value begins that a path leads to, or that of the name of its member. At the
/// root the value has no name, and begins with the first token.
pub(crate) fn find_token<'a>(
    nodes: &[Node<'a>],
    index: &mut Index<'a>,
    marks: &mut [Mark],
    way: &[(Kind, &str)],
    by_name: bool,
) -> usize
    requires links { Linked (map node_token nodes.now) 0 nodes.now }
    requires hold { MarksHold (map node_token nodes.now) marks.old }
    requires names { IndexHolds (map node_token nodes.now) index.old }
    ensures value { (j : Json) → Spells (map node_token nodes.now) j
        → IsTokenBy by_name (map item_part way.now) j result }
    ensures hold { MarksHold (map node_token nodes.now) marks.new }
    ensures names { IndexHolds (map node_token nodes.now) index.new }
{
    if !by_name {
        return find(nodes, index, marks, way);
    }
    let Some((last, before)) = way.split_last() else {
        return 0;
    };
    let found = find(nodes, index, marks, before);
    name_at(nodes, index, found, last.1)
}
