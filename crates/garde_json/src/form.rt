//! The parts that the text of a report is made of.
ghost use Rattle.std.specs.Prelude.{◌≡◌, ◌≢◌, ℕ, List, MatchOption};
ghost use Rattle.json.specs.Json.{Json, string, array, item, no_items, object, member, no_members};

use garde_tape::Tree;

/// The text of a value that is one.
pub(crate) fn text_in<'a>(tree: &Tree<'_, 'a>) -> Option<&'a str>
    ensures { MatchOption result ((text : List ℕ) → tree.now ≢ string text)
        (λ text. tree.now ≡ string text.now) }
{
    tree.as_str()
}

/// The values of a list of exactly two.
#[tactic(auto, using(crate::proofs::Listed::pair_is))]
pub(crate) fn pair<'t, 'a>(tree: &Tree<'t, 'a>) -> Option<(Tree<'t, 'a>, Tree<'t, 'a>)>
    ensures { MatchOption result
        ((first second : Json) → tree.now ≢ array (item first (item second no_items)))
        (λ both. tree.now ≡ array (item both.0 (item both.1 no_items))) }
{
    let mut items = tree.items()?;
    let first = items.next()?;
    let second = items.next()?;
    if items.next().is_some() {
        return None;
    }
    Some((first, second))
}

/// The value of the only member of an object, where that has this name.
pub(crate) fn sole_member<'t, 'a>(tree: &Tree<'t, 'a>, name: &str) -> Option<Tree<'t, 'a>>
    ensures { MatchOption result
        ((value : Json) → tree.now ≢ object (member name.now value no_members))
        (λ value. tree.now ≡ object (member name.now value no_members)) }
{
    let mut members = tree.members()?;
    let (only, value) = members.next()?;
    if members.next().is_some() || only != name {
        return None;
    }
    Some(value)
}
