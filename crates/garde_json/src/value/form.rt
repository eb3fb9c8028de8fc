//! The parts that written forms are made of.
ghost use Rattle.std.specs.Prelude.{◌≡◌, ◌≢◌, MatchOption};
ghost use Rattle.serde_json.specs.Data.{Data, array, item, no_items, object, member, no_members};
ghost use Rattle.serde_json.specs.View.{view};

use serde_json::Value;

/// The values of an array of exactly two.
pub(super) fn pair(tree: &Value) -> Option<(&Value, &Value)>
    ensures { MatchOption result
        ((first second : Data) → view tree.now ≢ array (item first (item second no_items)))
        (λ both. view tree.now
        ≡ array (item (view both.0.now) (item (view both.1.now) no_items))) }
{
    let items = tree.as_array()?.as_slice();
    if items.len() != 2 {
        return None;
    }
    Some((&items[0], &items[1]))
}

/// The value of the only member of an object, where that has this name.
pub(super) fn sole_member<'v>(tree: &'v Value, name: &str) -> Option<&'v Value>
    ensures { MatchOption result
        ((value : Data) → view tree.now ≢ object (member name.now value no_members))
        (λ value. view tree.now ≡ object (member name.now (view value.now) no_members)) }
{
    let mut members = tree.as_object()?.iter();
    let (only, value) = members.next()?;
    if members.next().is_some() || only.as_str() != name {
        return None;
    }
    Some(value)
}
