//! A tree, made into a value of its own.
ghost use Rattle.std.specs.Prelude.{◌≡◌, ◌<◌, IfOk};
ghost use Rattle.std.specs.List.{All};
ghost use Rattle.json.specs.Tree.{depth};
ghost use Rattle.json.specs.Value.{value_view};
ghost use Rattle.garde_schema.specs.Kept.{IsPart, member_views, views_of};

use garde_tape::{Tree, TreeItems, TreeMembers};
use json::Value;
use std::alloc::{AllocError, Global};

// What a tree is, and what is in it.
#[derive(Drop)]
pub(crate) enum Part<'t, 'a> {
    // `null`.
    Null,
    // `true` or `false`.
    Bool(bool),
    // The text of a number.
    Number(&'a str),
    // A text.
    Text(&'a str),
    // The items of a list.
    List(TreeItems<'t, 'a>),
    // The members of an object.
    Object(TreeMembers<'t, 'a>),
}

// What a tree is, and what is in it.
#[tactic(auto, using(crate::proofs::Copied::text_is, crate::proofs::Copied::number_is, crate::proofs::Copied::flag_is, crate::proofs::Copied::list_is, crate::proofs::Copied::object_is, crate::proofs::Copied::null_is))]
fn part_of<'t, 'a>(tree: &Tree<'t, 'a>) -> Part<'t, 'a>
    ensures { IsPart result tree.now }
{
    if let Some(text) = tree.as_str() {
        return Part::Text(text);
    }
    if let Some(text) = tree.as_number() {
        return Part::Number(text);
    }
    if let Some(held) = tree.as_bool() {
        return Part::Bool(held);
    }
    if let Some(items) = tree.items() {
        return Part::List(items);
    }
    match tree.members() {
        Some(members) => Part::Object(members),
        None => Part::Null,
    }
}

// The value of a tree.
#[cycle(copy)]
pub(super) fn copy_value<'t, 'a>(
    alloc: Global,
    tree: &Tree<'t, 'a>,
) -> Result<Value<'a>, AllocError>
    ensures { IfOk result (λ v. value_view v ≡ tree.now) }
{
    match part_of(tree) {
        Part::Null => Ok(Value::Null),
        Part::Bool(held) => Ok(Value::Bool(held)),
        Part::Number(text) => Ok(Value::Number(text)),
        Part::Text(text) => Ok(Value::String(text)),
        Part::List(items) => Ok(Value::Array(copy_items(alloc, tree, items)?)),
        Part::Object(members) => Ok(Value::Object(copy_members(alloc, tree, members)?)),
    }
}

// The values of the items of a list.
#[cycle(copy)]
fn copy_items<'t, 'a>(
    alloc: Global,
    list: &Tree<'t, 'a>,
    items: TreeItems<'t, 'a>,
) -> Result<Vec<Value<'a>>, AllocError>
    requires { All (λ x. depth x < depth list.now) items }
    ensures { IfOk result (λ vs. views_of vs.items ≡ items.entry) }
{
    let mut left = items;
    let mut values = Vec::new(alloc);
    while let Some(item) = left.next() {
        let value = copy_value(alloc, &item)?;
        values.push(value)?;
    }
    Ok(values)
}

// The members of an object, each with its value.
#[cycle(copy)]
fn copy_members<'t, 'a>(
    alloc: Global,
    object: &Tree<'t, 'a>,
    members: TreeMembers<'t, 'a>,
) -> Result<Vec<(&'a str, Value<'a>)>, AllocError>
    requires { All (λ m. depth m.1 < depth object.now) members }
    ensures { IfOk result (λ ms. member_views ms.items ≡ members.entry) }
{
    let mut left = members;
    let mut values = Vec::new(alloc);
    while let Some((name, member)) = left.next() {
        let value = copy_value(alloc, &member)?;
        values.push((name, value))?;
    }
    Ok(values)
}
