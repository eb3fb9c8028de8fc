//! How deep the JSON value of a table nests.
ghost use Rattle.std.specs.Prelude.{◌<◌, ◌≤◌};
ghost use Rattle.std.specs.Bool.{MatchBool};
ghost use Rattle.toml.specs.View.{view, array_view, table_view};
ghost use Rattle.garde_toml.specs.Nesting.{float_nesting, nesting, items_nesting, members_nesting};

use toml::value::Array;
use toml::{Table, Value};

// The same of a float. One that is not finite is a bare value, which is a list.
fn float_nests_within(number: f64, most: usize) -> bool
    ensures { MatchBool result (float_nesting number ≤ most) (most < float_nesting number) }
{
    number.is_finite() || most > 0
}

// Whether arrays, tables and bare values nest at most this deep in a value. It looks no deeper.
#[cycle(nesting)]
fn nests_within(value: &Value, most: usize) -> bool
    ensures { MatchBool result (nesting (view value.now) ≤ most) (most < nesting (view value.now)) }
{
    match value {
        Value::Float(number) => float_nests_within(*number, most),
        Value::Datetime(_) => most > 0,
        Value::Array(items) => most > 0 && items_nest_within(items, most - 1),
        Value::Table(table) => most > 0 && members_nest_within(table, most - 1),
        _ => true,
    }
}

// The same of each item.
#[cycle(nesting)]
fn items_nest_within(items: &Array, most: usize) -> bool
    ensures { MatchBool result (items_nesting (array_view items.now) ≤ most)
        (most < items_nesting (array_view items.now)) }
{
    for item in items {
        if !nests_within(item, most) {
            return false;
        }
    }
    true
}

// The same of the value of each member.
#[cycle(nesting)]
pub fn members_nest_within(members: &Table, most: usize) -> bool
    ensures { MatchBool result (members_nesting (table_view members.now) ≤ most)
        (most < members_nesting (table_view members.now)) }
{
    for (_key, value) in members.iter() {
        if !nests_within(value, most) {
            return false;
        }
    }
    true
}
