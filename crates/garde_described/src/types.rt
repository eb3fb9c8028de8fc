//! `type`.
ghost use Rattle.std.specs.Prelude.{◌≡◌, false, option_and_then, option_map, unwrap_or};
ghost use Rattle.std.specs.List.{list_any};
ghost use Rattle.json.specs.Find.{as_number, as_str};
ghost use Rattle.garde.specs.Visits.{Visited};
ghost use Rattle.garde_described.specs.Keywords.{beside_null, has_type, has_type_named, is_integer, listed, no_type, no_type_among, of, other_type, type_asks, type_named, type_of, typed, typed_among};

use crate::numbers::whole;
use crate::put::put;
use garde::fields::{AsksAs, Is, Rules};
use garde::{I18n, Report, Trail};
use garde_schema::{Decimal, FormFault, FormI18n, Tree, TreeItems, Wanted};
use std::alloc::AllocError;

/// A type of JSON values, as `type` names it (JSON Schema Validation, 6.1.1).
#[derive(Clone, Copy, Debug, Drop, PartialEq, Eq)]
pub enum JsonType {
    /// `null`.
    Null,
    /// `true` or `false`.
    Boolean,
    /// An object.
    Object,
    /// A list.
    Array,
    /// A number.
    Number,
    /// A text.
    String,
    /// A number without a fraction: `1.0` is one.
    Integer,
}

impl JsonType {
    // The type of a name.
    pub(crate) fn of(name: &str) -> Option<JsonType>
        ensures { result ≡ type_of name.now }
    {
        match name {
            "null" => Some(JsonType::Null),
            "boolean" => Some(JsonType::Boolean),
            "object" => Some(JsonType::Object),
            "array" => Some(JsonType::Array),
            "number" => Some(JsonType::Number),
            "string" => Some(JsonType::String),
            "integer" => Some(JsonType::Integer),
            _ => None,
        }
    }

    // Whether a value is of this type.
    fn has(self, tree: &Tree<'_, '_>) -> bool
        ensures { result ≡ has_type self tree.now }
    {
        match self {
            JsonType::Null => tree.is_null(),
            JsonType::Boolean => tree.as_bool().is_some(),
            JsonType::Object => tree.members().is_some(),
            JsonType::Array => tree.items().is_some(),
            JsonType::Number => tree.as_number().is_some(),
            JsonType::String => tree.as_str().is_some(),
            JsonType::Integer => is_integer_tree(tree),
        }
    }
}

// Whether the text of a number writes a whole one.
fn is_integer(text: &str) -> bool
    ensures { result ≡ is_integer text.now }
{
    if let Some(_) = whole(text) {
        return true;
    }
    match (Decimal::read(text), Decimal::read("1")) {
        (Some(number), Some(one)) => number.is_multiple_of(&one) == Some(true),
        _ => false,
    }
}

fn is_integer_tree(tree: &Tree<'_, '_>) -> bool
    ensures { result ≡ unwrap_or (option_map is_integer (as_number tree.now)) false }
{
    match tree.as_number() {
        Some(text) => is_integer(text),
        None => false,
    }
}

// Puts the fault of a value that is not of this type.
fn put_type<'t, 'a, H: I18n + FormI18n>(
    wanted: JsonType,
    tree: &Tree<'t, 'a>,
    trail: &mut Trail<'a>,
    report: &mut Report,
    h: &H,
) -> Result<(), AllocError>
    ensures { Visited (no_type (H.form_text h.now) wanted tree.now) (H.text h.now)
        trail.old trail.new report.old report.new result }
{
    let wanted = match wanted {
        JsonType::Null => Wanted::Null,
        JsonType::Boolean => Wanted::Boolean,
        JsonType::Object => Wanted::Object,
        JsonType::Array => Wanted::List,
        JsonType::String => Wanted::Text,
        JsonType::Integer => Wanted::Whole,
        JsonType::Number => {
            return Is(AsksAs("not_a_number", "not a number", false)).ask(&(), trail, report, h);
        }
    };
    put(FormFault::Wrong(wanted, tree.kind()), trail, report, h)
}

// The type that a text names.
fn type_named(name: &Tree<'_, '_>) -> Option<JsonType>
    ensures { result ≡ type_named name.now }
{
    JsonType::of(name.as_str()?)
}

// Whether a value is of the type that a text names.
fn has_type_named(tree: &Tree<'_, '_>, name: &Tree<'_, '_>) -> bool
    ensures { result ≡ has_type_named tree.now name.now }
{
    match type_named(name) {
        Some(one) => one.has(tree),
        None => false,
    }
}

// The one of two types that is not `null`, where the other is.
fn other_type(one: Option<JsonType>, other: Option<JsonType>) -> Option<JsonType>
    ensures { result ≡ other_type one other }
{
    if let Some(JsonType::Null) = one {
        other
    } else if let Some(JsonType::Null) = other {
        one
    } else {
        None
    }
}

// The type beside `null`, where a list has these two.
fn beside_null(value: &Tree<'_, '_>) -> Option<JsonType>
    ensures { result ≡ option_and_then beside_null (listed value.now) }
{
    let mut rest = value.items()?;
    let one = rest.next()?;
    let other = rest.next()?;
    match rest.next() {
        Some(_) => None,
        None => other_type(type_named(&one), type_named(&other)),
    }
}

// Whether a value is of one of these types.
fn is_among(tree: &Tree<'_, '_>, names: TreeItems<'_, '_>) -> bool
    ensures { result ≡ list_any (λ name. has_type_named tree.now name) names.entry }
{
    let mut left = names;
    while let Some(name) = left.next() {
        if has_type_named(tree, &name) {
            return true;
        }
    }
    false
}

// Asks that a value is of the type of this name.
fn check_name<'t, 'a, H: I18n + FormI18n>(
    name: &str,
    tree: &Tree<'t, 'a>,
    trail: &mut Trail<'a>,
    report: &mut Report,
    h: &H,
) -> Result<(), AllocError>
    ensures { Visited (of (typed (H.form_text h.now) tree.now) (type_of name.now)) (H.text h.now)
        trail.old trail.new report.old report.new result }
{
    match JsonType::of(name) {
        Some(one) => {
            if one.has(tree) {
                Ok(())
            } else {
                put_type(one, tree, trail, report, h)
            }
        }
        None => Ok(()),
    }
}

// Puts the fault of a value that is of none of the types that a list names.
fn put_types<'s, 't, 'a, H: I18n + FormI18n>(
    value: &Tree<'s, 'a>,
    tree: &Tree<'t, 'a>,
    trail: &mut Trail<'a>,
    report: &mut Report,
    h: &H,
) -> Result<(), AllocError>
    ensures { Visited (no_type_among (H.form_text h.now) (option_and_then beside_null (listed value.now))
        tree.now) (H.text h.now) trail.old trail.new report.old report.new result }
{
    match beside_null(value) {
        Some(wanted) => put_type(wanted, tree, trail, report, h),
        None => {
            let rule = AsksAs("type_mismatch", "not of a type that is allowed here", false);
            Is(rule).ask(&(), trail, report, h)
        }
    }
}

// Asks that a value is of one of the types that a list names.
fn check_names<'s, 't, 'a, H: I18n + FormI18n>(
    value: &Tree<'s, 'a>,
    tree: &Tree<'t, 'a>,
    trail: &mut Trail<'a>,
    report: &mut Report,
    h: &H,
) -> Result<(), AllocError>
    ensures { Visited (of (typed_among (H.form_text h.now) tree.now) (listed value.now)) (H.text h.now)
        trail.old trail.new report.old report.new result }
{
    match value.items() {
        Some(names) => {
            if is_among(tree, names) {
                Ok(())
            } else {
                put_types(value, tree, trail, report, h)
            }
        }
        None => Ok(()),
    }
}

// Asks that a value is of the type, or of one of the types, that `type` names.
pub(crate) fn check_type<'s, 't, 'a, H: I18n + FormI18n>(
    value: &Tree<'s, 'a>,
    tree: &Tree<'t, 'a>,
    trail: &mut Trail<'a>,
    report: &mut Report,
    h: &H,
) -> Result<(), AllocError>
    ensures { Visited (type_asks (H.form_text h.now) (as_str value.now) (listed value.now) tree.now)
        (H.text h.now) trail.old trail.new report.old report.new result }
{
    match value.as_str() {
        Some(name) => check_name(name, tree, trail, report, h),
        None => check_names(value, tree, trail, report, h),
    }
}
