//! `enum` and `const`: whether two values are the same.
ghost use Rattle.std.specs.Prelude.{◌≡◌, ◌||◌, length, option_map, IfSome};
ghost use Rattle.std.specs.List.{list_all, list_any};
ghost use Rattle.garde.specs.Visits.{Visited};
ghost use Rattle.garde_described.specs.Keywords.{among_asks, const_asks, flags_same, found_same, is_same, items_same, listed, lists_same, member_same, membered, numbers_same, objects_same, of, same, scalars_same, texts_same, values_same};
ghost use Rattle.garde_decimal.specs.Value.{decimal_of};

use crate::put::put_unless;
use garde::{I18n, Report, Trail};
use garde_schema::{Decimal, FormFault, FormI18n, Found, Tree, TreeItems, TreeMembers};
use std::alloc::AllocError;

fn flags_same(a: Option<bool>, b: Option<bool>) -> bool
    ensures { result ≡ flags_same a b }
{
    match (a, b) {
        (Some(true), Some(b)) => b,
        (Some(false), Some(b)) => !b,
        _ => false,
    }
}

fn texts_same(a: Option<&str>, b: Option<&str>) -> bool
    ensures { result ≡ texts_same (option_map (λ s. s.now) a.entry) (option_map (λ s. s.now) b.entry) }
{
    match (a, b) {
        (Some(a), Some(b)) => a == b,
        _ => false,
    }
}

// Whether two texts write the same number. Where one has an exponent whose digits do not fit 64 bits
// they have to be the same text.
fn values_same(a: &str, b: &str) -> bool
    ensures { result ≡ values_same a.now b.now (decimal_of a.now) (decimal_of b.now) }
{
    match (Decimal::read(a), Decimal::read(b)) {
        (Some(a), Some(b)) => a.compare(&b).is_eq(),
        _ => a == b,
    }
}

fn numbers_same(a: Option<&str>, b: Option<&str>) -> bool
    ensures { result ≡ numbers_same (option_map (λ s. s.now) a.entry) (option_map (λ s. s.now) b.entry) }
{
    match (a, b) {
        (Some(a), Some(b)) => values_same(a, b),
        _ => false,
    }
}

// Whether two values with no look inside are the same.
fn scalars_same(a: &Tree<'_, '_>, b: &Tree<'_, '_>) -> bool
    ensures { result ≡ scalars_same a.now b.now }
{
    (a.is_null() && b.is_null())
        || flags_same(a.as_bool(), b.as_bool())
        || texts_same(a.as_str(), b.as_str())
        || numbers_same(a.as_number(), b.as_number())
}

// How deep a value of a JSON text nests at most, with itself.
const DEEPEST: usize = 129;

// Whether two values are the same, nested no deeper than `left`.
#[cycle(same)]
fn is_same_within(left: usize, a: &Tree<'_, '_>, b: &Tree<'_, '_>) -> bool
    ensures { result ≡ same left a.now b.now }
{
    if left == 0 {
        return false;
    }
    one_level(left - 1, a, b)
}

// Whether two values are the same, where those in them nest no deeper than `left`.
#[cycle(same)]
fn one_level(left: usize, a: &Tree<'_, '_>, b: &Tree<'_, '_>) -> bool
    ensures { result ≡ (scalars_same a.now b.now || (lists_same (same left) (listed a.now) (listed b.now)
        || objects_same (same left) b.now (membered a.now) (membered b.now))) }
{
    scalars_same(a, b) || lists_same(left, a, b) || objects_same(left, a, b)
}

// Whether two lists are the same.
#[cycle(same)]
fn lists_same(left: usize, a: &Tree<'_, '_>, b: &Tree<'_, '_>) -> bool
    ensures { result ≡ lists_same (same left) (listed a.now) (listed b.now) }
{
    match (a.items(), b.items()) {
        (Some(a), Some(b)) => items_same(left, a, b),
        _ => false,
    }
}

// Whether the items of two lists are the same, each as the one at its place.
#[cycle(same)]
fn items_same(left: usize, a: TreeItems<'_, '_>, b: TreeItems<'_, '_>) -> bool
    ensures { result ≡ items_same (same left) a.entry b.entry }
{
    let (mut items, mut others) = (a, b);
    while let Some(item) = items.next() {
        let Some(other) = others.next() else {
            return false;
        };
        if !is_same_within(left, &item, &other) {
            return false;
        }
    }
    match others.next() {
        Some(_) => false,
        None => true,
    }
}

// How many members an object has.
fn member_count(tree: &Tree<'_, '_>) -> usize
    ensures { IfSome (membered tree.now) (λ ms. result ≡ length ms) }
{
    match tree.members() {
        Some(members) => members.count(),
        None => 0,
    }
}

// Whether two objects are the same.
#[cycle(same)]
fn objects_same(left: usize, a: &Tree<'_, '_>, b: &Tree<'_, '_>) -> bool
    ensures { result ≡ objects_same (same left) b.now (membered a.now) (membered b.now) }
{
    match (a.members(), b.members()) {
        (Some(members), Some(others)) => {
            member_count(a) == others.count() && members_same(left, members, b)
        }
        _ => false,
    }
}

// Whether an object has each of these members.
#[cycle(same)]
fn members_same(left: usize, members: TreeMembers<'_, '_>, other: &Tree<'_, '_>) -> bool
    ensures { result ≡ list_all (member_same (same left) other.now) members.entry }
{
    let mut rest = members;
    while let Some((name, value)) = rest.next() {
        if !found_same(left, &value, other.find(name)) {
            return false;
        }
    }
    true
}

// Whether what was found of a name is the same as a value.
#[cycle(same)]
fn found_same(left: usize, value: &Tree<'_, '_>, found: Found<'_, '_>) -> bool
    ensures { result ≡ found_same (same left) value.now found.entry }
{
    match found {
        Found::Once(other) => is_same_within(left, value, &other),
        Found::Missing | Found::Repeated => false,
    }
}

// Whether two values are the same.
fn is_same(a: &Tree<'_, '_>, b: &Tree<'_, '_>) -> bool
    ensures { result ≡ is_same a.now b.now }
{
    is_same_within(DEEPEST, a, b)
}

// Whether a value is one of these.
fn is_among(tree: &Tree<'_, '_>, values: TreeItems<'_, '_>) -> bool
    ensures { result ≡ list_any (λ v. is_same v tree.now) values.entry }
{
    let mut left = values;
    while let Some(value) = left.next() {
        if is_same(&value, tree) {
            return true;
        }
    }
    false
}

// Asks that a value is one of those of `enum`.
pub(crate) fn check_enum<'s, 't, 'a, H: I18n + FormI18n>(
    values: &Tree<'s, 'a>,
    tree: &Tree<'t, 'a>,
    trail: &mut Trail<'a>,
    report: &mut Report,
    h: &H,
) -> Result<(), AllocError>
    ensures { Visited (of (λ vs. among_asks (H.form_text h.now) vs tree.now) (listed values.now)) (H.text h.now)
        trail.old trail.new report.old report.new result }
{
    match values.items() {
        Some(values) => {
            let is_known = is_among(tree, values);
            put_unless(is_known, FormFault::NotOneOf, trail, report, h)
        }
        None => Ok(()),
    }
}

// Asks that a value is that of `const`.
pub(crate) fn check_const<'s, 't, 'a, H: I18n + FormI18n>(
    value: &Tree<'s, 'a>,
    tree: &Tree<'t, 'a>,
    trail: &mut Trail<'a>,
    report: &mut Report,
    h: &H,
) -> Result<(), AllocError>
    ensures { Visited (const_asks (H.form_text h.now) value.now tree.now) (H.text h.now)
        trail.old trail.new report.old report.new result }
{
    put_unless(is_same(value, tree), FormFault::NotOneOf, trail, report, h)
}
