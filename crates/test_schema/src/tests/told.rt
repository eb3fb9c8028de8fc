//! What a body reads as by a form: its value, as it prints for debugging, or its whole report.

use super::{
    OrEnd, checked, choices, decimals, enums, flattened, json_texts, kept, list_rules, lists, maps,
    nested, nulls, only_members, signup, tuples, unions, wide_numbers,
};
use garde::{CodeI18n, DefaultI18n, I18n};
use garde_schema::{Form, FormI18n, read};
use garde_tape::{Scratch, Tree, parse_bytes};
use std::alloc::{AllocError, Global};
use std::fmt::Debug;
use std::process::Abort;

/// A form, and how what it finds in a tree is printed.
pub trait Tells {
    /// The value of a tree, as text, or its report.
    fn tell(&self, alloc: Global, tree: &Tree<'_, '_>) -> Result<String, AllocError>;
}

/// The forms of these tests, by the module that has them. Their faults are printed in English.
pub enum Case {
    Checked(checked::Case),
    Flattened(flattened::Case),
    /// A list of unions by the only member, eight deep.
    Deep,
    Json,
    /// Any value.
    Kept,
    Lists(lists::Case),
    ListRules(list_rules::Case),
    Maps(maps::Case),
    Nested(nested::Case),
    /// A number with a fraction.
    Price,
    /// So many members.
    Tuples(usize),
    /// Of 128 bits, without a sign or with one.
    Wide(bool),
}

/// The forms whose faults are printed in English, and by `Codes` as codes.
pub enum Coded {
    Choices(choices::Case),
    Enums,
    Nulls(nulls::Case),
    OnlyMembers(only_members::Case),
    Signup,
    Unions,
}

/// A form whose faults are printed as codes.
#[derive(Drop)]
pub struct Codes<'c>(pub &'c Coded);

// A value, as it prints for debugging.
fn shown<T: Debug>(alloc: Global, value: &T) -> Result<String, AllocError> {
    format!(in alloc; "{value:?}")
}

/// The value of a tree of this form, as text, or its report with the texts of this handler.
pub fn told_with<'a, F: Form<'a>, H: I18n + FormI18n>(
    alloc: Global,
    tree: &Tree<'_, 'a>,
    form: &F,
    h: &H,
) -> Result<String, AllocError>
where
    F::Out: Debug,
{
    match read(alloc, form, tree, h) {
        Ok(out) => shown(alloc, &out),
        Err(error) => error.to_string(alloc),
    }
}

/// The same in English.
pub fn told<'a, F: Form<'a>>(
    alloc: Global,
    tree: &Tree<'_, 'a>,
    form: &F,
) -> Result<String, AllocError>
where
    F::Out: Debug,
{
    told_with(alloc, tree, form, &DefaultI18n)
}

impl Tells for Case {
    fn tell(&self, alloc: Global, tree: &Tree<'_, '_>) -> Result<String, AllocError> {
        match self {
            Case::Checked(case) => checked::told_by(alloc, tree, case),
            Case::Flattened(case) => flattened::told_by(alloc, tree, case),
            Case::Deep => only_members::deep(alloc, tree),
            Case::Json => json_texts::person(alloc, tree),
            Case::Kept => kept::any(alloc, tree),
            Case::Lists(case) => lists::told_by(alloc, tree, case),
            Case::ListRules(case) => list_rules::told_by(alloc, tree, case),
            Case::Maps(case) => maps::told_by(alloc, tree, case),
            Case::Nested(case) => nested::told_by(alloc, tree, case),
            Case::Price => decimals::price(alloc, tree),
            Case::Tuples(size) => tuples::told_by(alloc, tree, *size),
            Case::Wide(signed) => wide_numbers::number(alloc, tree, *signed),
        }
    }
}

fn coded_by<H: I18n + FormI18n>(
    alloc: Global,
    tree: &Tree<'_, '_>,
    case: &Coded,
    h: &H,
) -> Result<String, AllocError> {
    match case {
        Coded::Choices(case) => choices::told_by(alloc, tree, case, h),
        Coded::Enums => enums::order(alloc, tree, h),
        Coded::Nulls(case) => nulls::told_by(alloc, tree, case, h),
        Coded::OnlyMembers(case) => only_members::told_by(alloc, tree, case, h),
        Coded::Signup => signup::signup(alloc, tree, h),
        Coded::Unions => unions::payment(alloc, tree, h),
    }
}

impl Tells for Coded {
    fn tell(&self, alloc: Global, tree: &Tree<'_, '_>) -> Result<String, AllocError> {
        coded_by(alloc, tree, self, &DefaultI18n)
    }
}

impl Tells for Codes<'_> {
    fn tell(&self, alloc: Global, tree: &Tree<'_, '_>) -> Result<String, AllocError> {
        coded_by(alloc, tree, self.0, &CodeI18n)
    }
}

/// What a form finds in bytes, or where they stop being JSON.
pub fn told_of<T: Tells>(alloc: Global, form: &T, bytes: &[u8]) -> Result<String, AllocError> {
    let mut scratch = Scratch::new(alloc);
    match parse_bytes(alloc, bytes, &mut scratch) {
        Ok(tape) => form.tell(alloc, &Tree::root(&tape)),
        Err(error) => error.to_string(alloc),
    }
}

/// Asks that bytes read as this.
pub fn check<T: Tells>(rt: &impl Abort, alloc: Global, form: &T, bytes: &[u8], expected: &str) {
    let told = told_of(alloc, form, bytes).or_end(rt);
    assert_eq!(rt; told.as_str(), expected);
}
