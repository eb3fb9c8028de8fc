//! Unions by the only member: the whole report of each body in English and as codes, or its value.

use super::told::{told, told_with};
use garde::fields::Is;
use garde::{I18n, range};
use garde_schema::{
    Closed, Flag, FormI18n, List, Member, Object, OneMember, OneOf, Optional, Text, TextOr, U8,
    U64, Whole,
};
use garde_tape::Tree;
use std::alloc::{AllocError, Global};
use std::marker::PhantomData;

/// The forms of this module.
pub enum Case {
    Payment,
    Mixed,
}

/// The value of a tree of this form, as text, or its report.
pub fn told_by<H: I18n + FormI18n>(
    alloc: Global,
    tree: &Tree<'_, '_>,
    case: &Case,
    h: &H,
) -> Result<String, AllocError> {
    match case {
        // A payment: by card, with a number and a year, in cash, of which there is the sum alone, or by an
        // invoice, of which it is known whether it was paid.
        Case::Payment => {
            let year = Whole(U8, Is(range!(min = 24, max = 30)));
            let card = Object(Closed((Member("number", Text(())), Optional("year", year))));
            let cash = Member("cash", Whole(U64, ()));
            let either = (Member("card", card), (cash, Member("", Flag)));
            told_with(alloc, tree, &OneMember(either, PhantomData), h)
        }
        // A payment as serde has it by default: in cash or by a transfer, of which nothing more is known,
        // or by a card.
        Case::Mixed => {
            let plain = OneOf(&[("cash", 0_u8), ("transfer", 1)]);
            let card = Object(Closed(Member("number", Text(()))));
            let form = TextOr(plain, OneMember(Member("card", card), PhantomData));
            told_with(alloc, tree, &form, h)
        }
    }
}

/// This form, in an object with one member of each of these names, the first outermost.
macro_rules! in_each {
    ($form:expr;) => { $form };
    ($form:expr; $name:literal $($others:literal)*) => {
        OneMember(Member($name, in_each!($form; $($others)*)), PhantomData)
    };
}

/// A list of lists of numbers, each in eight objects of one member.
pub fn deep(alloc: Global, tree: &Tree<'_, '_>) -> Result<String, AllocError> {
    let numbers = List(Whole(U8, ()));
    told(
        alloc,
        tree,
        &List(in_each!(numbers; "a" "b" "c" "d" "a" "b" "c" "d")),
    )
}

/// Bodies eight deep, and what each reads as.
pub const DEEP: &[(&str, &str)] = &[
    (
        "[{\"a\":{\"b\":{\"c\":{\"d\":{\"a\":{\"b\":{\"c\":{\"d\":[1,2]}}}}}}}}]",
        "Items([Items([1, 2])])",
    ),
    (
        "[{\"a\":{\"b\":{\"c\":{\"d\":{\"a\":{\"b\":{\"c\":{\"d\":[1,true,256]}}}}}}}},{\"a\":{\"b\":{\"c\":{\"d\":{\"a\":{\"b\":{\"c\":{}}}}}}}},{\"a\":{\"e\":1}}]",
        "[0].a.b.c.d.a.b.c.d[1]: not a whole number\n[0].a.b.c.d.a.b.c.d[2]: out of range: 0 to 255\n[1].a.b.c.d.a.b.c: not an object with one member\n[2].a.e: not known here\n",
    ),
];

const NONE: &str = "not an object with one member\n";

const NONE_IN_CODES: &str = "wrong_form wanted=OneMember found=Object\n";

/// Bodies, and what each reads as, in English and as codes.
pub const PAYMENTS: &[(&str, &str, &str)] = &[
    (
        "{\"card\":{\"year\":30,\"number\":\"49\"}}",
        "Left((TextRef(\"49\"), Some(30)))",
        "Left((TextRef(\"49\"), Some(30)))",
    ),
    (
        "{\"card\":{\"number\":\"\"}}",
        "Left((TextRef(\"\"), None))",
        "Left((TextRef(\"\"), None))",
    ),
    (
        "{\"c\\u0061sh\":18446744073709551615}",
        "Right(Left(18446744073709551615))",
        "Right(Left(18446744073709551615))",
    ),
    ("{\"\":false}", "Right(Right(false))", "Right(Right(false))"),
    (
        "{\"card\":{\"year\":31,\"sum\":null}}",
        "card.number: missing\ncard.year: greater than 30\ncard.sum: not known here\n",
        "card.number: member_missing\ncard.year: range_greater_than max=30\ncard.sum: member_unknown\n",
    ),
    (
        "{\"card\":\"49\"}",
        "card: not an object\n",
        "card: wrong_form wanted=Object found=Text\n",
    ),
    (
        "{\"cash\":-1}",
        "cash: out of range: 0 to 18446744073709551615\n",
        "cash: out_of_range of=u64\n",
    ),
    (
        "{\"\":1}",
        ": not true or false\n",
        ": wrong_form wanted=Boolean found=Number\n",
    ),
    ("{}", NONE, NONE_IN_CODES),
    ("{\"cash\":1,\"card\":{}}", NONE, NONE_IN_CODES),
    ("{\"cash\":1,\"cash\":1}", NONE, NONE_IN_CODES),
    ("{\"cash\":1,\"other\":-1,\"\":true}", NONE, NONE_IN_CODES),
    (
        "{\"Cash\":-1}",
        "Cash: not known here\n",
        "Cash: member_unknown\n",
    ),
    (
        "[{\"cash\":1}]",
        "not an object\n",
        "wrong_form wanted=Object found=List\n",
    ),
    (
        "\"cash\"",
        "not an object\n",
        "wrong_form wanted=Object found=Text\n",
    ),
    (
        "null",
        "not an object\n",
        "wrong_form wanted=Object found=Null\n",
    ),
];

/// Bodies, and what each reads as, in English and as codes.
pub const MIXED: &[(&str, &str, &str)] = &[
    ("\"cash\"", "Left(0)", "Left(0)"),
    ("\"transfer\"", "Left(1)", "Left(1)"),
    (
        "{\"card\":{\"number\":\"49\"}}",
        "Right(TextRef(\"49\"))",
        "Right(TextRef(\"49\"))",
    ),
    (
        "\"card\"",
        "not one of the known values\n",
        "value_unknown\n",
    ),
    ("\"\"", "not one of the known values\n", "value_unknown\n"),
    (
        "{\"card\":{}}",
        "card.number: missing\n",
        "card.number: member_missing\n",
    ),
    (
        "{\"cash\":null}",
        "cash: not known here\n",
        "cash: member_unknown\n",
    ),
    (
        "{}",
        "not an object with one member\n",
        "wrong_form wanted=OneMember found=Object\n",
    ),
    (
        "[\"cash\"]",
        "not an object\n",
        "wrong_form wanted=Object found=List\n",
    ),
    (
        "null",
        "not an object\n",
        "wrong_form wanted=Object found=Null\n",
    ),
];
