//! Unions: the whole report of each body in English and as codes, or its value.

use super::told::told_with;
use garde::fields::Is;
use garde::{I18n, range};
use garde_schema::{
    Closed, Flag, FormI18n, Member, Object, Optional, Tagged, Text, U8, U64, Variant, Whole,
};
use garde_tape::Tree;
use std::alloc::{AllocError, Global};

/// A payment: by card, with a number and a year, in cash, with a sum, or by an invoice. Cash has no
/// further member.
pub fn payment<H: I18n + FormI18n>(
    alloc: Global,
    tree: &Tree<'_, '_>,
    h: &H,
) -> Result<String, AllocError> {
    let year = Whole(U8, Is(range!(min = 24, max = 30)));
    let card = (Member("number", Text(())), Optional("year", year));
    let cash = Closed(Variant("cash", Member("sum", Whole(U64, ()))));
    let invoice = Variant("", Member("paid", Flag));
    let form = Tagged("kind", (Variant("card", card), (cash, invoice)));
    told_with(alloc, tree, &form, h)
}

/// Bodies, and what each reads as, in English and as codes.
pub const PAYMENTS: &[(&str, &str, &str)] = &[
    (
        "{\"kind\":\"card\",\"number\":\"49\",\"year\":30,\"sum\":1}",
        "Left((TextRef(\"49\"), Some(30)))",
        "Left((TextRef(\"49\"), Some(30)))",
    ),
    (
        "{\"paid\":7,\"number\":\"\",\"kind\":\"card\"}",
        "Left((TextRef(\"\"), None))",
        "Left((TextRef(\"\"), None))",
    ),
    (
        "{\"sum\":18446744073709551615,\"kind\":\"c\\u0061sh\"}",
        "Right(Left(18446744073709551615))",
        "Right(Left(18446744073709551615))",
    ),
    (
        "{\"kind\":\"\",\"sum\":[],\"paid\":false}",
        "Right(Right(false))",
        "Right(Right(false))",
    ),
    (
        "{\"kind\":\"card\",\"year\":31,\"sum\":null}",
        "number: missing\nyear: greater than 30\n",
        "number: member_missing\nyear: range_greater_than max=30\n",
    ),
    (
        "{\"number\":1,\"kind\":\"cash\",\"sum\":-1,\"paid\":true}",
        "sum: out of range: 0 to 18446744073709551615\nnumber: not known here\npaid: not known here\n",
        "sum: out_of_range of=u64\nnumber: member_unknown\npaid: member_unknown\n",
    ),
    (
        "{\"kind\":\"\",\"paid\":1,\"number\":1}",
        "paid: not true or false\n",
        "paid: wrong_form wanted=Boolean found=Number\n",
    ),
    (
        "{\"year\":0,\"other\":1}",
        "kind: missing\n",
        "kind: member_missing\n",
    ),
    (
        "{\"kind\":\"cash\",\"kind\":\"cash\",\"sum\":1}",
        "kind: repeated\n",
        "kind: member_repeated\n",
    ),
    (
        "{\"kind\":1,\"sum\":-1}",
        "kind: not a text\n",
        "kind: wrong_form wanted=Text found=Number\n",
    ),
    (
        "{\"kind\":\"Cash\",\"sum\":-1,\"paid\":0,\"number\":0,\"year\":0}",
        "kind: not one of the known values\n",
        "kind: value_unknown\n",
    ),
    (
        "[{\"kind\":\"cash\"}]",
        "not an object\n",
        "wrong_form wanted=Object found=List\n",
    ),
    (
        "\"cash\"",
        "not an object\n",
        "wrong_form wanted=Object found=Text\n",
    ),
];
