//! A sign-up, whose texts and whole numbers are read under rules of `garde`: the whole report of each
//! body in English and as codes.

use super::told::told_with;
use garde::fields::{Ascii, Is, When};
use garde::{I18n, length, range};
use garde_schema::{FormI18n, I8, Member, Object, Text, U8, U64, Whole};
use garde_tape::Tree;
use std::alloc::{AllocError, Global};

/// A name twice, an age and two numbers.
pub fn signup<H: I18n + FormI18n>(
    alloc: Global,
    tree: &Tree<'_, '_>,
    h: &H,
) -> Result<String, AllocError> {
    let short = Is(length!(max = 2));
    let form = Object((
        (
            Member("name", Text((Is(Ascii), Is(length!(min = 2, max = 5))))),
            Member("again", Text((short, When(false, short)))),
        ),
        (
            Member("age", Whole(U8, Is(range!(min = 18, max = 120)))),
            (Member("low", Whole(I8, ())), Member("big", Whole(U64, ()))),
        ),
    ));
    told_with(alloc, tree, &form, h)
}

/// Bodies, and what each reads as, in English and as codes.
pub const SIGNUPS: &[(&str, &str, &str)] = &[
    (
        "{\"name\":\"ab\",\"again\":\"ab\",\"age\":18,\"low\":-128,\"big\":18446744073709551615}",
        "((TextRef(\"ab\"), TextRef(\"ab\")), (18, (-128, 18446744073709551615)))",
        "((TextRef(\"ab\"), TextRef(\"ab\")), (18, (-128, 18446744073709551615)))",
    ),
    (
        "{\"name\":\"\u{e9}\",\"again\":\"abc\",\"age\":256,\"low\":128,\"big\":18446744073709551616}",
        "name: not ascii\nagain: length is greater than 2\nage: greater than 120\nlow: out of range: -128 to 127\nbig: out of range: 0 to 18446744073709551615\n",
        "name: ascii_invalid\nagain: length_greater_than max=2\nage: range_greater_than max=120\nlow: out_of_range of=i8\nbig: out_of_range of=u64\n",
    ),
    (
        "{\"name\":1,\"name\":2,\"age\":17,\"low\":1.0,\"big\":\"1\"}",
        "name: repeated\nagain: missing\nage: lower than 18\nlow: not a whole number\nbig: not a whole number\n",
        "name: member_repeated\nagain: member_missing\nage: range_lower_than min=18\nlow: wrong_form wanted=Whole found=Number\nbig: wrong_form wanted=Whole found=Text\n",
    ),
];
