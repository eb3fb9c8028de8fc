//! Tuples of fields and of checks, checks of a condition, and lists whose items differ.
use crate::tests::OrEnd;
use crate::tests::told::reads;
use garde::fields::{Ascii, Asks, Each, Equal, Field, Fields, Is, Length, RequiredIf, Unique};
use garde::{DefaultI18n, Report, Trail, all};
use std::alloc::Global;

/// Whether just this is reported of fields.
fn is_told<'a, F: Fields<'a>>(alloc: Global, fields: &F, text: &str) -> bool {
    let mut trail = Trail::new(alloc);
    let mut report = Report::new(alloc);
    let answer = fields.visit(&mut trail, &mut report, &DefaultI18n);
    answer.is_ok() && reads(alloc, &report, text) == Ok(true)
}

/// What is reported of twelve fields.
const TWELVE: &str =
    "a: not ascii\nb: not ascii\nc: not ascii\nd: not ascii\na: not ascii\nb: not ascii\nc: not ascii\nd: not ascii\na: not ascii\nb: not ascii\nc: not ascii\nd: not ascii\n";

/// What is reported of five fields.
const FIVE: &str = "a: not ascii\nb: not ascii\nc: not ascii\nd: not ascii\nc: not ascii\n";

/// Whether each field is reported in a tuple of twelve, and in one of five.
fn are_told<'a, F: Fields<'a> + Copy>(alloc: Global, a: F, b: F, c: F, d: F) -> bool {
    is_told(alloc, &all!(a, b, c, d, a, b, c, d, a, b, c, d), TWELVE)
        && is_told(alloc, &(a, b, c, d, c), FIVE)
}

#[test]
fn each_field_of_a_tuple(rt: HostRuntime) {
    let a = Field("a", &"é", Is(Ascii));
    let b = Field("b", &"é", Is(Ascii));
    let c = Field("c", &"é", Is(Ascii));
    let d = Field("d", &"é", Is(Ascii));
    assert!(rt; are_told(rt.alloc(), a, b, c, d));
}

// A list of one text under four checks, a text under five checks, and one under six.
#[test]
fn each_check_of_a_tuple(rt: HostRuntime) {
    let of_four =
        "texts[0]: not ascii\ntexts[0]: length is lower than 3\ntexts[0]: length is greater than 1\ntexts[0]: not ascii\n";
    let of_more =
        "five: not ascii\nfive: length is lower than 3\nfive: length is greater than 1\nfive: not ascii\nfive: length is lower than 3\nsix: not ascii\nsix: length is lower than 3\nsix: length is greater than 1\nsix: not ascii\nsix: length is lower than 3\nsix: length is greater than 1\n";
    let texts = vec![in rt.alloc(); "é"].or_end(&rt).into_boxed_slice();
    let long = Is(Length { min: 3, max: 9 });
    let short = Is(Length { min: 0, max: 1 });
    let four = Each((Is(Ascii), long, short, Is(Ascii)));
    let five = all!(Is(Ascii), long, short, Is(Ascii), long);
    let six = all!(Is(Ascii), long, short, Is(Ascii), long, short);
    let more = (Field("five", &"é", five), Field("six", &"é", six));
    assert!(rt;
        is_told(rt.alloc(), &Field("texts", &texts, four), of_four)
            && is_told(rt.alloc(), &more, of_more)
    );
}

/// Letters that have to differ, and what is reported for them.
static LETTERS: [(&str, &str); 4] = [
    ("", ""),
    ("abcdefghijklm", ""),
    (
        "abcdefghijklma",
        "letters[13]: this letter stands before, and more than once\n",
    ),
    (
        "abcabbd",
        "letters[3]: this letter stands before, and more than once\nletters[4]: this letter stands before, and more than once\nletters[5]: this letter stands before, and more than once\n",
    ),
];

#[test]
fn items_that_are_there_before(rt: HostRuntime) {
    for (letters, told) in &LETTERS {
        let letters = Vec::from_slice(rt.alloc(), letters.as_bytes()).or_end(&rt);
        let apart = Unique("this letter stands before, and more than once", Equal);
        assert!(rt;
            is_told(rt.alloc(), &Field("letters", &letters, apart), told),
            "{told}"
        );
    }
}

/// A number that may be missing, a condition, and what is reported.
static NUMBERS: [(Option<u32>, bool, &str); 4] = [
    (Some(1), true, ""),
    (None, true, "number: not set\n"),
    (
        Some(1),
        false,
        "number: the condition of this field does not hold\n",
    ),
    (
        None,
        false,
        "number: the condition of this field does not hold\n",
    ),
];

#[test]
fn conditions_on_other_fields(rt: HostRuntime) {
    for (number, condition, told) in &NUMBERS {
        let given = Asks("the condition of this field does not hold", *condition);
        let checks = (Is(RequiredIf(*condition)), Is(given));
        assert!(rt; is_told(rt.alloc(), &Field("number", number, checks), told));
    }
}
