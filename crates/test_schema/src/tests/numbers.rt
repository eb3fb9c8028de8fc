//! Numbers that are whole, and numbers that are not.

use super::OrEnd;
use garde_tape::{Scratch, Tree, parse};
use serde_json::Value;
use std::alloc::Global;

// A text, the whole number without a sign, the whole one with a sign, and whether it is one of any size.
static NUMBERS: [(&str, Option<u64>, Option<i64>, bool); 19] = [
    ("0", Some(0), Some(0), true),
    ("18", Some(18), Some(18), true),
    ("-18", None, Some(-18), true),
    ("-1", None, Some(-1), true),
    ("-0", None, None, false),
    ("18.0", None, None, false),
    ("1.0", None, None, false),
    ("1e2", None, None, false),
    ("18E0", None, None, false),
    (
        "9223372036854775807",
        Some(9223372036854775807),
        Some(9223372036854775807),
        true,
    ),
    ("9223372036854775808", Some(9223372036854775808), None, true),
    (
        "-9223372036854775808",
        None,
        Some(-9223372036854775808),
        true,
    ),
    ("-9223372036854775809", None, None, true),
    (
        "18446744073709551615",
        Some(18446744073709551615),
        None,
        true,
    ),
    ("18446744073709551616", None, None, true),
    ("-340282366920938463463374607431768211456", None, None, true),
    ("\"18\"", None, None, false),
    ("\"1\"", None, None, false),
    ("null", None, None, false),
];

// Whether a text is read as these.
fn is_read(
    alloc: Global,
    text: &str,
    unsigned: Option<u64>,
    signed: Option<i64>,
    whole: bool,
) -> bool {
    let mut scratch = Scratch::new(alloc);
    match parse(alloc, text, &mut scratch) {
        Ok(tape) => {
            let tree = Tree::root(&tape);
            tree.as_u64() == unsigned && tree.as_i64() == signed && tree.is_whole() == whole
        }
        Err(_) => false,
    }
}

// Whether serde_json reads a text as the first two.
fn is_by_serde(alloc: Global, text: &str, unsigned: Option<u64>, signed: Option<i64>) -> bool {
    match Value::from_str(alloc, text) {
        Ok(value) => value.as_u64() == unsigned && value.as_i64() == signed,
        Err(_) => false,
    }
}

#[test]
fn reads_whole_numbers(rt: HostRuntime) {
    for (text, unsigned, signed, whole) in &NUMBERS {
        assert!(rt;
            is_read(rt.alloc(), text, *unsigned, *signed, *whole)
                && is_by_serde(rt.alloc(), text, *unsigned, *signed),
            "{text}"
        );
    }
}

// Whether the text of a number is kept as it is.
fn is_kept(alloc: Global, text: &str) -> bool {
    let mut scratch = Scratch::new(alloc);
    match parse(alloc, text, &mut scratch) {
        Ok(tape) => Tree::root(&tape).as_number() == Some(text),
        Err(_) => false,
    }
}

#[test]
fn keeps_a_number_of_a_thousand_digits(rt: HostRuntime) {
    let digits = "9".repeat(rt.alloc(), 1000).or_end(&rt);
    let text = digits.as_str();
    assert!(rt; is_kept(rt.alloc(), text) && is_read(rt.alloc(), text, None, None, true));
}
