use crate::{Decimal, compare, is_multiple};
use std::cmp::Ordering;

const PAIRS: [(&str, &str, Ordering); 16] = [
    ("0.5", "0.50", Ordering::Equal),
    ("0.5", "5e-1", Ordering::Equal),
    ("-0", "0e9", Ordering::Equal),
    ("-0.0", "1e-400", Ordering::Less),
    ("1e999999999", "2", Ordering::Greater),
    ("2", "1e999999999", Ordering::Less),
    ("1e-999999999", "0", Ordering::Greater),
    ("-1e999999999", "-2", Ordering::Less),
    (
        "0.1",
        "0.1000000000000000055511151231257827",
        Ordering::Less,
    ),
    ("9007199254740993", "9007199254740992", Ordering::Greater),
    ("100e-2", "1", Ordering::Equal),
    ("1.23e+2", "123", Ordering::Equal),
    ("0.0009", "9e-4", Ordering::Equal),
    (
        "1E18446744073709551615",
        "1E18446744073709551614",
        Ordering::Greater,
    ),
    ("-5", "3", Ordering::Less),
    ("10", "9", Ordering::Greater),
];

const REFUSED: [&str; 12] = [
    "",
    "-",
    "01",
    "1.",
    ".5",
    "1e",
    "+1",
    "1 ",
    "0x1",
    "--1",
    "1e18446744073709551616",
    "NaN",
];

#[test]
fn compares(rt: HostRuntime) {
    for (a, b, expected) in PAIRS.iter() {
        assert!(rt; compare(a, b) == Some(*expected), "{a} {b}");
    }
}

#[test]
fn keeps_its_text(rt: HostRuntime) {
    match Decimal::read("-0.50") {
        Some(half) => assert!(rt; half.text() == "-0.50"),
        None => assert!(rt; false),
    }
}

#[test]
fn refuses(rt: HostRuntime) {
    for text in REFUSED.iter() {
        assert!(rt; compare(text, "0").is_none(), "{text}");
    }
}

const DIVISIONS: [(&str, &str, Option<bool>); 14] = [
    ("0.3", "0.1", Some(true)),
    ("0.35", "0.1", Some(false)),
    ("19.99", "0.01", Some(true)),
    ("19.999", "0.01", Some(false)),
    ("-4.5", "1.5", Some(true)),
    ("0", "7", Some(true)),
    ("-0.0e5", "7", Some(true)),
    ("1e999999999", "7", Some(false)),
    ("1e999999999", "0.0078125", Some(true)),
    ("1e-999999999", "0.01", Some(false)),
    ("7.0", "1", Some(true)),
    ("3", "0", None),
    ("3", "18446744073709551615", Some(false)),
    ("3", "18446744073709551616", None),
];

#[test]
fn divides(rt: HostRuntime) {
    for (a, b, expected) in DIVISIONS.iter() {
        assert!(rt; is_multiple(a, b) == *expected, "{a} {b}");
    }
}
