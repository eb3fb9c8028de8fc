//! Whole numbers that texts write: what each type makes of each text.

use garde_form::Parse;
use garde_schema::{I8, I16, I32, I64, Isize, U8, U16, U32, U64, Usize};
use std::process::Abort;

// Asks that a type makes of each text the value that stands beside it.
pub(super) fn reads<P: Parse>(rt: &impl Abort, parser: &P, rows: &[(&str, Option<P::Value>)])
where
    P::Value: PartialEq,
{
    for (text, expected) in rows {
        assert!(rt; parser.parse(text) == *expected, "{text}");
    }
}

// Asks that a type makes no value of any of the texts.
fn rejects<P: Parse>(rt: &impl Abort, parser: &P, texts: &[&str]) {
    for text in texts {
        assert!(rt; parser.parse(text).is_none(), "{text}");
    }
}

static U8S: [(&str, Option<u8>); 5] = [
    ("0", Some(0)),
    ("255", Some(255)),
    ("+0000000000000000000000000255", Some(255)),
    ("256", None),
    ("18446744073709551616", None),
];

static U16S: [(&str, Option<u16>); 4] = [
    ("0", Some(0)),
    ("+0000000000000000000000000256", Some(256)),
    ("65535", Some(65535)),
    ("65536", None),
];

static U32S: [(&str, Option<u32>); 4] = [
    ("0", Some(0)),
    ("65536", Some(65536)),
    ("4294967295", Some(4294967295)),
    ("4294967296", None),
];

static U64S: [(&str, Option<u64>); 4] = [
    ("0", Some(0)),
    ("4294967296", Some(4294967296)),
    ("18446744073709551615", Some(18446744073709551615)),
    ("18446744073709551616", None),
];

static USIZES: [(&str, Option<usize>); 4] = [
    ("0", Some(0)),
    ("4294967296", Some(4294967296)),
    ("18446744073709551615", Some(18446744073709551615)),
    ("18446744073709551616", None),
];

static NO_UNSIGNED: [&str; 10] = [
    "", "+", "-0", "++1", " 1", "1 ", "1_000", "1.0", "0x1", "\u{661}",
];

#[test]
fn reads_numbers_without_a_sign(rt: HostRuntime) {
    reads(&rt, &U8, &U8S);
    reads(&rt, &U16, &U16S);
    reads(&rt, &U32, &U32S);
    reads(&rt, &U64, &U64S);
    reads(&rt, &Usize, &USIZES);
    rejects(&rt, &U8, &NO_UNSIGNED);
    rejects(&rt, &U16, &NO_UNSIGNED);
    rejects(&rt, &U32, &NO_UNSIGNED);
    rejects(&rt, &U64, &NO_UNSIGNED);
    rejects(&rt, &Usize, &NO_UNSIGNED);
}

static I8S: [(&str, Option<i8>); 5] = [
    ("-0", Some(0)),
    ("127", Some(127)),
    ("128", None),
    ("-128", Some(-128)),
    ("-129", None),
];

static I16S: [(&str, Option<i16>); 5] = [
    ("-0", Some(0)),
    ("+32767", Some(32767)),
    ("+32768", None),
    ("-32768", Some(-32768)),
    ("-32769", None),
];

static I32S: [(&str, Option<i32>); 5] = [
    ("+32768", Some(32768)),
    ("2147483647", Some(2147483647)),
    ("2147483648", None),
    ("-2147483648", Some(-2147483648)),
    ("-2147483649", None),
];

static I64S: [(&str, Option<i64>); 5] = [
    ("-2147483649", Some(-2147483649)),
    ("9223372036854775807", Some(9223372036854775807)),
    ("9223372036854775808", None),
    ("-9223372036854775808", Some(-9223372036854775808)),
    ("-9223372036854775809", None),
];

static ISIZES: [(&str, Option<isize>); 5] = [
    ("-2147483649", Some(-2147483649)),
    ("9223372036854775807", Some(9223372036854775807)),
    ("9223372036854775808", None),
    ("-9223372036854775808", Some(-9223372036854775808)),
    ("-9223372036854775809", None),
];

static NO_SIGNED: [&str; 7] = ["", "-", "+", "-+1", "--1", " -1", "-1.0"];

#[test]
fn reads_numbers_with_a_sign(rt: HostRuntime) {
    reads(&rt, &I8, &I8S);
    reads(&rt, &I16, &I16S);
    reads(&rt, &I32, &I32S);
    reads(&rt, &I64, &I64S);
    reads(&rt, &Isize, &ISIZES);
    rejects(&rt, &I8, &NO_SIGNED);
    rejects(&rt, &I16, &NO_SIGNED);
    rejects(&rt, &I32, &NO_SIGNED);
    rejects(&rt, &I64, &NO_SIGNED);
    rejects(&rt, &Isize, &NO_SIGNED);
}
