//! The table of the rules of texts: what each finds in a text and in an option with it, by its function
//! and as a value, in English and as codes.
use super::tells;
use garde_i18n::{CodeI18n, DefaultI18n, I18n};
use garde_report::RuleError;
use garde_rules::alphanumeric::Alphanumeric;
use garde_rules::ascii::Ascii;
use garde_rules::contains::Contains;
use garde_rules::ip::{Ip, IpKind};
use garde_rules::prefix::Prefix;
use garde_rules::suffix::Suffix;
use garde_rules::{Rule, alphanumeric, ascii, contains, ip, prefix, suffix, values};
use std::alloc::Global;

/// A rule of texts, with what it asks for.
#[derive(Clone, Copy)]
enum Asked {
    Ascii,
    Alphanumeric,
    Contains(&'static str),
    Prefix(&'static str),
    Suffix(&'static str),
    Ip(IpKind),
}

/// A rule, a text, and what is found: nothing, or a fault with this text in English and as a code.
type Row = (Asked, &'static str, Option<(&'static str, &'static str)>);

const NOT_ASCII: Option<(&str, &str)> = Some(("not ascii", "ascii_invalid"));

const NOT_ALPHANUMERIC: Option<(&str, &str)> = Some(("not alphanumeric", "alphanumeric_invalid"));

const NO_IP: Option<(&str, &str)> = Some(("not a valid IP address", "ip_invalid kind=IP"));

const NO_IPV4: Option<(&str, &str)> = Some(("not a valid IPv4 address", "ip_invalid kind=IPv4"));

const NO_IPV6: Option<(&str, &str)> = Some(("not a valid IPv6 address", "ip_invalid kind=IPv6"));

static TABLE: [Row; 33] = [
    (Asked::Ascii, "test", None),
    (Asked::Ascii, "", None),
    (Asked::Ascii, "é", NOT_ASCII),
    (Asked::Ascii, "a\u{80}", NOT_ASCII),
    (Asked::Alphanumeric, "", None),
    (Asked::Alphanumeric, "é", None),
    (Asked::Alphanumeric, "\u{663}", None),
    (Asked::Alphanumeric, "\u{2167}", None),
    (Asked::Alphanumeric, "\u{BD}", None),
    (Asked::Alphanumeric, "a b", NOT_ALPHANUMERIC),
    (Asked::Alphanumeric, "_", NOT_ALPHANUMERIC),
    (Asked::Contains("bc"), "abc", None),
    (Asked::Contains(""), "", None),
    (
        Asked::Contains("\""),
        "abc",
        Some(("does not contain \"\"\"", "contains_missing pattern=\"")),
    ),
    (
        Asked::Contains("ac"),
        "abc",
        Some(("does not contain \"ac\"", "contains_missing pattern=ac")),
    ),
    (Asked::Prefix("ab"), "abc", None),
    (Asked::Prefix(""), "", None),
    (
        Asked::Prefix("bc"),
        "abc",
        Some((
            "value does not begin with \"bc\"",
            "prefix_missing pattern=bc",
        )),
    ),
    (
        Asked::Prefix("abcd"),
        "abc",
        Some((
            "value does not begin with \"abcd\"",
            "prefix_missing pattern=abcd",
        )),
    ),
    (Asked::Suffix("bc"), "abc", None),
    (Asked::Suffix(""), "", None),
    (
        Asked::Suffix("ab"),
        "abc",
        Some(("does not end with \"ab\"", "suffix_missing pattern=ab")),
    ),
    (
        Asked::Suffix("_"),
        "a_é",
        Some(("does not end with \"_\"", "suffix_missing pattern=_")),
    ),
    (Asked::Ip(IpKind::Any), "0.0.0.0", None),
    (Asked::Ip(IpKind::Any), "::", None),
    (Asked::Ip(IpKind::Any), "1.2.3", NO_IP),
    (Asked::Ip(IpKind::Any), "::1.2.3.256", NO_IP),
    (Asked::Ip(IpKind::V4), "0.0.0.0", None),
    (Asked::Ip(IpKind::V4), "1.2.3.4", None),
    (Asked::Ip(IpKind::V4), "1.2.3", NO_IPV4),
    (Asked::Ip(IpKind::V4), "::", NO_IPV4),
    (Asked::Ip(IpKind::V6), "::", None),
    (Asked::Ip(IpKind::V6), "0.0.0.0", NO_IPV6),
];

/// What the function of a rule finds in a value.
fn by_function<T: Alphanumeric + Ascii + Contains + Ip + Prefix + Suffix, H: I18n>(
    alloc: Global,
    asked: Asked,
    value: &T,
    h: &H,
) -> Result<(), RuleError> {
    match asked {
        Asked::Ascii => ascii::apply(alloc, value, (), h),
        Asked::Alphanumeric => alphanumeric::apply(alloc, value, (), h),
        Asked::Contains(part) => contains::apply(alloc, value, (part,), h),
        Asked::Prefix(front) => prefix::apply(alloc, value, (front,), h),
        Asked::Suffix(end) => suffix::apply(alloc, value, (end,), h),
        Asked::Ip(kind) => ip::apply(alloc, value, (kind,), h),
    }
}

/// What a rule as a value finds in a text.
fn as_value<H: I18n>(alloc: Global, asked: Asked, text: &str, h: &H) -> Result<(), RuleError> {
    match asked {
        Asked::Ascii => values::Ascii.find(alloc, &text, h),
        Asked::Alphanumeric => values::Alphanumeric.find(alloc, &text, h),
        Asked::Contains(part) => values::Contains(part).find(alloc, &text, h),
        Asked::Prefix(front) => values::Prefix(front).find(alloc, &text, h),
        Asked::Suffix(end) => values::Suffix(end).find(alloc, &text, h),
        Asked::Ip(kind) => values::Ip(kind).find(alloc, &text, h),
    }
}

/// Whether this is found in a text, and in an option with it, and as a value.
fn is_found<H: I18n>(alloc: Global, asked: Asked, text: &str, h: &H, fault: Option<&str>) -> bool {
    tells(by_function(alloc, asked, &text, h), fault)
        && tells(by_function(alloc, asked, &Some(text), h), fault)
        && tells(as_value(alloc, asked, text, h), fault)
}

/// Whether a row is found in English and as a code.
fn is_row(alloc: Global, (asked, text, fault): &Row) -> bool {
    let (english, code) = match fault {
        Some((english, code)) => (Some(*english), Some(*code)),
        None => (None, None),
    };
    is_found(alloc, *asked, text, &DefaultI18n, english)
        && is_found(alloc, *asked, text, &CodeI18n, code)
}

#[test]
fn finds_the_fault_of_each_row(rt: HostRuntime) {
    for (number, row) in TABLE.iter().enumerate() {
        assert!(rt; is_row(rt.alloc(), row), "row {number}");
    }
}

/// Whether a rule passes an option without a value.
fn passes_none(alloc: Global, asked: Asked) -> bool {
    let none: Option<&str> = None;
    by_function(alloc, asked, &none, &DefaultI18n).is_ok()
}

#[test]
fn passes_an_option_without_a_value(rt: HostRuntime) {
    for (number, (asked, _, _)) in TABLE.iter().enumerate() {
        assert!(rt; passes_none(rt.alloc(), *asked), "row {number}");
    }
}
