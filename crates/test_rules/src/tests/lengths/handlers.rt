//! Tests of handlers: each asks a handler, and a reference to it, for a table of texts.
mod codes;
mod czech;
mod reasons;
mod scope;
mod texts;
mod with_codes;

use garde_i18n::{
    Code, Datum, DefaultI18n, I18n, InvalidCreditCard, InvalidPhoneNumber, InvalidUrl, IpKind,
    Named, Texts, Value,
};
use std::alloc::{AllocError, Global};
use std::borrow::CowStr;
use std::process::Abort;

/// Whether a method returned this text.
fn is_said(answer: Result<CowStr<'_>, AllocError>, text: &str) -> bool {
    match answer {
        Ok(said) => said.as_str() == text,
        Err(_) => false,
    }
}

/// Whether the handler returns this text. A reference to it asks the method of the kind.
fn says<H: I18n>(alloc: Global, handler: &H, asked: Datum<'_>, text: &str) -> bool {
    is_said((&handler).text_of(alloc, asked), text)
}

/// Asserts that the handler, and a reference to it, return each row's text.
fn assert_answers<H: I18n>(
    rt: &impl Abort,
    alloc: Global,
    handler: &H,
    rows: &[(Datum<'_>, &str)],
) {
    for (asked, text) in rows {
        assert!(rt;
            says(alloc, handler, *asked, text) && says(alloc, &handler, *asked, text),
            "{text}"
        );
    }
}

/// What a rule without a method of its own found, with a parameter and without one.
const ODD: Datum<'static> = Datum::Named(Named {
    code: Code {
        name: "odd_count",
        param: Some(("count", Value::Number(3))),
    },
    english: "3 is odd",
});

const TAKEN: Datum<'static> = Datum::Named(Named {
    code: Code {
        name: "name_taken",
        param: None,
    },
    english: "taken",
});

/// What is asked, and its text.
static ROWS: [(Datum<'static>, &str); 19] = [
    (Datum::LengthLowerThan(5), "length is lower than 5"),
    (Datum::LengthGreaterThan(10), "length is greater than 10"),
    (Datum::RangeLowerThan("0"), "lower than 0"),
    (Datum::RangeGreaterThan("100"), "greater than 100"),
    (
        Datum::CreditCardInvalid(InvalidCreditCard::InvalidLuhn),
        "not a valid credit card number: invalid luhn",
    ),
    (
        Datum::PatternNoMatch("\\d+"),
        "does not match pattern /\\d+/",
    ),
    (Datum::ContainsMissing("test"), "does not contain \"test\""),
    (
        Datum::UrlInvalid(InvalidUrl::EmptyHost),
        "not a valid url: empty host",
    ),
    (
        Datum::PrefixMissing("http://"),
        "value does not begin with \"http://\"",
    ),
    (Datum::SuffixMissing(".com"), "does not end with \".com\""),
    (
        Datum::PhoneNumberInvalid(InvalidPhoneNumber::Invalid),
        "not a valid phone number",
    ),
    (
        Datum::PhoneNumberInvalid(InvalidPhoneNumber::TooLong),
        "not a valid phone number: the number is too long",
    ),
    (Datum::IpInvalid(IpKind::V4), "not a valid IPv4 address"),
    (
        Datum::MatchesFieldMismatch("password"),
        "does not match password field",
    ),
    (Datum::AsciiInvalid, "not ascii"),
    (Datum::AlphanumericInvalid, "not alphanumeric"),
    (Datum::RequiredNotSet, "not set"),
    (ODD, "3 is odd"),
    (TAKEN, "taken"),
];

#[test]
fn answers_the_default_texts(rt: HostRuntime) {
    assert_answers(&rt, rt.alloc(), &DefaultI18n, &ROWS);
}
