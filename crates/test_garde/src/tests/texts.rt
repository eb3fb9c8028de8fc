//! The default handler's texts, handed on by a reference, where memory runs out.

use super::asked::{Row, said};
use garde::DefaultI18n;
use garde::i18n::{InvalidCreditCard, InvalidPhoneNumber, InvalidUrl, IpKind};
use garde_i18n::Datum;
use std::alloc::{AllocError, Global};
use test_memory::{Met, Scarce};

/// Each text that the default handler makes with memory.
static TEXTS: [Row; 13] = [
    (Datum::LengthLowerThan(5), "length is lower than 5"),
    (Datum::LengthGreaterThan(10), "length is greater than 10"),
    (Datum::RangeLowerThan("0"), "lower than 0"),
    (Datum::RangeGreaterThan("100"), "greater than 100"),
    (
        Datum::CreditCardInvalid(InvalidCreditCard::InvalidLuhn),
        "not a valid credit card number: invalid luhn",
    ),
    (
        Datum::PatternNoMatch("[0-9]"),
        "does not match pattern /[0-9]/",
    ),
    (Datum::ContainsMissing("test"), "does not contain \"test\""),
    (
        Datum::UrlInvalid(InvalidUrl::EmptyHost),
        "not a valid url: empty host",
    ),
    (
        Datum::PrefixMissing("http://"),
        "value does not begin with \"http://\"",
    ),
    (Datum::SuffixMissing(".com"), "does not end with \".com\""),
    (
        Datum::PhoneNumberInvalid(InvalidPhoneNumber::TooLong),
        "not a valid phone number: the number is too long",
    ),
    (Datum::IpInvalid(IpKind::V4), "not a valid IPv4 address"),
    (
        Datum::MatchesFieldMismatch("password"),
        "does not match password field",
    ),
];

/// Each of these texts.
pub fn texts(alloc: Global, memory: &mut Scarce) -> Result<Met, AllocError> {
    let mut met = Met::Ample;
    for (asked, wanted) in &TEXTS {
        memory.begin();
        let answer = said(alloc, &&DefaultI18n, *asked);
        memory.end();
        met = met.and(match &answer {
            Ok(told) if told.as_str() == *wanted => Met::Ample,
            Ok(_) => Met::Wrong,
            Err(AllocError) => Met::Want,
        });
    }
    Ok(met)
}
