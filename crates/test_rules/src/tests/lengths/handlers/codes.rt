//! The texts of the handler of codes.
use super::{ODD, TAKEN, assert_answers};
use garde_i18n::{CodeI18n, Datum, InvalidCreditCard, InvalidPhoneNumber, InvalidUrl, IpKind};

/// What is asked, and its text.
static ROWS: [(Datum<'static>, &str); 18] = [
    (Datum::LengthLowerThan(5), "length_lower_than min=5"),
    (
        Datum::LengthGreaterThan(usize::MAX),
        "length_greater_than max=18446744073709551615",
    ),
    (Datum::RangeLowerThan("-0.5"), "range_lower_than min=-0.5"),
    (Datum::RangeGreaterThan("100"), "range_greater_than max=100"),
    (
        Datum::CreditCardInvalid(InvalidCreditCard::InvalidLuhn),
        "credit_card_invalid reason=InvalidLuhn",
    ),
    (
        Datum::PatternNoMatch("^a b=é$"),
        "pattern_no_match pattern=^a b=é$",
    ),
    (Datum::ContainsMissing(""), "contains_missing pattern="),
    (
        Datum::UrlInvalid(InvalidUrl::EmptyHost),
        "url_invalid reason=EmptyHost",
    ),
    (
        Datum::PrefixMissing("http://"),
        "prefix_missing pattern=http://",
    ),
    (Datum::SuffixMissing(".com"), "suffix_missing pattern=.com"),
    (
        Datum::PhoneNumberInvalid(InvalidPhoneNumber::Invalid),
        "phone_number_invalid reason=Invalid",
    ),
    (Datum::IpInvalid(IpKind::V4), "ip_invalid kind=IPv4"),
    (
        Datum::MatchesFieldMismatch("password"),
        "matches_field_mismatch field=password",
    ),
    (Datum::AsciiInvalid, "ascii_invalid"),
    (Datum::AlphanumericInvalid, "alphanumeric_invalid"),
    (Datum::RequiredNotSet, "required_not_set"),
    (ODD, "odd_count count=3"),
    (TAKEN, "name_taken"),
];

#[test]
fn answers_codes_with_their_parameters(rt: HostRuntime) {
    assert_answers(&rt, rt.alloc(), &CodeI18n, &ROWS);
}
