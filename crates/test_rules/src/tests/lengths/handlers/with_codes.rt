//! The messages of codes beside sentences.
use super::{ODD, TAKEN, assert_answers};
use garde_i18n::{Datum, DefaultI18n, InvalidCreditCard, InvalidPhoneNumber, InvalidUrl, IpKind};
use garde_problem::WithCodes;

/// What is asked, and its message.
static ROWS: [(Datum<'static>, &str); 18] = [
    (
        Datum::LengthLowerThan(5),
        "\u{1f}length_lower_than\u{1f}length is lower than 5\u{1f}min\u{1f}5\u{1f}",
    ),
    (
        Datum::LengthGreaterThan(usize::MAX),
        "\u{1f}length_greater_than\u{1f}length is greater than 18446744073709551615\u{1f}max\u{1f}18446744073709551615\u{1f}",
    ),
    (
        Datum::RangeLowerThan("-0.5"),
        "\u{1f}range_lower_than\u{1f}lower than -0.5\u{1f}min\u{1f}-0.5\u{1f}",
    ),
    (
        Datum::RangeGreaterThan("100"),
        "\u{1f}range_greater_than\u{1f}greater than 100\u{1f}max\u{1f}100\u{1f}",
    ),
    (
        Datum::CreditCardInvalid(InvalidCreditCard::InvalidLuhn),
        "\u{1f}credit_card_invalid\u{1f}not a valid credit card number: invalid luhn\u{1f}reason\u{1f}InvalidLuhn\u{1f}",
    ),
    (
        Datum::PatternNoMatch("^a b=é$"),
        "\u{1f}pattern_no_match\u{1f}does not match pattern /^a b=é$/\u{1f}pattern\u{1f}^a b=é$\u{1f}",
    ),
    (
        Datum::ContainsMissing(""),
        "\u{1f}contains_missing\u{1f}does not contain \"\"\u{1f}pattern\u{1f}\u{1f}",
    ),
    (
        Datum::UrlInvalid(InvalidUrl::EmptyHost),
        "\u{1f}url_invalid\u{1f}not a valid url: empty host\u{1f}reason\u{1f}EmptyHost\u{1f}",
    ),
    (
        Datum::PrefixMissing("http://"),
        "\u{1f}prefix_missing\u{1f}value does not begin with \"http://\"\u{1f}pattern\u{1f}http://\u{1f}",
    ),
    (
        Datum::SuffixMissing(".com"),
        "\u{1f}suffix_missing\u{1f}does not end with \".com\"\u{1f}pattern\u{1f}.com\u{1f}",
    ),
    (
        Datum::PhoneNumberInvalid(InvalidPhoneNumber::Invalid),
        "\u{1f}phone_number_invalid\u{1f}not a valid phone number\u{1f}reason\u{1f}Invalid\u{1f}",
    ),
    (
        Datum::IpInvalid(IpKind::V4),
        "\u{1f}ip_invalid\u{1f}not a valid IPv4 address\u{1f}kind\u{1f}IPv4\u{1f}",
    ),
    (
        Datum::MatchesFieldMismatch("password"),
        "\u{1f}matches_field_mismatch\u{1f}does not match password field\u{1f}field\u{1f}password\u{1f}",
    ),
    (
        Datum::AsciiInvalid,
        "\u{1f}ascii_invalid\u{1f}not ascii\u{1f}",
    ),
    (
        Datum::AlphanumericInvalid,
        "\u{1f}alphanumeric_invalid\u{1f}not alphanumeric\u{1f}",
    ),
    (
        Datum::RequiredNotSet,
        "\u{1f}required_not_set\u{1f}not set\u{1f}",
    ),
    (ODD, "\u{1f}odd_count\u{1f}3 is odd\u{1f}count\u{1f}3\u{1f}"),
    (TAKEN, "\u{1f}name_taken\u{1f}taken\u{1f}"),
];

#[test]
fn answers_codes_beside_sentences(rt: HostRuntime) {
    assert_answers(&rt, rt.alloc(), &WithCodes(DefaultI18n), &ROWS);
}
