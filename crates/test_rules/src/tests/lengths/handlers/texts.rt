//! The texts of a handler by one method.
ghost use Rattle.std.specs.Prelude.{◌++◌, codes};
ghost use Rattle.garde_i18n.specs.CodeText.{datum_code};

use super::assert_answers;
use super::czech::with_value;
use garde_i18n::{Datum, InvalidCreditCard, InvalidPhoneNumber, InvalidUrl, IpKind, Texts};
use std::alloc::{AllocError, Global};
use std::borrow::CowStr;

/// A handler whose text is a label and the code of the datum.
#[derive(Drop)]
struct Label<'l>(&'l str);

impl Texts for Label<'_> {
    ghost texts = { λ label datum. label.0.now ++ (codes " " ++ (datum_code datum).0) };

    fn text_of(&self, alloc: Global, datum: Datum<'_>) -> Result<CowStr<'static>, AllocError> {
        with_value(alloc, self.0, datum.code().name)
    }
}

/// What is asked, and its text.
static ROWS: [(Datum<'static>, &str); 16] = [
    (Datum::LengthLowerThan(1), "the length_lower_than"),
    (Datum::LengthGreaterThan(2), "the length_greater_than"),
    (Datum::RangeLowerThan("3"), "the range_lower_than"),
    (Datum::RangeGreaterThan("4"), "the range_greater_than"),
    (
        Datum::CreditCardInvalid(InvalidCreditCard::Other),
        "the credit_card_invalid",
    ),
    (Datum::PatternNoMatch("a"), "the pattern_no_match"),
    (Datum::ContainsMissing("b"), "the contains_missing"),
    (Datum::UrlInvalid(InvalidUrl::Other), "the url_invalid"),
    (Datum::PrefixMissing("c"), "the prefix_missing"),
    (Datum::SuffixMissing("d"), "the suffix_missing"),
    (
        Datum::PhoneNumberInvalid(InvalidPhoneNumber::Other),
        "the phone_number_invalid",
    ),
    (Datum::IpInvalid(IpKind::V6), "the ip_invalid"),
    (
        Datum::MatchesFieldMismatch("e"),
        "the matches_field_mismatch",
    ),
    (Datum::AsciiInvalid, "the ascii_invalid"),
    (Datum::AlphanumericInvalid, "the alphanumeric_invalid"),
    (Datum::RequiredNotSet, "the required_not_set"),
];

#[test]
fn answers_by_one_method(rt: HostRuntime) {
    assert_answers(&rt, rt.alloc(), &Label("the"), &ROWS);
}
