//! A handler with texts and memory of its own.
ghost use Rattle.std.specs.Prelude.{◌≡◌, ◌++◌, IfOk, codes};
ghost use Rattle.std.specs.Cow.{cow_str_bytes};
ghost use Rattle.std.specs.Fmt.{decimal};
ghost use Rattle.garde_i18n.specs.Datum as datum;
ghost use Rattle.garde_i18n.specs.Reasons.{card_name, url_name, phone_name, ip_kind_text};

use super::asked::{Row, assert_says};
use garde::i18n::{Datum, InvalidCreditCard, InvalidPhoneNumber, InvalidUrl, IpKind, Texts};
use std::alloc::{AllocError, Global};
use std::borrow::CowStr;

/// A handler whose texts all begin with `custom: `, and which holds bytes.
#[derive(Drop)]
pub struct Custom {
    pub weight: Vec<u8>,
}

// A text with what stands around it.
fn around(
    alloc: Global,
    before: &str,
    text: &str,
    after: &str,
) -> Result<CowStr<'static>, AllocError>
    ensures { IfOk result (λ s. cow_str_bytes s ≡ before.now ++ (text.now ++ after.now)) }
{
    Ok(CowStr::Owned(format!(in alloc; "{before}{text}{after}")?))
}

// A text with a number behind it.
fn with_number(alloc: Global, text: &str, number: usize) -> Result<CowStr<'static>, AllocError>
    ensures { IfOk result (λ s. cow_str_bytes s ≡ text.now ++ decimal number) }
{
    Ok(CowStr::Owned(format!(in alloc; "{text}{number}")?))
}

// The text of a credit card number with this fault.
fn card(alloc: Global, reason: InvalidCreditCard) -> Result<CowStr<'static>, AllocError>
    ensures { IfOk result (λ s. cow_str_bytes s ≡ codes "custom: invalid credit card - " ++ card_name reason) }
{
    Ok(CowStr::Owned(format!(in alloc; "custom: invalid credit card - {reason:?}")?))
}

// The text of a URL with this fault.
fn url(alloc: Global, reason: InvalidUrl) -> Result<CowStr<'static>, AllocError>
    ensures { IfOk result (λ s. cow_str_bytes s ≡ codes "custom: bad URL - " ++ url_name reason) }
{
    Ok(CowStr::Owned(format!(in alloc; "custom: bad URL - {reason:?}")?))
}

// The text of a phone number with this fault.
fn phone(alloc: Global, reason: InvalidPhoneNumber) -> Result<CowStr<'static>, AllocError>
    ensures { IfOk result (λ s. cow_str_bytes s ≡ codes "custom: phone number error - " ++ phone_name reason) }
{
    Ok(CowStr::Owned(format!(in alloc; "custom: phone number error - {reason:?}")?))
}

// The text of no address of this kind.
fn address(alloc: Global, kind: IpKind) -> Result<CowStr<'static>, AllocError>
    ensures { IfOk result (λ s. cow_str_bytes s ≡ codes "custom: not a valid " ++ (ip_kind_text kind ++ codes " IP")) }
{
    Ok(CowStr::Owned(format!(in alloc; "custom: not a valid {kind} IP")?))
}

impl Texts for Custom {
    ghost texts = { λ _ asked. elim asked [
      | datum.length_lower min ↦ codes "custom: too short, need at least " ++ decimal min
      | datum.length_greater max ↦ codes "custom: too long, maximum is " ++ decimal max
      | datum.range_lower min ↦ codes "custom: value too small, minimum is " ++ min
      | datum.range_greater max ↦ codes "custom: value too large, maximum is " ++ max
      | datum.card reason ↦ codes "custom: invalid credit card - " ++ card_name reason
      | datum.pattern pattern ↦ codes "custom: doesn't match /" ++ (pattern ++ codes "/")
      | datum.contains pattern ↦
          codes "custom: missing required text '" ++ (pattern ++ codes "'")
      | datum.url reason ↦ codes "custom: bad URL - " ++ url_name reason
      | datum.prefix pattern ↦ codes "custom: must start with '" ++ (pattern ++ codes "'")
      | datum.suffix pattern ↦ codes "custom: must end with '" ++ (pattern ++ codes "'")
      | datum.phone reason ↦ codes "custom: phone number error - " ++ phone_name reason
      | datum.ip kind ↦ codes "custom: not a valid " ++ (ip_kind_text kind ++ codes " IP")
      | datum.matches field ↦ codes "custom: must match " ++ field
      | datum.not_ascii ↦ codes "custom: contains non-ASCII characters"
      | datum.not_alphanumeric ↦ codes "custom: only letters and numbers allowed"
      | datum.not_set ↦ codes "custom: this field is required"
      | datum.named _ english ↦ codes "custom: " ++ (english ++ codes "")
    ] };

    fn text_of(&self, alloc: Global, datum: Datum<'_>) -> Result<CowStr<'static>, AllocError> {
        match datum {
            Datum::LengthLowerThan(n) => with_number(alloc, "custom: too short, need at least ", n),
            Datum::LengthGreaterThan(n) => with_number(alloc, "custom: too long, maximum is ", n),
            Datum::RangeLowerThan(min) => around(
                alloc,
                "custom: value too small, minimum is ",
                min,
                "",
            ),
            Datum::RangeGreaterThan(max) => around(
                alloc,
                "custom: value too large, maximum is ",
                max,
                "",
            ),
            Datum::CreditCardInvalid(reason) => card(alloc, reason),
            Datum::PatternNoMatch(text) => around(alloc, "custom: doesn't match /", text, "/"),
            Datum::ContainsMissing(text) => around(
                alloc,
                "custom: missing required text '",
                text,
                "'",
            ),
            Datum::UrlInvalid(reason) => url(alloc, reason),
            Datum::PrefixMissing(text) => around(alloc, "custom: must start with '", text, "'"),
            Datum::SuffixMissing(text) => around(alloc, "custom: must end with '", text, "'"),
            Datum::PhoneNumberInvalid(reason) => phone(alloc, reason),
            Datum::IpInvalid(kind) => address(alloc, kind),
            Datum::MatchesFieldMismatch(field) => around(alloc, "custom: must match ", field, ""),
            Datum::AsciiInvalid => Ok(CowStr::Borrowed("custom: contains non-ASCII characters")),
            Datum::AlphanumericInvalid => {
                Ok(CowStr::Borrowed("custom: only letters and numbers allowed"))
            }
            Datum::RequiredNotSet => Ok(CowStr::Borrowed("custom: this field is required")),
            Datum::Named(fault) => around(alloc, "custom: ", fault.english, ""),
        }
    }
}

/// What the handler says of each request.
static TEXTS: [Row; 17] = [
    (
        Datum::LengthLowerThan(3),
        "custom: too short, need at least 3",
    ),
    (
        Datum::LengthGreaterThan(20),
        "custom: too long, maximum is 20",
    ),
    (
        Datum::RangeLowerThan("1"),
        "custom: value too small, minimum is 1",
    ),
    (
        Datum::RangeGreaterThan("99"),
        "custom: value too large, maximum is 99",
    ),
    (
        Datum::CreditCardInvalid(InvalidCreditCard::InvalidLength),
        "custom: invalid credit card - InvalidLength",
    ),
    (
        Datum::PatternNoMatch("[a-z]+"),
        "custom: doesn't match /[a-z]+/",
    ),
    (
        Datum::ContainsMissing("hello"),
        "custom: missing required text 'hello'",
    ),
    (
        Datum::UrlInvalid(InvalidUrl::Overflow),
        "custom: bad URL - Overflow",
    ),
    (
        Datum::PrefixMissing("www."),
        "custom: must start with 'www.'",
    ),
    (Datum::SuffixMissing(".org"), "custom: must end with '.org'"),
    (
        Datum::PhoneNumberInvalid(InvalidPhoneNumber::Invalid),
        "custom: phone number error - Invalid",
    ),
    (
        Datum::PhoneNumberInvalid(InvalidPhoneNumber::TooShortNsn),
        "custom: phone number error - TooShortNsn",
    ),
    (Datum::IpInvalid(IpKind::V6), "custom: not a valid IPv6 IP"),
    (
        Datum::MatchesFieldMismatch("confirm_password"),
        "custom: must match confirm_password",
    ),
    (Datum::AsciiInvalid, "custom: contains non-ASCII characters"),
    (
        Datum::AlphanumericInvalid,
        "custom: only letters and numbers allowed",
    ),
    (Datum::RequiredNotSet, "custom: this field is required"),
];

#[test]
fn says_its_own_texts(rt: HostRuntime) {
    let h = Custom {
        weight: Vec::new(rt.alloc()),
    };
    let rows = &TEXTS;
    assert_says(&rt, rt.alloc(), &h, rows);
    assert_says(&rt, rt.alloc(), &&h, rows);
}
