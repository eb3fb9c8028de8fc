//! What a rule finds, as a value.
ghost use Rattle.std.specs.Prelude.{◌≡◌, Some};
ghost use Rattle.garde_i18n.specs.CodeText.{datum_code};
ghost use Rattle.garde_i18n.specs.DatumOf.{code_of, datum_of, value_text};

use crate::reasons::{InvalidCreditCard, InvalidPhoneNumber, InvalidUrl, IpKind};
use std::fmt;

/// What a rule finds: one kind for each method of `I18n`, with that method's argument.
#[derive(Clone, Copy, Debug)]
pub enum Datum<'a> {
    /// A length is below this number.
    LengthLowerThan(usize),
    /// A length is above this number.
    LengthGreaterThan(usize),
    /// A value is below the bound of this text.
    RangeLowerThan(&'a str),
    /// A value is above the bound of this text.
    RangeGreaterThan(&'a str),
    /// A text is no credit card number, for this reason.
    CreditCardInvalid(InvalidCreditCard),
    /// A text does not match the pattern of this source.
    PatternNoMatch(&'a str),
    /// A text does not have this text as a part.
    ContainsMissing(&'a str),
    /// A text is no URL, for this reason.
    UrlInvalid(InvalidUrl),
    /// A text does not begin with this text.
    PrefixMissing(&'a str),
    /// A text does not end with this text.
    SuffixMissing(&'a str),
    /// A text is no phone number, for this reason.
    PhoneNumberInvalid(InvalidPhoneNumber),
    /// A text is no IP address of this kind.
    IpInvalid(IpKind),
    /// A value differs from that of the field of this name.
    MatchesFieldMismatch(&'a str),
    /// A text has a character that is not ASCII.
    AsciiInvalid,
    /// A text has a character that is neither a letter nor a number.
    AlphanumericInvalid,
    /// A value that must be there is missing.
    RequiredNotSet,
    /// What a rule found that has no method of its own.
    Named(Named<'a>),
}

impl<'a> Datum<'a> {
    /// The code of the datum: the name of its method, and its argument as a parameter; or the code
    /// that it brings.
    pub fn code(self) -> Code<'a>
        ensures { code_of result ≡ datum_code (datum_of self.entry) }
    {
        let (name, param) = match self {
            Datum::LengthLowerThan(n) => ("length_lower_than", Some(("min", Value::Number(n)))),
            Datum::LengthGreaterThan(n) => ("length_greater_than", Some(("max", Value::Number(n)))),
            Datum::RangeLowerThan(it) => ("range_lower_than", Some(("min", Value::Text(it)))),
            Datum::RangeGreaterThan(it) => ("range_greater_than", Some(("max", Value::Text(it)))),
            Datum::CreditCardInvalid(it) => (
                "credit_card_invalid",
                Some(("reason", Value::Text(it.name()))),
            ),
            Datum::PatternNoMatch(it) => ("pattern_no_match", Some(("pattern", Value::Text(it)))),
            Datum::ContainsMissing(it) => ("contains_missing", Some(("pattern", Value::Text(it)))),
            Datum::UrlInvalid(it) => ("url_invalid", Some(("reason", Value::Text(it.name())))),
            Datum::PrefixMissing(it) => ("prefix_missing", Some(("pattern", Value::Text(it)))),
            Datum::SuffixMissing(it) => ("suffix_missing", Some(("pattern", Value::Text(it)))),
            Datum::PhoneNumberInvalid(it) => (
                "phone_number_invalid",
                Some(("reason", Value::Text(it.name()))),
            ),
            Datum::IpInvalid(it) => ("ip_invalid", Some(("kind", Value::Text(it.name())))),
            Datum::MatchesFieldMismatch(it) => (
                "matches_field_mismatch",
                Some(("field", Value::Text(it))),
            ),
            Datum::AsciiInvalid => ("ascii_invalid", None),
            Datum::AlphanumericInvalid => ("alphanumeric_invalid", None),
            Datum::RequiredNotSet => ("required_not_set", None),
            Datum::Named(fault) => return fault.code,
        };
        Code { name, param }
    }
}

/// What a rule found that has no method of its own: one that the Rust crate does not have, or a
/// user-defined one.
///
/// A handler words it by its code. One that does not know the code gives the text in English.
#[derive(Clone, Copy, Debug)]
pub struct Named<'a> {
    /// The code, and the parameter, if there is one.
    pub code: Code<'a>,
    /// The text in English.
    pub english: &'a str,
}

/// A code for a program, and its parameter, if there is one: a name and a value.
#[derive(Clone, Copy, Debug)]
pub struct Code<'a> {
    /// The code.
    pub name: &'static str,
    /// The name and the value of the parameter.
    pub param: Option<(&'static str, Value<'a>)>,
}

/// The value of a parameter.
#[derive(Clone, Copy, Debug)]
pub enum Value<'a> {
    /// A number, which is printed in decimal.
    Number(usize),
    /// A text, which is printed as it is.
    Text(&'a str),
}

impl fmt::Display for Value<'_> {
    ghost output = { λ value. Some (value_text value) };

    fn fmt<W: fmt::Write>(&self, f: &mut fmt::Formatter<W>) -> fmt::Result {
        match self {
            Value::Number(number) => write!(f, "{number}"),
            Value::Text(text) => f.write_str(text),
        }
    }
}
