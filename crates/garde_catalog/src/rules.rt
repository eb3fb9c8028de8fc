//! The handlers of rules.
ghost use Rattle.std.specs.Prelude.{◌≡◌, IfOk};
ghost use Rattle.std.specs.Cow.{cow_str_bytes};
ghost use Rattle.garde_i18n.specs.DatumOf.{named_of};
ghost use Rattle.garde_i18n.specs.Reasons.{ip_kind_text};
ghost use Rattle.garde_catalog.specs.Catalog.{IsFixed, IsPlaceless, card_code, catalog_text, phone_code, put_in, url_code, word_at};
ghost use Rattle.garde_catalog.specs.Messages.{place_of};

use crate::catalog::Catalog;
use crate::messages::{CARDS, PHONES, URLS};
use crate::template::fill_one;
use garde_i18n::{
    Datum, InvalidCreditCard, InvalidPhoneNumber, InvalidUrl, IpKind, Named, Texts, Value,
};
use std::alloc::{AllocError, Global};
use std::borrow::CowStr;

fn place_of_card(reason: InvalidCreditCard) -> usize
    ensures { result ≡ place_of (card_code reason) }
{
    CARDS + reason as usize
}

fn place_of_url(reason: InvalidUrl) -> usize
    ensures { result ≡ place_of (url_code reason) }
{
    URLS + reason as usize
}

fn place_of_phone(reason: InvalidPhoneNumber) -> usize
    ensures { result ≡ place_of (phone_code reason) }
{
    PHONES + reason as usize
}

fn kind_name(kind: IpKind) -> &'static str
    ensures { result.now ≡ ip_kind_text kind }
{
    match kind {
        IpKind::Any => "IP",
        IpKind::V4 => "IPv4",
        IpKind::V6 => "IPv6",
    }
}

impl Catalog<'_> {
    // The text of a message, with the text of another in the place of its parameter.
    fn because(
        &self,
        alloc: Global,
        place: usize,
        reason: usize,
    ) -> Result<CowStr<'static>, AllocError>
        ensures { IfOk result (λ s. cow_str_bytes s ≡ put_in self.now place (word_at self.now reason)) }
    {
        self.put_in(alloc, place, Value::Text(self.word_at(reason)))
    }

    // The text of a fault that brings its code: that of the line of this code, and else English.
    fn of_named(&self, alloc: Global, fault: Named<'_>) -> Result<CowStr<'static>, AllocError>
        ensures { IfOk result (λ s. cow_str_bytes s ≡ catalog_text self.now (named_of fault.entry)) }
    {
        let Some(text) = self.named(fault.code.name) else {
            return Ok(CowStr::Owned(String::from_str(alloc, fault.english)?));
        };
        match fault.code.param {
            Some((_, value)) => fill_one(alloc, text, value),
            None => Ok(CowStr::Owned(String::from_str(alloc, text)?)),
        }
    }
}

/// The texts of the table, with what a rule found in the places of their parameters. The text of a
/// fault that brings a code without a line is English.
impl Texts for Catalog<'_> {
    ghost texts = { λ catalog datum. catalog_text catalog datum };

    // A text without a place that lasts as long as the program is borrowed.
    ghost borrowed = { λ catalog datum. IsFixed catalog × IsPlaceless datum };

    fn text_of(&self, alloc: Global, datum: Datum<'_>) -> Result<CowStr<'static>, AllocError> {
        // The first messages stand in the order of the kinds.
        let (place, value) = match datum {
            Datum::LengthLowerThan(min) => (0, Value::Number(min)),
            Datum::LengthGreaterThan(max) => (1, Value::Number(max)),
            Datum::RangeLowerThan(min) => (2, Value::Text(min)),
            Datum::RangeGreaterThan(max) => (3, Value::Text(max)),
            Datum::CreditCardInvalid(it) => return self.because(alloc, 4, place_of_card(it)),
            Datum::PatternNoMatch(pattern) => (5, Value::Text(pattern)),
            Datum::ContainsMissing(pattern) => (6, Value::Text(pattern)),
            Datum::UrlInvalid(it) => return self.because(alloc, 7, place_of_url(it)),
            Datum::PrefixMissing(pattern) => (8, Value::Text(pattern)),
            Datum::SuffixMissing(pattern) => (9, Value::Text(pattern)),
            Datum::PhoneNumberInvalid(it) => return self.because(alloc, 10, place_of_phone(it)),
            Datum::IpInvalid(kind) => (11, Value::Text(kind_name(kind))),
            Datum::MatchesFieldMismatch(field) => (12, Value::Text(field)),
            Datum::AsciiInvalid => return self.fixed(alloc, 13),
            Datum::AlphanumericInvalid => return self.fixed(alloc, 14),
            Datum::RequiredNotSet => return self.fixed(alloc, 15),
            Datum::Named(fault) => return self.of_named(alloc, fault),
        };
        self.put_in(alloc, place, value)
    }
}
