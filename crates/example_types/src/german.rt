//! A user-defined handler, whose texts are German.
ghost use Rattle.std.specs.Prelude.{◌≡◌, ◌++◌, IfOk, IfSome};
ghost use Rattle.std.specs.Cow.{cow_str_bytes};
ghost use Rattle.example_types.specs.GermanText.{german_text};

use garde::i18n::{Datum, InvalidUrl, Texts};
use std::alloc::{AllocError, Global};
use std::borrow::CowStr;
use std::fmt::Display;

/// A handler whose texts are German. It names one reason, that of a URL without a host.
#[derive(Drop, Clone, Copy)]
pub struct German;

impl Texts for German {
    ghost texts = { λ _ datum. german_text datum };

    fn text_of(&self, alloc: Global, datum: Datum<'_>) -> Result<CowStr<'static>, AllocError> {
        match datum {
            Datum::LengthLowerThan(min) => around(alloc, "zu kurz: ", min, " oder mehr"),
            Datum::LengthGreaterThan(max) => around(alloc, "zu lang: ", max, " oder weniger"),
            Datum::RangeLowerThan(min) => around(alloc, "zu klein: ", min, " oder mehr"),
            Datum::RangeGreaterThan(max) => around(alloc, "zu viel: ", max, " oder weniger"),
            Datum::PatternNoMatch(pattern) => around(alloc, "anders als ", pattern, ""),
            Datum::ContainsMissing(part) => around(alloc, "ohne ", part, ""),
            Datum::PrefixMissing(part) => around(alloc, "nicht mit ", part, " am Anfang"),
            Datum::SuffixMissing(part) => around(alloc, "nicht mit ", part, " am Ende"),
            Datum::IpInvalid(kind) => around(alloc, "keine Adresse nach ", kind, ""),
            Datum::MatchesFieldMismatch(field) => around(alloc, "anders als im Feld ", field, ""),
            Datum::Named(fault) => around(alloc, "", fault.english, ""),
            Datum::UrlInvalid(InvalidUrl::EmptyHost) => Ok(CowStr::Borrowed(
                "keine URL: ohne Host",
            )),
            Datum::UrlInvalid(_) => Ok(CowStr::Borrowed("keine URL")),
            Datum::CreditCardInvalid(_) => Ok(CowStr::Borrowed("keine Kartennummer")),
            Datum::PhoneNumberInvalid(_) => Ok(CowStr::Borrowed("keine Telefonnummer")),
            Datum::AsciiInvalid => Ok(CowStr::Borrowed("nicht nur ASCII")),
            Datum::AlphanumericInvalid => Ok(CowStr::Borrowed("nicht nur Buchstaben und Zahlen")),
            Datum::RequiredNotSet => Ok(CowStr::Borrowed("fehlt")),
        }
    }
}

// The text of a value, with what stands around it.
fn around<D: Display + Drop>(
    alloc: Global,
    before: &str,
    value: D,
    after: &str,
) -> Result<CowStr<'static>, AllocError>
    ensures { IfOk result (λ s. IfSome (D.output value) (λ text. cow_str_bytes s
        ≡ before.now ++ (text ++ after.now))) }
{
    Ok(CowStr::Owned(format!(in alloc; "{before}{value}{after}")?))
}
