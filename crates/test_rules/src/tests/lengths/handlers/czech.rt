//! A handler in another language, whose texts stand as constants that its contract cites.
ghost use Rattle.std.specs.Prelude.{◌≡◌, ℕ, List, ◌++◌, ◌==◌, ◌&&◌, if◌then◌else◌, nat_le, codes, IfOk, IfSome};
ghost use Rattle.std.specs.Cow.{cow_str_bytes};
ghost use Rattle.std.specs.Fmt.{decimal};
ghost use Rattle.garde_i18n.specs.Datum as datum;
ghost use Rattle.garde_i18n.specs.Reasons.{ip_kind_text};
ghost use Rattle.test_rules.specs.declared.tests.lengths.handlers.czech.TheConstants as words;

use super::{ODD, assert_answers};
use garde_i18n::{Datum, I18n, InvalidCreditCard, InvalidPhoneNumber, InvalidUrl, IpKind, Named};
use std::alloc::{AllocError, Global};
use std::borrow::CowStr;
use std::fmt::Display;

const SHORTER: &str = "délka je menší než";

const LONGER: &str = "délka je větší než";

const ONE: &str = "znak";

const FEW: &str = "znaky";

const MANY: &str = "znaků";

const LESS: &str = "hodnota je menší než";

const GREATER: &str = "hodnota je větší než";

const CARD: &str = "neplatné číslo platební karty";

const PATTERN: &str = "text neodpovídá vzoru";

const CONTAINS: &str = "text neobsahuje";

const URL: &str = "neplatná adresa URL";

const PREFIX: &str = "text nezačíná na";

const SUFFIX: &str = "text nekončí na";

const PHONE: &str = "neplatné telefonní číslo";

const ADDRESS: &str = "neplatná adresa";

const MATCHES: &str = "hodnota se liší od pole";

const NOT_ASCII: &str = "text má jiné znaky než ASCII";

const NOT_ALPHANUMERIC: &str = "text má jiné znaky než písmena a číslice";

const NOT_SET: &str = "hodnota chybí";

/// A handler whose texts are Czech. It names no reason.
#[derive(Drop)]
pub struct Czech;

/// A text, and a value behind it.
pub fn with_value<D: Display + Drop>(
    alloc: Global,
    text: &str,
    value: D,
) -> Result<CowStr<'static>, AllocError>
    ensures { IfOk result (λ s. IfSome (D.output value) (λ shown. cow_str_bytes s
        ≡ text.now ++ (codes " " ++ shown))) }
{
    Ok(CowStr::Owned(format!(in alloc; "{text} {value}")?))
}

/// A text, and a part of a rule behind it, between what opens and what closes it.
fn with_part(
    alloc: Global,
    text: &str,
    open: &str,
    part: &str,
    close: &str,
) -> Result<CowStr<'static>, AllocError>
    ensures { IfOk result (λ s. cow_str_bytes s ≡ text.now ++ (open.now ++ (part.now ++ close.now))) }
{
    Ok(CowStr::Owned(format!(in alloc; "{text}{open}{part}{close}")?))
}

/// The word for that many characters: Czech has a form for 1, one for 2 to 4, and one for the rest.
fn characters(count: usize) -> &'static str
    ensures { result.now ≡ (if count == 1 then ONE.now
        else (if nat_le 2 count && nat_le count 4 then FEW.now else MANY.now)) }
{
    match count {
        1 => ONE,
        2..=4 => FEW,
        _ => MANY,
    }
}

impl I18n for Czech {
    ghost text = { λ _ asked.
        let characters : ℕ → List ℕ = λ count.
        (if count == 1 then words.ONE.now
        else (if nat_le 2 count && nat_le count 4 then words.FEW.now
        else words.MANY.now)) in
        elim asked [
          | datum.length_lower min ↦
              words.SHORTER.now ++ (codes " " ++ (decimal min ++ (codes " " ++ characters min)))
          | datum.length_greater max ↦
              words.LONGER.now ++ (codes " " ++ (decimal max ++ (codes " " ++ characters max)))
          | datum.range_lower min ↦ words.LESS.now ++ (codes " " ++ min)
          | datum.range_greater max ↦ words.GREATER.now ++ (codes " " ++ max)
          | datum.card _ ↦ words.CARD.now
          | datum.pattern pattern ↦
              words.PATTERN.now ++ (codes " /" ++ (pattern ++ codes "/"))
          | datum.contains pattern ↦
              words.CONTAINS.now ++ (codes " \"" ++ (pattern ++ codes "\""))
          | datum.url _ ↦ words.URL.now
          | datum.prefix pattern ↦
              words.PREFIX.now ++ (codes " \"" ++ (pattern ++ codes "\""))
          | datum.suffix pattern ↦
              words.SUFFIX.now ++ (codes " \"" ++ (pattern ++ codes "\""))
          | datum.phone _ ↦ words.PHONE.now
          | datum.ip kind ↦ words.ADDRESS.now ++ (codes " " ++ ip_kind_text kind)
          | datum.matches field ↦ words.MATCHES.now ++ (codes " " ++ field)
          | datum.not_ascii ↦ words.NOT_ASCII.now
          | datum.not_alphanumeric ↦ words.NOT_ALPHANUMERIC.now
          | datum.not_set ↦ words.NOT_SET.now
          | datum.named _ english ↦ english
        ] };

    fn length_lower_than(&self, alloc: Global, min: usize) -> Result<CowStr<'static>, AllocError> {
        let word = characters(min);
        Ok(CowStr::Owned(format!(in alloc; "{SHORTER} {min} {word}")?))
    }

    fn length_greater_than(
        &self,
        alloc: Global,
        max: usize,
    ) -> Result<CowStr<'static>, AllocError> {
        let word = characters(max);
        Ok(CowStr::Owned(format!(in alloc; "{LONGER} {max} {word}")?))
    }

    fn range_lower_than(&self, alloc: Global, min: &str) -> Result<CowStr<'static>, AllocError> {
        with_value(alloc, LESS, min)
    }

    fn range_greater_than(&self, alloc: Global, max: &str) -> Result<CowStr<'static>, AllocError> {
        with_value(alloc, GREATER, max)
    }

    fn credit_card_invalid(
        &self,
        _alloc: Global,
        _reason: InvalidCreditCard,
    ) -> Result<CowStr<'static>, AllocError> {
        Ok(CowStr::Borrowed(CARD))
    }

    fn pattern_no_match(
        &self,
        alloc: Global,
        pattern: &str,
    ) -> Result<CowStr<'static>, AllocError> {
        with_part(alloc, PATTERN, " /", pattern, "/")
    }

    fn contains_missing(
        &self,
        alloc: Global,
        pattern: &str,
    ) -> Result<CowStr<'static>, AllocError> {
        with_part(alloc, CONTAINS, " \"", pattern, "\"")
    }

    fn url_invalid(
        &self,
        _alloc: Global,
        _reason: InvalidUrl,
    ) -> Result<CowStr<'static>, AllocError> {
        Ok(CowStr::Borrowed(URL))
    }

    fn prefix_missing(&self, alloc: Global, pattern: &str) -> Result<CowStr<'static>, AllocError> {
        with_part(alloc, PREFIX, " \"", pattern, "\"")
    }

    fn suffix_missing(&self, alloc: Global, pattern: &str) -> Result<CowStr<'static>, AllocError> {
        with_part(alloc, SUFFIX, " \"", pattern, "\"")
    }

    fn phone_number_invalid(
        &self,
        _alloc: Global,
        _reason: InvalidPhoneNumber,
    ) -> Result<CowStr<'static>, AllocError> {
        Ok(CowStr::Borrowed(PHONE))
    }

    fn ip_invalid(&self, alloc: Global, kind: IpKind) -> Result<CowStr<'static>, AllocError> {
        with_value(alloc, ADDRESS, kind)
    }

    fn matches_field_mismatch(
        &self,
        alloc: Global,
        field: &str,
    ) -> Result<CowStr<'static>, AllocError> {
        with_value(alloc, MATCHES, field)
    }

    fn ascii_invalid(&self, _alloc: Global) -> Result<CowStr<'static>, AllocError> {
        Ok(CowStr::Borrowed(NOT_ASCII))
    }

    fn alphanumeric_invalid(&self, _alloc: Global) -> Result<CowStr<'static>, AllocError> {
        Ok(CowStr::Borrowed(NOT_ALPHANUMERIC))
    }

    fn required_not_set(&self, _alloc: Global) -> Result<CowStr<'static>, AllocError> {
        Ok(CowStr::Borrowed(NOT_SET))
    }

    fn named(&self, alloc: Global, fault: Named<'_>) -> Result<CowStr<'static>, AllocError> {
        Ok(CowStr::Owned(String::from_str(alloc, fault.english)?))
    }
}

/// What is asked, and its text.
static ROWS: [(Datum<'static>, &str); 20] = [
    (Datum::LengthLowerThan(0), "délka je menší než 0 znaků"),
    (Datum::LengthLowerThan(1), "délka je menší než 1 znak"),
    (Datum::LengthLowerThan(2), "délka je menší než 2 znaky"),
    (Datum::LengthGreaterThan(4), "délka je větší než 4 znaky"),
    (Datum::LengthGreaterThan(5), "délka je větší než 5 znaků"),
    (Datum::RangeLowerThan("18"), "hodnota je menší než 18"),
    (Datum::RangeGreaterThan("120"), "hodnota je větší než 120"),
    (
        Datum::CreditCardInvalid(InvalidCreditCard::Other),
        "neplatné číslo platební karty",
    ),
    (
        Datum::PatternNoMatch("[0-9]"),
        "text neodpovídá vzoru /[0-9]/",
    ),
    (Datum::ContainsMissing("@"), "text neobsahuje \"@\""),
    (Datum::UrlInvalid(InvalidUrl::Other), "neplatná adresa URL"),
    (Datum::PrefixMissing("+"), "text nezačíná na \"+\""),
    (Datum::SuffixMissing(".cz"), "text nekončí na \".cz\""),
    (
        Datum::PhoneNumberInvalid(InvalidPhoneNumber::TooLong),
        "neplatné telefonní číslo",
    ),
    (Datum::IpInvalid(IpKind::Any), "neplatná adresa IP"),
    (
        Datum::MatchesFieldMismatch("heslo"),
        "hodnota se liší od pole heslo",
    ),
    (Datum::AsciiInvalid, "text má jiné znaky než ASCII"),
    (
        Datum::AlphanumericInvalid,
        "text má jiné znaky než písmena a číslice",
    ),
    (Datum::RequiredNotSet, "hodnota chybí"),
    (ODD, "3 is odd"),
];

#[test]
fn answers_czech_texts(rt: HostRuntime) {
    assert_answers(&rt, rt.alloc(), &Czech, &ROWS);
}
