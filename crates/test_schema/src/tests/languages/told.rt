//! Each message of every language, asked through a form and its rules.
ghost use Rattle.std.specs.Prelude.{Some};
ghost use Rattle.garde.specs.Fields.{rule};
ghost use Rattle.garde_i18n.specs.DatumOf.{datum_of};

use super::{czech, german};
use crate::tests::is_handed;
use garde::fields::{Is, Rule};
use garde::{I18n, RuleError};
use garde_catalog::{Catalog, CatalogError, Entry, languages};
use garde_i18n::{
    Code, Datum, InvalidCreditCard, InvalidPhoneNumber, InvalidUrl, IpKind, Named, Texts, Value,
};
use garde_schema::{
    FormFault, FormI18n, Integer, Kind, ParseError, Place, ReadError, Scratch, Text, TextRef,
    Wanted, read_json,
};
use std::alloc::Global;

/// The rule that finds this, whatever the value.
#[derive(Clone, Copy)]
struct Finds(Datum<'static>);

impl<'a> Rule<TextRef<'a>> for Finds {
    ghost finds = { λ finds _. Some (rule (datum_of finds.0)) };

    fn find<H: I18n>(&self, alloc: Global, _value: &TextRef<'a>, h: &H) -> Result<(), RuleError> {
        Err(RuleError::of(alloc, (&h).text_of(alloc, self.0)))
    }
}

/// What stands in the place of a text.
enum Put {
    Nothing,
    This(&'static str),
    /// The text of this reason.
    Reason(&'static str),
}

/// The code of a number that is no multiple of 7.
const MULTIPLE: Code<'static> = Code {
    name: "multiple_of_mismatch",
    param: Some(("divisor", Value::Text("7"))),
};

const FOUND: &[(Datum<'static>, &str, Put)] = &[
    (
        Datum::LengthLowerThan(3),
        "length_lower_than",
        Put::This("3"),
    ),
    (
        Datum::LengthGreaterThan(18446744073709551615),
        "length_greater_than",
        Put::This("18446744073709551615"),
    ),
    (
        Datum::RangeLowerThan("-5"),
        "range_lower_than",
        Put::This("-5"),
    ),
    (
        Datum::RangeGreaterThan("1.5"),
        "range_greater_than",
        Put::This("1.5"),
    ),
    (
        Datum::PatternNoMatch("^{2}$"),
        "pattern_no_match",
        Put::This("^{2}$"),
    ),
    (
        Datum::ContainsMissing("@"),
        "contains_missing",
        Put::This("@"),
    ),
    (
        Datum::PrefixMissing("{min}"),
        "prefix_missing",
        Put::This("{min}"),
    ),
    (Datum::SuffixMissing(""), "suffix_missing", Put::This("")),
    (Datum::IpInvalid(IpKind::Any), "ip_invalid", Put::This("IP")),
    (
        Datum::IpInvalid(IpKind::V4),
        "ip_invalid",
        Put::This("IPv4"),
    ),
    (
        Datum::IpInvalid(IpKind::V6),
        "ip_invalid",
        Put::This("IPv6"),
    ),
    (
        Datum::MatchesFieldMismatch("név"),
        "matches_field_mismatch",
        Put::This("név"),
    ),
    (Datum::AsciiInvalid, "ascii_invalid", Put::Nothing),
    (
        Datum::AlphanumericInvalid,
        "alphanumeric_invalid",
        Put::Nothing,
    ),
    (Datum::RequiredNotSet, "required_not_set", Put::Nothing),
    (
        Datum::Named(Named {
            code: MULTIPLE,
            english: "no multiple",
        }),
        "multiple_of_mismatch",
        Put::This("7"),
    ),
    (
        Datum::CreditCardInvalid(InvalidCreditCard::InvalidFormat),
        "credit_card_invalid",
        Put::Reason("card_format"),
    ),
    (
        Datum::CreditCardInvalid(InvalidCreditCard::InvalidLength),
        "credit_card_invalid",
        Put::Reason("card_length"),
    ),
    (
        Datum::CreditCardInvalid(InvalidCreditCard::InvalidLuhn),
        "credit_card_invalid",
        Put::Reason("card_luhn"),
    ),
    (
        Datum::CreditCardInvalid(InvalidCreditCard::UnknownType),
        "credit_card_invalid",
        Put::Reason("card_type"),
    ),
    (
        Datum::CreditCardInvalid(InvalidCreditCard::Other),
        "credit_card_invalid",
        Put::Reason("card_other"),
    ),
    (
        Datum::UrlInvalid(InvalidUrl::EmptyHost),
        "url_invalid",
        Put::Reason("url_empty_host"),
    ),
    (
        Datum::UrlInvalid(InvalidUrl::IdnaError),
        "url_invalid",
        Put::Reason("url_idna"),
    ),
    (
        Datum::UrlInvalid(InvalidUrl::InvalidPort),
        "url_invalid",
        Put::Reason("url_port"),
    ),
    (
        Datum::UrlInvalid(InvalidUrl::InvalidIpv4Address),
        "url_invalid",
        Put::Reason("url_ipv4"),
    ),
    (
        Datum::UrlInvalid(InvalidUrl::InvalidIpv6Address),
        "url_invalid",
        Put::Reason("url_ipv6"),
    ),
    (
        Datum::UrlInvalid(InvalidUrl::InvalidDomainCharacter),
        "url_invalid",
        Put::Reason("url_domain_character"),
    ),
    (
        Datum::UrlInvalid(InvalidUrl::RelativeUrlWithoutBase),
        "url_invalid",
        Put::Reason("url_relative"),
    ),
    (
        Datum::UrlInvalid(InvalidUrl::RelativeUrlWithCannotBeABaseBase),
        "url_invalid",
        Put::Reason("url_relative_to_no_base"),
    ),
    (
        Datum::UrlInvalid(InvalidUrl::SetHostOnCannotBeABaseUrl),
        "url_invalid",
        Put::Reason("url_set_host"),
    ),
    (
        Datum::UrlInvalid(InvalidUrl::Overflow),
        "url_invalid",
        Put::Reason("url_overflow"),
    ),
    (
        Datum::UrlInvalid(InvalidUrl::Other),
        "url_invalid",
        Put::Reason("url_other"),
    ),
    (
        Datum::PhoneNumberInvalid(InvalidPhoneNumber::Invalid),
        "phone_number_invalid",
        Put::Reason("phone_no_such_number"),
    ),
    (
        Datum::PhoneNumberInvalid(InvalidPhoneNumber::NotANumber),
        "phone_number_invalid",
        Put::Reason("phone_not_a_number"),
    ),
    (
        Datum::PhoneNumberInvalid(InvalidPhoneNumber::InvalidCountryCode),
        "phone_number_invalid",
        Put::Reason("phone_country_code"),
    ),
    (
        Datum::PhoneNumberInvalid(InvalidPhoneNumber::TooShortAfterIdd),
        "phone_number_invalid",
        Put::Reason("phone_too_short_after_idd"),
    ),
    (
        Datum::PhoneNumberInvalid(InvalidPhoneNumber::TooShortNsn),
        "phone_number_invalid",
        Put::Reason("phone_too_short_nsn"),
    ),
    (
        Datum::PhoneNumberInvalid(InvalidPhoneNumber::TooLong),
        "phone_number_invalid",
        Put::Reason("phone_too_long"),
    ),
    (
        Datum::PhoneNumberInvalid(InvalidPhoneNumber::MalformedInteger),
        "phone_number_invalid",
        Put::Reason("phone_malformed"),
    ),
    (
        Datum::PhoneNumberInvalid(InvalidPhoneNumber::Other),
        "phone_number_invalid",
        Put::Reason("phone_other"),
    ),
];

const FORM: &[(FormFault, &str)] = &[
    (FormFault::Wrong(Wanted::Text, Kind::Null), "not_text"),
    (FormFault::Wrong(Wanted::Whole, Kind::Null), "not_whole"),
    (FormFault::Wrong(Wanted::Boolean, Kind::Null), "not_boolean"),
    (FormFault::Wrong(Wanted::Null, Kind::Text), "not_null"),
    (FormFault::Wrong(Wanted::List, Kind::Null), "not_list"),
    (FormFault::Wrong(Wanted::Object, Kind::Null), "not_object"),
    (
        FormFault::Wrong(Wanted::OneMember, Kind::Object),
        "not_one_member",
    ),
    (
        FormFault::Wrong(Wanted::Character, Kind::Null),
        "not_character",
    ),
    (FormFault::Wrong(Wanted::Date, Kind::Null), "not_date"),
    (FormFault::Wrong(Wanted::Time, Kind::Null), "not_time"),
    (
        FormFault::Wrong(Wanted::DateTime, Kind::Null),
        "not_date_time",
    ),
    (
        FormFault::Wrong(Wanted::Timestamp, Kind::Null),
        "not_timestamp",
    ),
    (FormFault::Wrong(Wanted::Ipv4, Kind::Null), "not_ipv4"),
    (FormFault::Wrong(Wanted::Ipv6, Kind::Null), "not_ipv6"),
    (FormFault::Wrong(Wanted::Uuid, Kind::Null), "not_uuid"),
    (FormFault::Wrong(Wanted::Version, Kind::Null), "not_version"),
    (FormFault::Wrong(Wanted::Url, Kind::Null), "not_url"),
    (FormFault::Missing, "member_missing"),
    (FormFault::Repeated, "member_repeated"),
    (FormFault::Unknown, "member_unknown"),
    (FormFault::NotOneOf, "value_unknown"),
    (FormFault::RowLength, "row_length"),
];

/// A place in a text.
const PLACE: Place = Place {
    line: 12,
    column: 3,
};

const PARSE: &[(ParseError, &str)] = &[
    (ParseError::NotUtf8(PLACE), "not_utf8"),
    (ParseError::NotJson(PLACE), "not_json"),
    (ParseError::TooDeep(PLACE), "nested_too_deep"),
    (ParseError::LoneSurrogate(PLACE), "lone_surrogate"),
    (ParseError::TooLong, "text_too_long"),
];

// The text of a table under a code.
fn text_under<'t>(table: &[Entry<'t>], wanted: &str) -> &'t str {
    for (code, text) in table {
        if *code == wanted {
            return text;
        }
    }
    ""
}

// Whether the first of the texts is the second with the third in its one place, if it has one.
fn is_filled(told: &str, text: &str, value: &str) -> bool {
    let Some((before, behind)) = text.split_once('{') else {
        return told == text;
    };
    let Some((_, after)) = behind.split_once('}') else {
        return false;
    };
    match told.strip_prefix(before) {
        Some(rest) => match rest.strip_prefix(value) {
            Some(rest) => rest == after,
            None => false,
        },
        None => false,
    }
}

// Whether the first of the texts is the second with this line and this column in it.
fn is_placed(told: &str, text: &str) -> bool {
    let Some((before, behind)) = text.split_once("{line}") else {
        return told == text;
    };
    let Some((between, after)) = behind.split_once("{column}") else {
        return false;
    };
    match told.strip_prefix(before) {
        Some(rest) => match rest.strip_prefix("12") {
            Some(rest) => is_placed_behind(rest, between, after),
            None => false,
        },
        None => false,
    }
}

fn is_placed_behind(told: &str, between: &str, after: &str) -> bool {
    match told.strip_prefix(between) {
        Some(rest) => rest.strip_prefix("3") == Some(after),
        None => false,
    }
}

// Whether the messages of what is not read as JSON are those of the table.
fn are_parses(alloc: Global, h: &Catalog<'_>, table: &[Entry<'_>]) -> bool {
    let mut all = true;
    for (error, code) in PARSE {
        let is_told = match h.parse_error(alloc, error) {
            Ok(told) => is_placed(told.as_str(), text_under(table, code)),
            Err(_) => false,
        };
        all = all && is_told;
    }
    all
}

// Whether a text that breaks a rule is reported by this text.
fn tells(alloc: Global, h: &Catalog<'_>, datum: Datum<'static>, text: &str, value: &str) -> bool {
    let mut scratch = Scratch::new(alloc);
    let form = Text(Is(Finds(datum)));
    match read_json(alloc, b"\"a\"", &mut scratch, &form, h) {
        Err(ReadError::Report(report)) => match report.to_string(alloc) {
            Ok(told) => match told.as_str().strip_suffix("\n") {
                Some(told) => is_filled(told, text, value),
                None => false,
            },
            Err(_) => false,
        },
        _ => false,
    }
}

// Whether the messages of rules are those of the table.
fn are_messages(alloc: Global, h: &Catalog<'_>, table: &[Entry<'_>]) -> bool {
    let mut all = true;
    for (datum, code, put) in FOUND {
        let value = match put {
            Put::Nothing => "",
            Put::This(value) => value,
            Put::Reason(reason) => text_under(table, reason),
        };
        all = all && tells(alloc, h, *datum, text_under(table, code), value);
    }
    all
}

// Whether the messages of form are those of the table.
fn are_forms(alloc: Global, h: &Catalog<'_>, table: &[Entry<'_>]) -> bool {
    let mut all = true;
    for (fault, code) in FORM {
        all = all && is_handed(h.form_fault(alloc, *fault), text_under(table, code));
    }
    all
}

// Whether a catalog was made, and all its messages are those of this table.
fn is_catalog_of(
    alloc: Global,
    made: Result<Catalog<'_>, CatalogError>,
    table: &[Entry<'_>],
) -> bool {
    match made {
        Ok(h) => {
            are_messages(alloc, &h, table)
                && are_forms(alloc, &h, table)
                && are_parses(alloc, &h, table)
        }
        Err(_) => false,
    }
}

#[test]
fn tells_each_message_of_every_language(rt: HostRuntime) {
    let alloc = rt.alloc();
    for language in languages() {
        let made = Catalog::new(alloc, language.table);
        assert!(rt;
            is_catalog_of(alloc, made, language.table),
            "{}",
            language.tag
        );
    }
}

#[test]
fn tells_each_message_of_a_lent_table(rt: HostRuntime) {
    let made = Catalog::lent(rt.alloc(), german(), &[]);
    assert!(rt; is_catalog_of(rt.alloc(), made, german()));
}

#[test]
fn names_the_numbers_of_a_type(rt: HostRuntime) {
    let alloc = rt.alloc();
    let is_told = match Catalog::new(alloc, german()) {
        Ok(h) => is_handed(
            h.form_fault(alloc, FormFault::OutOfRange(Integer::I8)),
            "außerhalb des Bereichs: -128 bis 127",
        ),
        Err(_) => false,
    };
    assert!(rt; is_told);
}

// Whether this is the message of what is not read as JSON, in Czech.
fn is_told(alloc: Global, bytes: &[u8], text: &str) -> bool {
    let Ok(h) = Catalog::new(alloc, czech()) else {
        return false;
    };
    let mut scratch = Scratch::new(alloc);
    match read_json(alloc, bytes, &mut scratch, &Text(()), &h) {
        Err(ReadError::Parse(error)) => is_handed(h.parse_error(alloc, &error), text),
        _ => false,
    }
}

#[test]
fn tells_why_a_text_is_no_json(rt: HostRuntime) {
    assert!(rt;
        is_told(rt.alloc(), b"[\n1", "není JSON: řádek 2, sloupec 2")
            && is_told(rt.alloc(), b"\xff", "není UTF-8: řádek 1, sloupec 1")
    );
}
