//! What the reasons and the IP kinds print.
use crate::tests::{has_text, shows};
use garde_i18n::{InvalidCreditCard, InvalidPhoneNumber, InvalidUrl, IpKind};
use std::alloc::Global;
use std::fmt::{Debug, Display};
use std::process::Abort;

/// Asserts that each row's reason prints that text by `{}` and that name by `{:?}`.
fn assert_prints<T: Display + Debug>(rt: &impl Abort, alloc: Global, rows: &[(T, &str, &str)]) {
    for (reason, text, name) in rows {
        assert!(rt;
            has_text(rt, alloc, reason, text) && shows(rt, alloc, reason, name),
            "{name}"
        );
    }
}

/// The reasons of URLs, with their texts and their names.
static URLS: [(InvalidUrl, &str, &str); 11] = [
    (InvalidUrl::EmptyHost, "empty host", "EmptyHost"),
    (
        InvalidUrl::IdnaError,
        "invalid international domain name",
        "IdnaError",
    ),
    (
        InvalidUrl::InvalidPort,
        "invalid port number",
        "InvalidPort",
    ),
    (
        InvalidUrl::InvalidIpv4Address,
        "invalid IPv4 address",
        "InvalidIpv4Address",
    ),
    (
        InvalidUrl::InvalidIpv6Address,
        "invalid IPv6 address",
        "InvalidIpv6Address",
    ),
    (
        InvalidUrl::InvalidDomainCharacter,
        "invalid domain character",
        "InvalidDomainCharacter",
    ),
    (
        InvalidUrl::RelativeUrlWithoutBase,
        "relative URL without a base",
        "RelativeUrlWithoutBase",
    ),
    (
        InvalidUrl::RelativeUrlWithCannotBeABaseBase,
        "relative URL with a cannot-be-a-base base",
        "RelativeUrlWithCannotBeABaseBase",
    ),
    (
        InvalidUrl::SetHostOnCannotBeABaseUrl,
        "a cannot-be-a-base URL doesn’t have a host to set",
        "SetHostOnCannotBeABaseUrl",
    ),
    (
        InvalidUrl::Overflow,
        "URLs more than 4 GB are not supported",
        "Overflow",
    ),
    (InvalidUrl::Other, "invalid url", "Other"),
];

/// The reasons of credit cards, with their texts and their names.
static CARDS: [(InvalidCreditCard, &str, &str); 5] = [
    (
        InvalidCreditCard::InvalidFormat,
        "invalid format",
        "InvalidFormat",
    ),
    (
        InvalidCreditCard::InvalidLength,
        "invalid length",
        "InvalidLength",
    ),
    (
        InvalidCreditCard::InvalidLuhn,
        "invalid luhn",
        "InvalidLuhn",
    ),
    (
        InvalidCreditCard::UnknownType,
        "unknown type",
        "UnknownType",
    ),
    (InvalidCreditCard::Other, "invalid credit card", "Other"),
];

/// The reasons of phone numbers, with their texts and their names.
static PHONES: [(InvalidPhoneNumber, &str, &str); 8] = [
    (
        InvalidPhoneNumber::Invalid,
        "not a valid phone number",
        "Invalid",
    ),
    (InvalidPhoneNumber::NotANumber, "not a number", "NotANumber"),
    (
        InvalidPhoneNumber::InvalidCountryCode,
        "invalid country code",
        "InvalidCountryCode",
    ),
    (
        InvalidPhoneNumber::TooShortAfterIdd,
        "the number is too short after IDD",
        "TooShortAfterIdd",
    ),
    (
        InvalidPhoneNumber::TooShortNsn,
        "the number is too short after the country code",
        "TooShortNsn",
    ),
    (
        InvalidPhoneNumber::TooLong,
        "the number is too long",
        "TooLong",
    ),
    (
        InvalidPhoneNumber::MalformedInteger,
        "malformed integer part in phone number",
        "MalformedInteger",
    ),
    (InvalidPhoneNumber::Other, "invalid phone number", "Other"),
];

#[test]
fn prints_the_reasons_and_the_ip_kinds(rt: HostRuntime) {
    let alloc = rt.alloc();
    assert_prints(&rt, alloc, &URLS);
    assert_prints(&rt, alloc, &CARDS);
    assert_prints(&rt, alloc, &PHONES);
    assert!(rt;
        InvalidUrl::EmptyHost != InvalidUrl::IdnaError
            && InvalidCreditCard::InvalidFormat != InvalidCreditCard::InvalidLength
            && InvalidPhoneNumber::Invalid != InvalidPhoneNumber::NotANumber
            && has_text(&rt, alloc, &IpKind::Any, "IP")
            && has_text(&rt, alloc, &IpKind::V4, "IPv4")
            && has_text(&rt, alloc, &IpKind::V6, "IPv6")
    );
}
