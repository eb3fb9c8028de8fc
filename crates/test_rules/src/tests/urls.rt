//! Tests of URLs.
use super::tells;
use crate::tests::OrEnd;
use garde_i18n::DefaultI18n;
use garde_rules::url::{self, InvalidUrl, ParseError, Url, reason};
use std::alloc::Global;

/// Whether this is found in a value that is asked for a URL.
fn finds<T: Url>(alloc: Global, value: &T, fault: Option<&str>) -> bool {
    tells(url::apply(alloc, value, (), &DefaultI18n), fault)
}

/// A text, and what is found in it.
static ASKED: [(&str, Option<&str>); 8] = [
    ("https://example.com/", None),
    ("abc", Some("not a valid url: relative URL without a base")),
    ("http://", Some("not a valid url: empty host")),
    (
        "http://a:65536/",
        Some("not a valid url: invalid port number"),
    ),
    (
        "http://1.2.3.256/",
        Some("not a valid url: invalid IPv4 address"),
    ),
    (
        "http://[::g]/",
        Some("not a valid url: invalid IPv6 address"),
    ),
    (
        "ssh://a b/",
        Some("not a valid url: invalid domain character"),
    ),
    (
        "https://\u{FFFD}/",
        Some("not a valid url: invalid international domain name"),
    ),
];

#[test]
fn asks_for_a_url(rt: HostRuntime) {
    for (text, fault) in &ASKED {
        assert!(rt;
            finds(rt.alloc(), text, *fault) && finds(rt.alloc(), &Some(*text), *fault),
            "{text}"
        );
    }
    assert!(rt; finds(rt.alloc(), &None::<&str>, None));
}

#[test]
fn says_why_a_text_is_no_url(rt: HostRuntime) {
    let alloc = rt.alloc();
    let relative = Err(InvalidUrl::RelativeUrlWithoutBase);
    assert!(rt;
        "https://example.com/".validate_url(alloc).or_end(&rt) == Ok(())
            && "abc".validate_url(alloc).or_end(&rt) == relative
            && reason(&ParseError::InvalidPort) == Some(InvalidUrl::InvalidPort)
            && reason(&ParseError::OutOfMemory).is_none()
    );
}
