//! Tests of the engine of URLs, on a table of texts.
use crate::tests::OrEnd;
use garde_engines::urls::{ParseError, check_url, is_plain_url, reason};
use garde_i18n::InvalidUrl;

/// A text, and what is said of it as a URL.
static LINKS: [(&str, Result<(), InvalidUrl>); 39] = [
    ("https://example.com/", Ok(())),
    ("https://example.com", Ok(())),
    ("https://example.com?q", Ok(())),
    ("https://example.com:443/a?b#c", Ok(())),
    ("mailto:a@example.com", Ok(())),
    ("abc", Err(InvalidUrl::RelativeUrlWithoutBase)),
    ("", Err(InvalidUrl::RelativeUrlWithoutBase)),
    ("http://", Err(InvalidUrl::EmptyHost)),
    ("http://a:65536/", Err(InvalidUrl::InvalidPort)),
    ("http://1.2.3.256/", Err(InvalidUrl::InvalidIpv4Address)),
    ("http://[::g]/", Err(InvalidUrl::InvalidIpv6Address)),
    ("x://a:1\\", Err(InvalidUrl::InvalidPort)),
    ("x://@", Err(InvalidUrl::EmptyHost)),
    ("ssh://a b/", Err(InvalidUrl::InvalidDomainCharacter)),
    ("https://\u{FFFD}/", Err(InvalidUrl::IdnaError)),
    // At the border of what is plainly a URL.
    ("http://a", Ok(())),
    ("http://a/", Ok(())),
    ("http://a/ b\t", Ok(())),
    ("http://a/é?b#c", Ok(())),
    ("http://a/:@[", Ok(())),
    ("http://1.b2-/", Ok(())),
    ("http://a..b/", Ok(())),
    ("http://-a-/", Ok(())),
    ("http://a.b./", Ok(())),
    ("http://A/", Ok(())),
    ("http://1.2.3.4/", Ok(())),
    ("http://a.1x/", Ok(())),
    ("https:///a", Ok(())),
    ("https://xn--a/", Ok(())),
    ("http://a.1/", Err(InvalidUrl::InvalidIpv4Address)),
    ("http://a.0x/", Err(InvalidUrl::InvalidIpv4Address)),
    ("http://a.1./", Err(InvalidUrl::InvalidIpv4Address)),
    ("http://1.2.3.400/", Err(InvalidUrl::InvalidIpv4Address)),
    ("http://a b/", Err(InvalidUrl::IdnaError)),
    ("http://a%/", Err(InvalidUrl::IdnaError)),
    ("http://a[/", Err(InvalidUrl::IdnaError)),
    ("http://a:b/", Err(InvalidUrl::InvalidPort)),
    ("https:///", Err(InvalidUrl::EmptyHost)),
    ("http:/a b", Err(InvalidUrl::IdnaError)),
];

#[test]
fn says_why_a_text_is_no_url(rt: HostRuntime) {
    for (text, answer) in &LINKS {
        assert!(rt;
            check_url(rt.alloc(), text).or_end(&rt) == *answer,
            "{text}"
        );
    }
}

#[test]
fn knows_a_plain_url(rt: HostRuntime) {
    assert!(rt;
        is_plain_url("https://example.com")
            && is_plain_url("http://example.com/a b")
            && is_plain_url("https://1.b2-/")
            && !is_plain_url("https://example.com?q")
            && !is_plain_url("https://Example.com/")
            && !is_plain_url("https://example.1/")
            && !is_plain_url("ftp://example.com/")
            && !is_plain_url("")
    );
}

#[test]
fn keeps_the_name_of_an_error(rt: HostRuntime) {
    let no_base = InvalidUrl::SetHostOnCannotBeABaseUrl;
    assert!(rt;
        reason(&ParseError::EmptyHost) == Some(InvalidUrl::EmptyHost)
            && reason(&ParseError::InvalidPort) == Some(InvalidUrl::InvalidPort)
            && reason(&ParseError::SetHostOnCannotBeABaseUrl) == Some(no_base)
            && reason(&ParseError::CannotSet) == Some(InvalidUrl::Other)
            && reason(&ParseError::Overflow).is_none()
            && reason(&ParseError::OutOfMemory).is_none()
    );
}
