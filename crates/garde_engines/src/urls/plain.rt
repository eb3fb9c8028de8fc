//! Plain URLs, which are found without the parser.
ghost use Rattle.std.specs.Prelude.{◌≡◌, ◌==◌, ◌||◌, Some, None, IsTrue, MatchOption, if◌then◌else◌};
ghost use Rattle.garde_engines.specs.Ip.{dot};
ghost use Rattle.garde_engines.specs.PlainUrls.{after_scheme, has_plain_host, is_plain_byte, is_plain_url};
ghost use Rattle.garde_engines.specs.Urls.{IsUrl};

// What follows `http://` or `https://`.
#[inline]
fn after_scheme(bytes: &[u8]) -> Option<&[u8]>
    ensures { MatchOption result (after_scheme bytes.now ≡ None) (λ rest. after_scheme bytes.now ≡ Some rest.now) }
{
    match bytes.strip_prefix(b"https://") {
        Some(rest) => Some(rest),
        None => bytes.strip_prefix(b"http://"),
    }
}

// A small letter, a digit, `-` or `.`.
#[inline(always)]
fn is_plain_byte(byte: u8) -> bool
    ensures { result ≡ is_plain_byte byte }
{
    if byte >= b'a' {
        byte <= b'z'
    } else {
        matches!(byte, b'0'..=b'9' | b'-' | b'.')
    }
}

// The first byte of the label that the byte stands in, `.` before the first byte of a label.
#[inline(always)]
fn label_first(first: u8, byte: u8) -> u8
    ensures { result ≡ (if first == dot || byte == dot then byte else first) }
{
    if first == b'.' || byte == b'.' {
        byte
    } else {
        first
    }
}

// Whether the bytes are plain up to their end or to a `/`, and the last label before it begins with
// a letter.
#[inline]
#[tactic(auto, using(crate::proofs::PlainHostLemmas::scan_is))]
fn has_plain_host(bytes: &[u8]) -> bool
    ensures { result ≡ has_plain_host bytes.now }
{
    let mut first = b'.';
    for byte in bytes {
        if !is_plain_byte(*byte) {
            return *byte == b'/' && first >= b'a';
        }
        first = label_first(first, *byte);
    }
    first >= b'a'
}

/// Whether the text is plainly a URL, as most are: `http://` or `https://`, a host, and nothing more
/// or a `/` and anything.
///
/// The host is of small letters, digits, `-` and `.`, and its last label begins with a letter. A text
/// that is not plain may be a URL or none.
#[inline]
pub fn is_plain_url(text: &str) -> bool
    ensures value { result ≡ is_plain_url text.now }
    ensures url { IsTrue result → IsUrl text.now }
{
    match after_scheme(text.as_bytes()) {
        Some(rest) => has_plain_host(rest),
        None => false,
    }
}
