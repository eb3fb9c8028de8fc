//! The reader of IPv4 texts.
ghost use Rattle.std.specs.Prelude.{◌≡◌, ◌↔◌, ◌∷◌, ◌+◌, ◌*◌, ◌<◌, IsTrue, MatchOption, nat_le};
ghost use Rattle.garde_engines.specs.Ip.{IsOctet, IsIpv4};
ghost use Rattle.garde_engines.specs.IpText.{is_ipv4_text};
ghost use Rattle.garde_engines.specs.Octets.{NoDigit, NoOctet, FirstOctet, NoDotted, FirstDotted, NotInThree, LastOfFour};

// The value of the decimal digit at the start of the bytes, and what follows it.
#[inline(always)]
fn split_digit(bytes: &[u8]) -> Option<(u8, &[u8])>
    ensures { MatchOption result (NoDigit bytes.now)
        (λ both. (both.0 < 10) × (bytes.now ≡ (48 + both.0) ∷ both.1.now)) }
{
    let (byte, rest) = bytes.split_first()?;
    if byte.is_ascii_digit() {
        Some((*byte - b'0', rest))
    } else {
        None
    }
}

// Whether three digits have a value of at most 255.
#[inline(always)]
fn is_small(first: u8, second: u8, third: u8) -> bool
    requires second { second < 10 }
    requires third { third < 10 }
    ensures { result ≡ nat_le ((first * 10 + second) * 10 + third) 255 }
{
    first < 2 || (first == 2 && (second < 5 || (second == 5 && third <= 5)))
}

// What follows the octet at the start of the bytes, which ends at their end or at a `.`.
#[inline(always)]
fn after_octet(bytes: &[u8]) -> Option<&[u8]>
    ensures { MatchOption result (NoOctet bytes.now) (λ rest. FirstOctet bytes.now rest.now) }
{
    let (first, rest) = split_digit(bytes)?;
    if first == 0 {
        return Some(rest);
    }
    let Some((second, more)) = split_digit(rest) else {
        return Some(rest);
    };
    let Some((third, last)) = split_digit(more) else {
        return Some(more);
    };
    if is_small(first, second, third) {
        Some(last)
    } else {
        None
    }
}

// What follows the octet and the `.` at the start of the bytes.
#[inline(always)]
fn after_dot(bytes: &[u8]) -> Option<&[u8]>
    ensures { MatchOption result (NoDotted bytes.now) (λ rest. FirstDotted bytes.now rest.now) }
{
    let (dot, rest) = after_octet(bytes)?.split_first()?;
    if *dot == b'.' { Some(rest) } else { None }
}

// What follows three octets, each with a `.` behind it.
#[inline(always)]
fn after_three(bytes: &[u8]) -> Option<&[u8]>
    ensures { MatchOption result (NotInThree bytes.now) (λ rest. LastOfFour bytes.now rest.now) }
{
    after_dot(after_dot(after_dot(bytes)?)?)
}

#[inline(always)]
fn is_octet(bytes: &[u8]) -> bool
    ensures { IsTrue result ↔ IsOctet bytes.now }
{
    match after_octet(bytes) {
        Some(rest) => rest.is_empty(),
        None => false,
    }
}

// Whether the bytes are an IPv4 address.
pub(super) fn reads_ipv4(bytes: &[u8]) -> bool
    ensures grammar { IsTrue result ↔ IsIpv4 bytes.now }
    ensures value { result ≡ is_ipv4_text bytes.now }
{
    match after_three(bytes) {
        Some(last) => is_octet(last),
        None => false,
    }
}

/// Whether the text is an IPv4 address: four octets joined by `.`.
///
/// An octet is 1 to 3 decimal digits with a value of at most 255, and begins with `0` only where it
/// is `0`. This is the dotted decimal form of RFC 6943, section 3.1.1, without its octal,
/// hexadecimal and shorter forms.
pub fn is_ipv4(text: &str) -> bool
    ensures grammar { IsTrue result ↔ IsIpv4 text.now }
    ensures value { result ≡ is_ipv4_text text.now }
{
    reads_ipv4(text.as_bytes())
}
