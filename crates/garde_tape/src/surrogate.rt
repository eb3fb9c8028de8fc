//! The escape of one half of a surrogate pair without the other.
ghost use Rattle.std.specs.Prelude.{◌≡◌, ◌+◌, ◌<◌, true, drop, slice_index, IsTrue};
ghost use Rattle.garde_tape.specs.Surrogate.{begins_half, begins_high, begins_lone, begins_low, is_high_digit, is_low_digit, lone_length, low_begun};

// Whether a byte is one of `8`, `9`, `A` and `B`.
fn is_high_digit(byte: u8) -> bool
    ensures { result ≡ is_high_digit byte }
{
    byte == b'8' || byte == b'9' || byte == b'A' || byte == b'B' || byte == b'a' || byte == b'b'
}

// Whether a byte is one of `C` to `F`.
fn is_low_digit(byte: u8) -> bool
    ensures { result ≡ is_low_digit byte }
{
    byte.is_ascii_hexdigit() && !(byte <= b'9') && !is_high_digit(byte)
}

// Whether bytes begin with the escape of a half.
fn begins_half(bytes: &[u8]) -> bool
    ensures { result ≡ begins_half bytes.now }
{
    bytes.len() >= 6
        && bytes[0] == b'\\'
        && bytes[1] == b'u'
        && (bytes[2] == b'D' || bytes[2] == b'd')
        && bytes[4].is_ascii_hexdigit()
        && bytes[5].is_ascii_hexdigit()
}

// Whether bytes begin with the escape of a first half.
fn begins_high(bytes: &[u8]) -> bool
    ensures { result ≡ begins_high bytes.now }
{
    begins_half(bytes) && is_high_digit(bytes[3])
}

// Whether bytes begin with the escape of a second half.
fn begins_low(bytes: &[u8]) -> bool
    ensures { result ≡ begins_low bytes.now }
{
    begins_half(bytes) && is_low_digit(bytes[3])
}

// Whether bytes begin with the escape of a half, and not with that of a pair.
fn begins_lone(bytes: &[u8]) -> bool
    ensures { result ≡ begins_lone bytes.now }
{
    begins_low(bytes) || (begins_high(bytes) && !begins_low(&bytes[6..]))
}

// The byte at an index, or 0 behind the end.
fn byte_at(bytes: &[u8], index: usize) -> u8
    ensures { result ≡ slice_index bytes.now index }
{
    match bytes.get(index) {
        Some(byte) => *byte,
        None => 0,
    }
}

// How many bytes begin as the escape of a second half does: fewer than 6, where it is none.
fn low_begun(bytes: &[u8]) -> usize
    ensures value { result ≡ low_begun bytes.now }
    ensures fewer { result < 6 }
{
    if byte_at(bytes, 0) != b'\\' {
        0
    } else if byte_at(bytes, 1) != b'u' {
        1
    } else if byte_at(bytes, 2) != b'D' && byte_at(bytes, 2) != b'd' {
        2
    } else if !is_low_digit(byte_at(bytes, 3)) {
        3
    } else if !byte_at(bytes, 4).is_ascii_hexdigit() {
        4
    } else {
        5
    }
}

// How many bytes of the escape of a half without the other a pair could have: the next one makes it none.
fn lone_length(bytes: &[u8]) -> usize
    requires { begins_lone bytes.now ≡ true }
    ensures { result ≡ lone_length bytes.now }
{
    if begins_low(bytes) {
        3
    } else {
        6 + low_begun(&bytes[6..])
    }
}

// Whether the escape of a half without the other begins at the first offset, and a pair could have it up
// to the second.
pub(crate) fn is_lone_between(text: &[u8], escape: usize, stop: usize) -> bool
    ensures { IsTrue result → (begins_lone (drop escape text.now) ≡ true)
        × (stop ≡ escape + lone_length (drop escape text.now)) }
{
    let Some(bytes) = text.get(escape..) else {
        return false;
    };
    match stop.checked_sub(escape) {
        Some(length) => begins_lone(bytes) && length == lone_length(bytes),
        None => false,
    }
}
