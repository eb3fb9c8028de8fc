//! The reader of IPv6 texts.
ghost use Rattle.std.specs.Prelude.{◌≡◌, ◌↔◌, ◌+◌, ◌≤◌, IsTrue};
ghost use Rattle.garde_engines.specs.Ip.{IsIpv6};
ghost use Rattle.garde_engines.specs.IpText.{is_ipv6_text};
ghost use Rattle.garde_engines.specs.Ipv6Reader.{accepts_ipv6, start_ipv6, read_ipv6, read_colon, read_digit, read_double, ends_ipv6, is_full};

use crate::addresses::v4::reads_ipv4;

// Where in a text the reader stands.
#[derive(Clone, Copy)]
pub(super) enum Place {
    // At the start.
    Start,
    // After a `:` at the start.
    Lead,
    // After the `:` behind a group.
    Colon,
    // After `::`.
    Double,
    // In a piece between colons, after so many digits.
    Piece(u8),
}

// What was read of an address: how many groups, whether `::` stood among them, and the place.
#[derive(Clone, Copy)]
pub(super) struct Ipv6Reader {
    groups: u8,
    compressed: bool,
    place: Place,
}

// Whether so many groups and these more are an address.
fn is_full(compressed: bool, groups: u8, more: u8) -> bool
    requires { more ≤ 7 }
    ensures { result ≡ is_full compressed (groups + more) }
{
    if compressed {
        groups <= 7 - more
    } else {
        groups == 8 - more
    }
}

impl Ipv6Reader {
    // At the start of a text.
    fn new() -> Ipv6Reader
        ensures { result ≡ start_ipv6 }
    {
        Ipv6Reader {
            groups: 0,
            compressed: false,
            place: Place::Start,
        }
    }

    fn read_double(self) -> Ipv6Reader
        ensures { result ≡ read_double self }
    {
        Ipv6Reader {
            compressed: true,
            place: Place::Double,
            ..self
        }
    }

    fn read_colon(self) -> Option<Ipv6Reader>
        ensures { result ≡ read_colon self.place self }
    {
        match self.place {
            Place::Start => Some(Ipv6Reader {
                place: Place::Lead,
                ..self
            }),
            Place::Lead => Some(self.read_double()),
            Place::Colon if !self.compressed => Some(self.read_double()),
            Place::Piece(_) if self.groups < 8 => Some(Ipv6Reader {
                groups: self.groups + 1,
                place: Place::Colon,
                ..self
            }),
            _ => None,
        }
    }

    fn read_digit(self) -> Option<Ipv6Reader>
        ensures { result ≡ read_digit self.place self }
    {
        let digits = match self.place {
            Place::Start | Place::Colon | Place::Double => 0,
            Place::Piece(digits) if digits < 4 => digits,
            _ => return None,
        };
        Some(Ipv6Reader {
            place: Place::Piece(digits + 1),
            ..self
        })
    }

    // After one more byte, which is no `.`, if an address may go on with it.
    fn read(self, byte: u8) -> Option<Ipv6Reader>
        ensures { result ≡ read_ipv6 self byte }
    {
        if byte == b':' {
            self.read_colon()
        } else if byte.is_ascii_hexdigit() {
            self.read_digit()
        } else {
            None
        }
    }

    // Whether an address may end here.
    fn may_end(self) -> bool
        ensures { result ≡ ends_ipv6 self }
    {
        match self.place {
            Place::Start | Place::Lead | Place::Colon => false,
            Place::Double => self.groups <= 7,
            Place::Piece(_) => is_full(self.compressed, self.groups, 1),
        }
    }
}

// At the first `.` the whole piece is read as an IPv4 address, which ends the text.
fn reads_ipv6(text: &str) -> bool
    ensures { result ≡ accepts_ipv6 start_ipv6 text.now text.now }
{
    let bytes = text.as_bytes();
    let mut reader = Ipv6Reader::new();
    let mut piece = 0;
    for (at, byte) in bytes.iter().enumerate() {
        if *byte == b'.' {
            return is_full(reader.compressed, reader.groups, 2) && reads_ipv4(&bytes[piece..]);
        }
        match reader.read(*byte) {
            Some(next) => reader = next,
            None => return false,
        }
        if *byte == b':' {
            piece = at + 1;
        }
    }
    reader.may_end()
}

/// Whether the text is an IPv6 address: eight groups joined by `:`, or at most seven where one `::`
/// stands for those that are left out. An IPv4 address may stand for the last two groups.
///
/// A group is 1 to 4 hexadecimal digits. These are the three forms of RFC 4291, section 2.2. There
/// is no zone, no bracket and no blank, and `::` stands for at least one group.
pub fn is_ipv6(text: &str) -> bool
    ensures grammar { IsTrue result ↔ IsIpv6 text.now }
    ensures value { result ≡ is_ipv6_text text.now }
{
    reads_ipv6(text)
}
