//! What may stand next in a text of JSON (RFC 8259, section 7).

/// What stands next.
#[derive(Clone, Copy, Drop)]
pub(crate) enum Quoted {
    /// A character, an escape or the quote at the end.
    Plain,
    /// What a backslash escapes.
    Escape,
    /// So many digits of the number of a character, behind these. The other half of a surrogate pair is
    /// `Low`.
    Digits(u8, u32),
    /// The escape of the other half of a surrogate pair, from its backslash, or from its `u` on.
    LowBackslash,
    LowLetter,
    /// So many digits of it.
    Low(u8, u32),
}

impl Quoted {
    /// Behind the first quote.
    pub(crate) const START: Quoted = Quoted::Plain;

    /// Whether the byte is the quote at the end.
    pub(crate) fn ends(self, byte: u8) -> bool {
        matches!(self, Quoted::Plain) && byte == b'"'
    }

    /// Behind another byte, if it may stand here.
    pub(crate) fn with(self, byte: u8) -> Option<Quoted> {
        match (self, byte) {
            (Quoted::Plain, b'\\') => Some(Quoted::Escape),
            (Quoted::Plain, 0..32) => None,
            (Quoted::Plain, _) => Some(Quoted::Plain),
            (Quoted::Escape, b'u') => Some(Quoted::Digits(4, 0)),
            (Quoted::Escape, _) => with_escape(byte),
            (Quoted::LowBackslash, b'\\') => Some(Quoted::LowLetter),
            (Quoted::LowLetter, b'u') => Some(Quoted::Low(4, 0)),
            (Quoted::LowBackslash | Quoted::LowLetter, _) => None,
            (Quoted::Digits(left, number), _) => with_digit(left, number, byte),
            (Quoted::Low(left, number), _) => with_low_digit(left, number, byte),
        }
    }

    /// Why this byte may not stand here.
    pub(crate) fn why(self, byte: u8) -> &'static str {
        match self {
            Quoted::Plain => "a control character in a text",
            Quoted::Escape => "no such escape",
            Quoted::Digits(_, _) if digit_of(byte).is_some() => {
                "expected no second half of a surrogate pair"
            }
            Quoted::Digits(_, _) => "expected a hexadecimal digit",
            Quoted::LowBackslash | Quoted::LowLetter | Quoted::Low(_, _) => {
                "expected the second half of a surrogate pair"
            }
        }
    }

    /// How many bytes of an escape of half a surrogate pair stand behind, where this byte may not stand
    /// here since it would leave the half alone.
    pub(crate) fn half(self, byte: u8) -> Option<usize> {
        match self {
            Quoted::Plain | Quoted::Escape => None,
            Quoted::Digits(_, _) => digit_of(byte).and(Some(3)),
            Quoted::LowBackslash => Some(6),
            Quoted::LowLetter => Some(7),
            Quoted::Low(left, _) => Some(12usize.saturating_sub(usize::from(left))),
        }
    }
}

fn with_escape(byte: u8) -> Option<Quoted> {
    match byte {
        b'"' | b'\\' | b'/' | b'b' | b'f' | b'n' | b'r' | b't' => Some(Quoted::Plain),
        _ => None,
    }
}

// The value of a hexadecimal digit.
fn digit_of(byte: u8) -> Option<u32> {
    char::from(byte).to_digit(16)
}

fn with_digit(left: u8, number: u32, byte: u8) -> Option<Quoted> {
    let number = (number & 0xfff) * 16 | digit_of(byte)?;
    match (left, number) {
        (3, 0xdc..=0xdf) => None,
        (2..=4, _) => Some(Quoted::Digits(left - 1, number)),
        (_, 0xd800..=0xdbff) => Some(Quoted::LowBackslash),
        _ => Some(Quoted::Plain),
    }
}

fn with_low_digit(left: u8, number: u32, byte: u8) -> Option<Quoted> {
    let number = (number & 0xfff) * 16 | digit_of(byte)?;
    match (left, number) {
        (4, 0xd) => Some(Quoted::Low(3, number)),
        (3, 0xdc..=0xdf) => Some(Quoted::Low(2, number)),
        (2, _) => Some(Quoted::Low(1, number)),
        (1, _) => Some(Quoted::Plain),
        _ => None,
    }
}
