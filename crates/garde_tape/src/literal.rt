//! What may stand next in a number or a word of JSON (RFC 8259, sections 3 and 6).

/// What stands before it.
#[derive(Clone, Copy, Drop)]
pub(crate) enum Literal {
    /// A minus.
    Minus,
    /// The digit 0.
    Zero,
    /// Digits, of which the first is not 0.
    Whole,
    /// A point.
    Point,
    /// A point and digits.
    Fraction,
    /// The letter `e`.
    Exponent,
    /// The letter and a sign.
    Sign,
    /// The letter and digits.
    Power,
    /// So many bytes of `true`, `false` or `null`.
    Word(&'static [u8], usize),
}

impl Literal {
    /// Behind the first byte of one.
    pub(crate) fn of(byte: u8) -> Option<Literal> {
        match byte {
            b'-' => Some(Literal::Minus),
            b'0' => Some(Literal::Zero),
            b'1'..=b'9' => Some(Literal::Whole),
            b't' => Some(Literal::Word(b"true", 1)),
            b'f' => Some(Literal::Word(b"false", 1)),
            b'n' => Some(Literal::Word(b"null", 1)),
            _ => None,
        }
    }

    /// Behind another byte, if it is one more of it.
    pub(crate) fn with(self, byte: u8) -> Option<Literal> {
        match (self, byte) {
            (Literal::Minus, b'0') => Some(Literal::Zero),
            (Literal::Minus, b'1'..=b'9') | (Literal::Whole, b'0'..=b'9') => Some(Literal::Whole),
            (Literal::Zero | Literal::Whole, b'.') => Some(Literal::Point),
            (Literal::Point | Literal::Fraction, b'0'..=b'9') => Some(Literal::Fraction),
            (Literal::Zero | Literal::Whole | Literal::Fraction, b'e' | b'E') => {
                Some(Literal::Exponent)
            }
            (Literal::Exponent, b'+' | b'-') => Some(Literal::Sign),
            (Literal::Exponent | Literal::Sign | Literal::Power, b'0'..=b'9') => {
                Some(Literal::Power)
            }
            (Literal::Word(word, count), _) if word.get(count) == Some(&byte) => {
                Some(Literal::Word(word, count + 1))
            }
            _ => None,
        }
    }

    /// Whether it may end here.
    pub(crate) fn may_end(self) -> bool {
        match self {
            Literal::Zero | Literal::Whole | Literal::Fraction | Literal::Power => true,
            Literal::Word(word, count) => count >= word.len(),
            _ => false,
        }
    }

    /// Why no other byte may stand here.
    pub(crate) fn why(self) -> &'static str {
        match self {
            Literal::Word(_, _) => "expected true, false or null",
            Literal::Exponent => "expected a digit or a sign",
            _ => "expected a digit",
        }
    }
}
