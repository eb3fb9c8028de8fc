//! Whether a request by `HEAD` may have come: its answer has no content (RFC 9110, section 9.3.2).
ghost use Rattle.std.specs.Prelude.{◌≡◌};
ghost use Rattle.garde_service.specs.Heads.{looked, next};

/// How much of `HEAD ` the bytes that came end with, or that it is among them.
#[derive(Clone, Copy, Debug)]
pub(crate) enum Seen {
    Nothing,
    H,
    He,
    Hea,
    Head,
    Found,
}

impl Seen {
    /// After one more byte.
    fn next(self, byte: u8) -> Seen
        ensures { result ≡ next self byte }
    {
        match self {
            Seen::Found => Seen::Found,
            Seen::Head if byte == b' ' => Seen::Found,
            Seen::Hea if byte == b'D' => Seen::Head,
            Seen::He if byte == b'A' => Seen::Hea,
            Seen::H if byte == b'E' => Seen::He,
            _ if byte == b'H' => Seen::H,
            _ => Seen::Nothing,
        }
    }

    /// After more bytes.
    pub(crate) fn after(self, bytes: &[u8]) -> Seen
        ensures { result ≡ looked self bytes.now }
    {
        let mut seen = self;
        for byte in bytes {
            seen = seen.next(*byte);
        }
        seen
    }
}
