//! Where the tokens of a JSON text begin, a byte at a time.
ghost use Rattle.std.specs.Prelude.{◌≡◌};
ghost use Rattle.json.specs.Lex.{class};
ghost use Rattle.garde_places.specs.Lex.{class_of, begins_at, mode_after};

/// What a byte is to the lexer.
#[derive(Clone, Copy, Drop)]
pub(crate) enum Kind {
    Quote,
    Backslash,
    Bracket,
    Mark,
    Space,
    Other,
}

/// What a byte stands in.
#[derive(Clone, Copy, Drop)]
pub(crate) enum Mode {
    Between,
    Word,
    Text,
    Escape,
}

impl Kind {
    fn of(byte: u8) -> Kind
        ensures { class_of result byte }
    {
        match byte {
            b'"' => Kind::Quote,
            b'\\' => Kind::Backslash,
            b'{' | b'}' | b'[' | b']' => Kind::Bracket,
            b',' | b':' => Kind::Mark,
            b' ' | b'\t' | b'\n' | b'\r' => Kind::Space,
            _ => Kind::Other,
        }
    }
}

impl Mode {
    /// Whether a token begins at the byte, and what the next byte stands in.
    pub(crate) fn turn(self, byte: u8) -> (bool, Mode)
        ensures { (result.0 ≡ begins_at self byte) × (result.1 ≡ mode_after self byte) }
    {
        match (self, Kind::of(byte)) {
            (Mode::Between, Kind::Quote) => (true, Mode::Text),
            (Mode::Between, Kind::Backslash | Kind::Other) => (true, Mode::Word),
            (Mode::Between | Mode::Word, Kind::Bracket) => (true, Mode::Between),
            (Mode::Between | Mode::Word, Kind::Mark | Kind::Space) => (false, Mode::Between),
            (Mode::Word, _) => (false, Mode::Word),
            (Mode::Text, Kind::Quote) => (false, Mode::Between),
            (Mode::Text, Kind::Backslash) => (false, Mode::Escape),
            (Mode::Text | Mode::Escape, _) => (false, Mode::Text),
        }
    }
}
