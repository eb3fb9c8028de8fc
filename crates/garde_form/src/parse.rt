//! Parsers of texts.
ghost use Rattle.std.specs.Prelude.{◌≡◌, ℕ, Bool, List, Option, IfOk};
ghost use Rattle.std.specs.Cow.{cow_str_bytes};
ghost use Rattle.garde_schema.specs.Forms.{FormTexts};

use garde_schema::FormI18n;
use std::alloc::{AllocError, Global};
use std::borrow::CowStr;

/// A parser of texts.
pub trait Parse {
    /// What it makes of a text.
    type Value: Drop;

    /// Whether it reads bare values too.
    ghost bare: { Self → Bool };

    /// The value that a text spells. Another text spells none.
    ghost parsed: { Self → List ℕ → Option Self.Value };

    /// What is said of a text that spells none, where the faults of form have these texts.
    ghost message: { Self → FormTexts → List ℕ → List ℕ };

    /// Of a text that writes a number which is no value of this parser, the value that is nearest to
    /// it. Every other text has none, and so has each text of a parser that reads no numbers.
    ghost nearest: { Self → List ℕ → Option Self.Value };

    /// The value that the text spells.
    fn parse(&self, text: &str) -> Option<Self::Value>
        ensures { result ≡ parsed self.now text.now };

    /// Whether it reads bare values too, by their text: what TOML has without quotes and JSON does not
    /// have, as a date. Where this is false a bare value is no text.
    fn is_bare(&self) -> bool
        ensures { result ≡ bare self.now };

    /// What is said of the text, which spells none. `AllocError` is the only error.
    fn message<H: FormI18n>(
        &self,
        alloc: Global,
        text: &str,
        h: &H,
    ) -> Result<CowStr<'static>, AllocError>
        ensures { IfOk result (λ s.
            cow_str_bytes s ≡ message self.now (H.form_text h.now) text.now) };

    /// The value nearest to the number that the text writes, where `parse` returns none of a number.
    /// A parser that reads no numbers returns `None`.
    fn nearest(&self, text: &str) -> Option<Self::Value>
        ensures { result ≡ nearest self.now text.now };
}
