//! Parsers that may allocate.
ghost use Rattle.std.specs.Prelude.{◌≡◌, ℕ, List, Option, IfOk};
ghost use Rattle.std.specs.Cow.{cow_str_bytes};
ghost use Rattle.garde_schema.specs.Forms.{FormTexts};

use garde_schema::FormI18n;
use std::alloc::{AllocError, Global};
use std::borrow::CowStr;

/// A parser of texts that may allocate, as `Parse` of `garde_form` is one that does not.
pub trait ParseInMemory {
    /// What it makes of a text.
    type Value: Drop;

    /// The value that a text spells. Another text spells none.
    ghost parsed: { Self → List ℕ → Option Self.Value };

    /// What is said of a text that spells none, where the faults of form have these texts.
    ghost message: { Self → FormTexts → List ℕ → List ℕ };

    /// The value that the text spells. `AllocError` is the only error.
    fn parse(&self, alloc: Global, text: &str) -> Result<Option<Self::Value>, AllocError>
        ensures { IfOk result (λ out. out ≡ parsed self.now text.now) };

    /// What is said of the text, which spells none. `AllocError` is the only error.
    fn message<H: FormI18n>(
        &self,
        alloc: Global,
        text: &str,
        h: &H,
    ) -> Result<CowStr<'static>, AllocError>
        ensures { IfOk result (λ s.
            cow_str_bytes s ≡ message self.now (H.form_text h.now) text.now) };
}
