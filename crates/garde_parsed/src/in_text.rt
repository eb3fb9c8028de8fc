//! Texts of a layout, in quotes.
ghost use Rattle.std.specs.Prelude.{◌≡◌, false, None};
ghost use Rattle.garde_parsed.specs.Layouts.{laid_out};

use crate::layout::Layout;
use garde_form::Parse;
use garde_schema::FormI18n;
use std::alloc::{AllocError, Global};
use std::borrow::CowStr;

/// What this parser reads in texts of this layout: `Parsed(InText(Date, Layout::Date), ())`.
///
/// It reads no bare value. So it reads in JSON what serde reads there: with `Layout::Any` the texts of
/// the types of `jiff`, and with the others some of those of `chrono` and `time`, and no other text.
#[derive(Clone, Copy, Debug)]
pub struct InText<P>(pub P, pub Layout);

impl<P: Parse> Parse for InText<P> {
    type Value = P::Value;

    ghost bare = { λ _. false };

    ghost parsed = { λ of text. laid_out of.1 (λ s. P.parsed of.0 s) text };

    ghost message = { λ of texts text. P.message of.0 texts text };

    ghost nearest = { λ _ _. None };

    fn parse(&self, text: &str) -> Option<P::Value> {
        if self.1.is_of(text) {
            self.0.parse(text)
        } else {
            None
        }
    }

    fn is_bare(&self) -> bool {
        false
    }

    fn message<H: FormI18n>(
        &self,
        alloc: Global,
        text: &str,
        h: &H,
    ) -> Result<CowStr<'static>, AllocError> {
        self.0.message(alloc, text, h)
    }

    fn nearest(&self, _text: &str) -> Option<P::Value> {
        None
    }
}
