//! Types of values that texts write.
ghost use Rattle.std.specs.Prelude.{◌≡◌, ℕ, List, Option};
ghost use Rattle.garde_form.specs.declared.text_type.TextKind.{TextKind};
ghost use Rattle.garde_form.specs.Texts.{fault_in, is_bare, nearest_in};

use crate::numbers::{fault_of, nearest_of};
use crate::parse::Parse;
use garde_schema::{FormFault, FormI18n, Integer, Kind, Wanted};
use std::alloc::{AllocError, Global};
use std::borrow::CowStr;

/// How the texts of a type are read.
#[derive(Clone, Copy, Debug, Drop)]
pub enum TextKind<T> {
    /// In quotes alone. This is wanted in place of a text that spells no value.
    Quoted(Wanted),
    /// In quotes, and as bare values. This is wanted in place of a text that spells no value.
    Bare(Wanted),
    /// In quotes alone. They write the whole numbers of this type, from the least to the greatest.
    Number(Integer, T, T),
}

impl<T: Drop> TextKind<T> {
    // What is wrong with a text that spells no value.
    fn fault(self, text: &str) -> FormFault
        ensures { result ≡ fault_in self text.now }
    {
        match self {
            TextKind::Quoted(wanted) => FormFault::Wrong(wanted, Kind::Text),
            TextKind::Bare(wanted) => FormFault::Wrong(wanted, Kind::Text),
            TextKind::Number(integer, _, _) => fault_of(text, integer),
        }
    }

    // The value nearest to a number that a text writes, where the type does not hold it.
    fn nearest(self, text: &str) -> Option<T>
        ensures { result ≡ nearest_in self text.now }
    {
        match self {
            TextKind::Number(_, least, most) => nearest_of(text, least, most),
            _ => None,
        }
    }
}

/// A type of values that texts write. It is a parser, whose faults the library names.
pub trait TextType {
    /// What it makes of a text.
    type Value: Drop;

    /// How its texts are read.
    ghost KIND: { TextKind Self.Value };

    /// How its texts are read.
    const KIND: TextKind<Self::Value>;

    /// The value that a text spells. Another text spells none.
    ghost parsed: { List ℕ → Option Self.Value };

    /// The value that the text spells.
    fn read(text: &str) -> Option<Self::Value>
        ensures { result ≡ parsed text.now };
}

impl<P: TextType> Parse for P {
    type Value = P::Value;

    ghost bare = { λ _. is_bare P.KIND };

    ghost parsed = { λ _ text. P.parsed text };

    ghost message = { λ _ texts text. texts (fault_in P.KIND text) };

    ghost nearest = { λ _ text. nearest_in P.KIND text };

    fn parse(&self, text: &str) -> Option<P::Value> {
        P::read(text)
    }

    fn is_bare(&self) -> bool {
        matches!(P::KIND, TextKind::Bare(_))
    }

    fn message<H: FormI18n>(
        &self,
        alloc: Global,
        text: &str,
        h: &H,
    ) -> Result<CowStr<'static>, AllocError> {
        h.form_fault(alloc, P::KIND.fault(text))
    }

    fn nearest(&self, text: &str) -> Option<P::Value> {
        P::KIND.nearest(text)
    }
}
