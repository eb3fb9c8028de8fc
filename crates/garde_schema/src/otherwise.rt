//! A variant of every name.
ghost use Rattle.std.specs.Prelude.{Some};

use crate::form::{Form, Members};
use crate::handler::FormI18n;
use crate::variants::Variants;
use garde::{I18n, Report, Trail};
use garde_tape::Tree;
use std::alloc::AllocError;

/// A variant of every name, with these members. It stands behind those that have one, as serde reads a
/// variant with `#[serde(other)]`: `Tagged("kind", (Variant("card", card), Otherwise(Member("kind", Any))))`.
#[derive(Clone, Copy, Debug)]
pub struct Otherwise<M>(pub M);

impl<'a, M: Members<'a>> Variants<'a> for Otherwise<M> {
    type Choice = ();

    type Out = M::Out;

    ghost chosen = { λ _ _. Some tt };

    ghost visits = { λ variant _ _ texts j. M.visits variant.0 texts j };

    ghost value = { λ variant _ j. M.value variant.0 j };

    ghost keeps = { λ variant out. M.keeps variant.0 out };

    ghost names = { λ variant _ name. M.names variant.0 name };

    fn choose(&self, _name: &str) -> Option<()> {
        Some(())
    }

    fn read_variant<'t, H: I18n + FormI18n>(
        &self,
        _choice: (),
        _tag: &'a str,
        object: &Tree<'t, 'a>,
        trail: &mut Trail<'a>,
        report: &mut Report,
        h: &H,
    ) -> Result<Option<M::Out>, AllocError> {
        self.0.read_members(object, trail, report, h)
    }

    fn names(&self, _choice: (), name: &str) -> bool {
        self.0.names(name)
    }
}
