//! A text that may be empty.
ghost use Rattle.std.specs.Prelude.{◌≡◌, Option, Some, option_map, IfOk};
ghost use Rattle.json.specs.Find.{as_str};
ghost use Rattle.garde_schema.specs.Forms.{forget, KeepsSome};
ghost use Rattle.garde_schema.specs.Nulls.{nullable_value, nullable_visits};
ghost use Rattle.garde_form.specs.Texts.{is_empty};

use crate::parsed::text_of;
use garde::{I18n, Report, Trail};
use garde_schema::{Form, FormI18n, Tree};
use std::alloc::AllocError;

/// A value of this form, or the empty text, as a browser sends a field that is not filled in. The
/// value is an option, and `None` where the empty text stands.
#[derive(Clone, Copy, Debug)]
pub struct OrEmpty<F>(pub F);

// Whether a tree is the empty text.
fn is_empty(tree: &Tree<'_, '_>) -> bool
    ensures { result ≡ is_empty (as_str tree.now) }
{
    match text_of(tree) {
        Some(text) => text.text().len() == 0,
        None => false,
    }
}

// The value, as that of a text that is there.
#[inline(always)]
fn present<T: Drop>(read: Result<Option<T>, AllocError>) -> Result<Option<Option<T>>, AllocError>
    ensures answer { forget result ≡ forget read }
    ensures value { (is : Option T) → IfOk read (λ out. out ≡ is)
        → IfOk result (λ out. out ≡ option_map (λ v. Some v) is) }
{
    match read {
        Ok(Some(value)) => Ok(Some(Some(value))),
        Ok(None) => Ok(None),
        Err(refused) => Err(refused),
    }
}

impl<'a, F: Form<'a>> Form<'a> for OrEmpty<F> {
    type Out = Option<F::Out>;

    ghost visits = { λ form texts j.
        nullable_visits (F.visits form.0 texts j) (is_empty (as_str j)) };

    ghost value = { λ form j. nullable_value (F.value form.0 j) (is_empty (as_str j)) };

    ghost keeps = { λ form out. KeepsSome (λ v. F.keeps form.0 v) out };

    fn read<'t, H: I18n + FormI18n>(
        &self,
        tree: &Tree<'t, 'a>,
        trail: &mut Trail<'a>,
        report: &mut Report,
        h: &H,
    ) -> Result<Option<Option<F::Out>>, AllocError> {
        if is_empty(tree) {
            return Ok(Some(None));
        }
        let read = self.0.read(tree, trail, report, h);
        present(read)
    }
}
