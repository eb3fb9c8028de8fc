//! A value that may be null.
ghost use Rattle.json.specs.Find.{is_null};
ghost use Rattle.garde_schema.specs.Forms.{KeepsSome};
ghost use Rattle.garde_schema.specs.Nulls.{nullable_value, nullable_visits};

use crate::form::Form;
use crate::handler::FormI18n;
use crate::optional::present;
use garde::{I18n, Report, Trail};
use garde_tape::Tree;
use std::alloc::AllocError;

/// A value of this form, or `null`. The value is an option, and `None` where `null` stands.
#[derive(Clone, Copy, Debug)]
pub struct Nullable<F>(pub F);

impl<'a, F: Form<'a>> Form<'a> for Nullable<F> {
    type Out = Option<F::Out>;

    ghost visits = { λ form texts j. nullable_visits (F.visits form.0 texts j) (is_null j) };

    ghost value = { λ form j. nullable_value (F.value form.0 j) (is_null j) };

    ghost keeps = { λ form out. KeepsSome (λ v. F.keeps form.0 v) out };

    fn read<'t, H: I18n + FormI18n>(
        &self,
        tree: &Tree<'t, 'a>,
        trail: &mut Trail<'a>,
        report: &mut Report,
        h: &H,
    ) -> Result<Option<Option<F::Out>>, AllocError> {
        if tree.is_null() {
            Ok(Some(None))
        } else {
            let read = self.0.read(tree, trail, report, h);
            present(read)
        }
    }
}
