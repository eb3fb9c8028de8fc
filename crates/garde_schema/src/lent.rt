//! Forms that are used at several places.

use crate::form::Form;
use crate::handler::FormI18n;
use garde::{I18n, Report, Trail};
use garde_tape::Tree;
use std::alloc::AllocError;

/// The form itself. So one form may be read at several places, for instance that of an address at
/// `Member("billing", &address)` and at `Nullish("shipping", &address)`.
impl<'a, 'f, F: Form<'a>> Form<'a> for &'f F {
    type Out = F::Out;

    ghost visits = { λ form texts j. F.visits form.now texts j };

    ghost value = { λ form j. F.value form.now j };

    ghost keeps = { λ form out. F.keeps form.now out };

    fn read<'t, H: I18n + FormI18n>(
        &self,
        tree: &Tree<'t, 'a>,
        trail: &mut Trail<'a>,
        report: &mut Report,
        h: &H,
    ) -> Result<Option<F::Out>, AllocError> {
        (**self).read(tree, trail, report, h)
    }
}
