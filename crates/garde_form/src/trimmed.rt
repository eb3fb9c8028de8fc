//! A text without the white space at its ends.
ghost use Rattle.garde_form.specs.Texts.{trimmed};

use garde::{I18n, Report, Trail};
use garde_schema::{Form, FormI18n, Tree};
use std::alloc::AllocError;

/// A value of this form, with the white space at both ends of its text dropped, as people paste it:
/// ` 36 ` is read as `36`. White space is that of `str::trim` (Unicode, `White_Space`).
#[derive(Clone, Copy, Debug)]
pub struct Trimmed<F>(pub F);

impl<'a, F: Form<'a>> Form<'a> for Trimmed<F> {
    type Out = F::Out;

    ghost visits = { λ form texts j. F.visits form.0 texts (trimmed j) };

    ghost value = { λ form j. F.value form.0 (trimmed j) };

    ghost keeps = { λ form out. F.keeps form.0 out };

    fn read<'t, H: I18n + FormI18n>(
        &self,
        tree: &Tree<'t, 'a>,
        trail: &mut Trail<'a>,
        report: &mut Report,
        h: &H,
    ) -> Result<Option<F::Out>, AllocError> {
        match tree.as_str() {
            Some(text) => self.0.read(&Tree::text(text.trim()), trail, report, h),
            None => self.0.read(tree, trail, report, h),
        }
    }
}
