//! Objects.
ghost use Rattle.std.specs.Prelude.{◌≡◌, option_and_then};
ghost use Rattle.json.specs.Find.{as_object};
ghost use Rattle.garde_tape.specs.Look.{kind_of};
ghost use Rattle.garde_schema.specs.declared.fault.FormFault.TheVariants.{Wrong};
ghost use Rattle.garde_schema.specs.declared.fault.Wanted.TheVariants as wanted;
ghost use Rattle.garde_schema.specs.Forms.{formed};

use crate::fault::{FormFault, Wanted};
use crate::form::{Form, Members};
use crate::handler::FormI18n;
use crate::put::{put, with};
use garde::{I18n, Report, Trail};
use garde_tape::Tree;
use std::alloc::AllocError;

/// An object with these members. The value is theirs.
#[derive(Clone, Copy, Debug)]
pub struct Object<M>(pub M);

impl<'a, M: Members<'a>> Form<'a> for Object<M> {
    type Out = M::Out;

    ghost visits = { λ form texts j. formed (texts (Wrong wanted.Object (kind_of j)))
        (λ _. M.visits form.0 texts j) (as_object j) };

    ghost value = { λ form j. option_and_then (λ _. M.value form.0 j) (as_object j) };

    ghost keeps = { λ form out. M.keeps form.0 out };

    fn read<'t, H: I18n + FormI18n>(
        &self,
        tree: &Tree<'t, 'a>,
        trail: &mut Trail<'a>,
        report: &mut Report,
        h: &H,
    ) -> Result<Option<M::Out>, AllocError> {
        match tree.members() {
            Some(_) => self.0.read_members(tree, trail, report, h),
            None => {
                let fault = FormFault::Wrong(Wanted::Object, tree.kind());
                with(put(fault, trail, report, h), None)
            }
        }
    }
}
