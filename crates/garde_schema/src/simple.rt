//! `true` and `false`, `null`, and whatever there is.
ghost use Rattle.std.specs.Prelude.{◌≡◌, Some};
ghost use Rattle.json.specs.Find.{as_bool, is_null};
ghost use Rattle.garde.specs.Visits.{Known, none};
ghost use Rattle.garde_tape.specs.Look.{kind_of};
ghost use Rattle.garde_schema.specs.declared.fault.FormFault.TheVariants.{Wrong};
ghost use Rattle.garde_schema.specs.declared.fault.Wanted.TheVariants as wanted;
ghost use Rattle.garde_schema.specs.Forms.{formed, where_true};

use crate::fault::Wanted;
use crate::form::Form;
use crate::handler::FormI18n;
use crate::leaf::read_seen;
use garde::{I18n, Report, Trail};
use garde_tape::Tree;
use std::alloc::AllocError;

/// `true` or `false`.
#[derive(Clone, Copy, Debug)]
pub struct Flag;

impl<'a> Form<'a> for Flag {
    type Out = bool;

    ghost visits = { λ _ texts j.
        formed (texts (Wrong wanted.Boolean (kind_of j))) (λ _. none) (as_bool j) };

    ghost value = { λ _ j. as_bool j };

    ghost keeps = { λ _ _. Known none };

    fn read<'t, H: I18n + FormI18n>(
        &self,
        tree: &Tree<'t, 'a>,
        trail: &mut Trail<'a>,
        report: &mut Report,
        h: &H,
    ) -> Result<Option<bool>, AllocError> {
        let seen = tree.as_bool();
        read_seen(tree, &Wanted::Boolean, seen, &(), trail, report, h)
    }
}

/// `null`.
#[derive(Clone, Copy, Debug)]
pub struct Null;

// The value of `null`.
#[inline(always)]
fn null_of(tree: &Tree<'_, '_>) -> Option<()>
    ensures { result ≡ where_true (is_null tree.now) }
{
    if tree.is_null() { Some(()) } else { None }
}

impl<'a> Form<'a> for Null {
    type Out = ();

    ghost visits = { λ _ texts j.
        formed (texts (Wrong wanted.Null (kind_of j))) (λ _. none) (where_true (is_null j)) };

    ghost value = { λ _ j. where_true (is_null j) };

    ghost keeps = { λ _ _. Known none };

    fn read<'t, H: I18n + FormI18n>(
        &self,
        tree: &Tree<'t, 'a>,
        trail: &mut Trail<'a>,
        report: &mut Report,
        h: &H,
    ) -> Result<Option<()>, AllocError> {
        let seen = null_of(tree);
        read_seen(tree, &Wanted::Null, seen, &(), trail, report, h)
    }
}

/// Whatever there is. It is not read.
#[derive(Clone, Copy, Debug)]
pub struct Any;

impl<'a> Form<'a> for Any {
    type Out = ();

    ghost visits = { λ _ _ _. none };

    ghost value = { λ _ _. Some tt };

    ghost keeps = { λ _ _. Known none };

    fn read<'t, H: I18n + FormI18n>(
        &self,
        _tree: &Tree<'t, 'a>,
        _trail: &mut Trail<'a>,
        _report: &mut Report,
        _h: &H,
    ) -> Result<Option<()>, AllocError> {
        Ok(Some(()))
    }
}
