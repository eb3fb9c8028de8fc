//! A schema as a form.
ghost use Rattle.std.specs.Prelude.{◌≡◌, ⊤, Some};
ghost use Rattle.garde_described.specs.Faults.{faults};

use crate::check::check;
use garde::{I18n, Report, Trail};
use garde_schema::{Form, FormI18n, Tree};
use std::alloc::AllocError;

/// How many schemas may be asked, one in the other: a JSON text nests no deeper than 128, and of the
/// schemas that `MetaSchema` accepts 17 at most are asked of one value.
const DEPTH: usize = 2193;

/// A JSON Schema (draft 2020-12), which is a JSON value: a form that reads no value, but reports every
/// fault of a body at its path. What it asks is for a value that `MetaSchema` accepts: a keyword that is
/// not known is passed over, and so is one whose value is of another form.
#[derive(Debug, Drop)]
pub struct Schema<'s, 'a> {
    // The document.
    pub(crate) root: Tree<'s, 'a>,
    // How many schemas are asked at most, one in the other.
    pub(crate) depth: usize,
}

impl<'s, 'a> Schema<'s, 'a> {
    /// The schema that this document is.
    pub fn new(root: Tree<'s, 'a>) -> Schema<'s, 'a>
        ensures root { result.root ≡ root.entry }
        ensures depth { result.depth ≡ 2193 }
    {
        Schema { root, depth: DEPTH }
    }
}

impl<'s, 'a> Form<'a> for Schema<'s, 'a> {
    type Out = ();

    ghost visits = { λ form texts j. faults texts form.root form.depth form.root j };

    ghost value = { λ _ _. Some tt };

    ghost keeps = { λ _ _. ⊤ };

    fn read<'t, H: I18n + FormI18n>(
        &self,
        tree: &Tree<'t, 'a>,
        trail: &mut Trail<'a>,
        report: &mut Report,
        h: &H,
    ) -> Result<Option<()>, AllocError> {
        check(&self.root, self.depth, &self.root, tree, trail, report, h)?;
        Ok(Some(()))
    }
}
