//! Folders, which hold folders in a vector.
ghost use Rattle.std.proofs.Common.{arith};
ghost use Rattle.garde.proofs.Author.{smaller_in};
ghost use Rattle.garde.specs.Fields.{between, bytes, field, in_vec, is, nest_visits, str};
ghost use Rattle.example_types.specs.declared.recursive.folder.Folder.{out-Folder, size-Folder, size_is-Folder};

use garde::fields::{Field, Fields, Is};
use garde::recursive::{Recursive, walk};
use garde::{I18n, Report, Stated, Trail, Validate, length};
use std::alloc::AllocError;

/// A folder and the folders in it, each with a name of 1 to 9 bytes.
#[derive(Drop)]
pub struct Folder {
    pub name: String,
    pub folders: Vec<Folder>,
}

impl Recursive for Folder {
    type Context = ();

    type Children = Vec<Folder>;

    ghost nest = { record {
      own = λ v _. field "name" (is (bytes (between 1 9) (str (out-Folder v).name)));
      name = "folders";
      children = λ v. in_vec (out-Folder v).folders;
      size = size-Folder;
      smaller = λ v k x has. omega (arith, size_is-Folder v, smaller_in size-Folder _ _ has);
    } };

    fn children(&self) -> (&'static str, &Vec<Folder>) {
        ("folders", &self.folders)
    }

    fn visit_own<'a, H: I18n>(
        &'a self,
        _ctx: &(),
        trail: &mut Trail<'a>,
        report: &mut Report,
        h: &H,
    ) -> Result<(), AllocError> {
        let Self { name, folders: _ } = self;
        Field("name", name, Is(length!(min = 1, max = 9))).visit(trail, report, h)
    }
}

impl Stated for Folder {
    type Context = ();

    ghost visits = { nest_visits ⟦<Folder as Recursive>⟧.nest };
}

impl Validate for Folder {
    fn validate_into<'a, H: I18n>(
        &'a self,
        ctx: &(),
        trail: &mut Trail<'a>,
        report: &mut Report,
        h: &H,
    ) -> Result<(), AllocError> {
        walk(self, ctx, trail, report, h)
    }
}
