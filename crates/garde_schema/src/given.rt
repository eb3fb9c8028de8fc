//! A member that is not read.
ghost use Rattle.std.specs.Prelude.{◌≡◌, Some, false};
ghost use Rattle.garde.specs.Visits.{none};

use crate::form::Members;
use crate::handler::FormI18n;
use crate::makes::Makes;
use garde::{I18n, Report, Trail};
use garde_tape::Tree;
use std::alloc::AllocError;
use std::marker::PhantomData;

/// Members of which none is asked for: the value is the one that this makes, whatever the object has.
/// It is the field that serde skips.
///
/// Where the compiler does not find the type of the value from the use, name it by
/// `PhantomData::<&Items<TextRef<'_>>>`. `Closed` does not know a member of the field's name.
#[derive(Clone, Copy, Debug)]
pub struct Given<'a, M, T>(pub M, pub PhantomData<&'a T>);

impl<'a, T: Drop, M: Makes<T>> Members<'a> for Given<'a, M, T> {
    type Out = T;

    ghost visits = { λ _ _ _. none };

    ghost value = { λ given _. Some (M.made given.0) };

    ghost keeps = { λ given out. out ≡ M.made given.0 };

    ghost names = { λ _ _. false };

    fn read_members<'t, H: I18n + FormI18n>(
        &self,
        _object: &Tree<'t, 'a>,
        trail: &mut Trail<'a>,
        _report: &mut Report,
        _h: &H,
    ) -> Result<Option<T>, AllocError> {
        Ok(Some(self.0.make(trail.alloc())))
    }

    fn names(&self, _name: &str) -> bool {
        false
    }
}
