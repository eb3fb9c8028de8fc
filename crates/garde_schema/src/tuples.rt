//! Tuples of members, of one to six. More are tuples in tuples, by `all!`.
ghost use Rattle.std.specs.Prelude.{◌≡◌, ◌||◌, Some, false};
ghost use Rattle.garde.specs.Visits.{Known, none, ◌and◌};
ghost use Rattle.garde_schema.specs.Flat.{all1};
ghost use Rattle.garde_schema.specs.Forms.{both};

/// References to the members of a tuple: those at the first indexes, and a tuple of the others.
macro_rules! nested {
    ($tuple:expr; [$($front:tt)+] [$($rest:tt)+]) => {
        ($(&$tuple.$front),+, ($(&$tuple.$rest),+))
    };
}

mod flat;
mod short;

use crate::form::Members;
use crate::handler::FormI18n;
use garde::{I18n, Report, Trail};
use garde_tape::Tree;
use std::alloc::AllocError;

/// No member is asked for: `Object(())` is any object, and `Object(Closed(()))` one without members.
impl<'a> Members<'a> for () {
    type Out = ();

    ghost visits = { λ _ _ _. none };

    ghost value = { λ _ _. Some tt };

    ghost keeps = { λ _ _. Known none };

    ghost names = { λ _ _. false };

    fn read_members<'t, H: I18n + FormI18n>(
        &self,
        _object: &Tree<'t, 'a>,
        _trail: &mut Trail<'a>,
        _report: &mut Report,
        _h: &H,
    ) -> Result<Option<()>, AllocError> {
        Ok(Some(()))
    }

    fn names(&self, _name: &str) -> bool {
        false
    }
}

/// One alone.
impl<'a, A: Members<'a>> Members<'a> for (A,) {
    type Out = (A::Out,);

    ghost visits = { λ all texts j. A.visits all.0 texts j };

    ghost value = { λ all j. all1 (A.value all.0 j) };

    ghost keeps = { λ all out. A.keeps all.0 out.0 };

    ghost names = { λ all name. A.names all.0 name };

    fn read_members<'t, H: I18n + FormI18n>(
        &self,
        object: &Tree<'t, 'a>,
        trail: &mut Trail<'a>,
        report: &mut Report,
        h: &H,
    ) -> Result<Option<Self::Out>, AllocError> {
        match self.0.read_members(object, trail, report, h) {
            Ok(Some(value)) => Ok(Some((value,))),
            Ok(None) => Ok(None),
            Err(refused) => Err(refused),
        }
    }

    fn names(&self, name: &str) -> bool {
        self.0.names(name)
    }
}

// Both values, where both are there.
#[inline(always)]
pub(crate) fn pair<A: Drop, B: Drop>(first: Option<A>, second: Option<B>) -> Option<(A, B)>
    ensures { result ≡ both first second }
{
    first.zip(second)
}

/// Two in turn.
impl<'a, A: Members<'a>, B: Members<'a>> Members<'a> for (A, B) {
    type Out = (A::Out, B::Out);

    ghost visits = { λ all texts j. A.visits all.0 texts j and B.visits all.1 texts j };

    ghost value = { λ all j. both (A.value all.0 j) (B.value all.1 j) };

    ghost keeps = { λ all out. A.keeps all.0 out.0 × B.keeps all.1 out.1 };

    ghost names = { λ all name. A.names all.0 name || B.names all.1 name };

    fn read_members<'t, H: I18n + FormI18n>(
        &self,
        object: &Tree<'t, 'a>,
        trail: &mut Trail<'a>,
        report: &mut Report,
        h: &H,
    ) -> Result<Option<(A::Out, B::Out)>, AllocError> {
        let first = self.0.read_members(object, trail, report, h)?;
        let second = self.1.read_members(object, trail, report, h)?;
        Ok(pair(first, second))
    }

    fn names(&self, name: &str) -> bool {
        self.0.names(name) || self.1.names(name)
    }
}

/// The members that are referred to.
impl<'r, 'a, M: Members<'a>> Members<'a> for &'r M {
    type Out = M::Out;

    ghost visits = { λ members texts j. M.visits members.now texts j };

    ghost value = { λ members j. M.value members.now j };

    ghost keeps = { λ members out. M.keeps members.now out };

    ghost names = { λ members name. M.names members.now name };

    fn read_members<'t, H: I18n + FormI18n>(
        &self,
        object: &Tree<'t, 'a>,
        trail: &mut Trail<'a>,
        report: &mut Report,
        h: &H,
    ) -> Result<Option<M::Out>, AllocError> {
        (**self).read_members(object, trail, report, h)
    }

    fn names(&self, name: &str) -> bool {
        (**self).names(name)
    }
}
