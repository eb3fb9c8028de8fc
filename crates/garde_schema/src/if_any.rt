//! Members all of which may be missing.
ghost use Rattle.std.specs.Prelude.{◌≡◌};
ghost use Rattle.garde_schema.specs.Flattened.{has_none};
ghost use Rattle.garde_schema.specs.Forms.{KeepsSome};
ghost use Rattle.garde_schema.specs.Members.{members_in};
ghost use Rattle.garde_schema.specs.Nulls.{nullable_value, nullable_visits};

use crate::form::Members;
use crate::handler::FormI18n;
use crate::optional::present;
use garde::{I18n, Report, Trail};
use garde_tape::{Tree, TreeMembers};
use std::alloc::AllocError;

/// These members, or none of them: an option of a struct under `flatten`, as
/// `IfAny(Built(members, PhantomData))`.
///
/// The value is `None` where no member of the object has a name that is asked for. Where one has, all
/// are read, and one that is missing or has another form is a fault. `serde` reads `None` there.
#[derive(Clone, Copy, Debug)]
pub struct IfAny<M>(pub M);

// Whether none of these members is asked for.
fn are_unknown<'a, M: Members<'a>>(named: &M, members: TreeMembers<'_, 'a>) -> bool
    ensures { result ≡ has_none (λ name. M.names named.now name) members.entry }
{
    let mut left = members;
    while let Some((name, _)) = left.next() {
        if named.names(name) {
            return false;
        }
    }
    true
}

// Whether no member of the object is asked for.
fn has_none<'a, M: Members<'a>>(named: &M, object: &Tree<'_, 'a>) -> bool
    ensures { result ≡ has_none (λ name. M.names named.now name) (members_in object.now) }
{
    match object.members() {
        Some(members) => are_unknown(named, members),
        None => true,
    }
}

impl<'a, M: Members<'a>> Members<'a> for IfAny<M> {
    type Out = Option<M::Out>;

    ghost visits = { λ part texts j. nullable_visits (M.visits part.0 texts j)
        (has_none (λ name. M.names part.0 name) (members_in j)) };

    ghost value = { λ part j. nullable_value (M.value part.0 j)
        (has_none (λ name. M.names part.0 name) (members_in j)) };

    ghost keeps = { λ part out. KeepsSome (λ v. M.keeps part.0 v) out };

    ghost names = { λ part name. M.names part.0 name };

    fn read_members<'t, H: I18n + FormI18n>(
        &self,
        object: &Tree<'t, 'a>,
        trail: &mut Trail<'a>,
        report: &mut Report,
        h: &H,
    ) -> Result<Option<Option<M::Out>>, AllocError> {
        if has_none(&self.0, object) {
            Ok(Some(None))
        } else {
            let read = self.0.read_members(object, trail, report, h);
            present(read)
        }
    }

    fn names(&self, name: &str) -> bool {
        self.0.names(name)
    }
}
