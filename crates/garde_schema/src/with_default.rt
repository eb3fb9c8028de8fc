//! A member that has a default.
ghost use Rattle.std.specs.Prelude.{◌≡◌, IfOk, Option};
ghost use Rattle.std.specs.Str.{bytes_eq};
ghost use Rattle.garde_report.specs.Part.{key_part};
ghost use Rattle.garde_tape.specs.Look.{find_answer};
ghost use Rattle.garde_schema.specs.Forms.{forget};
ghost use Rattle.garde_schema.specs.Members.{optional_value, optional_visits};
ghost use Rattle.garde_schema.specs.Nulls.{default_value, KeepsOrIs};

use crate::form::{Form, Members};
use crate::handler::FormI18n;
use crate::makes::Makes;
use crate::optional::read_optional;
use garde::{I18n, Report, Trail};
use garde_tape::Tree;
use std::alloc::{AllocError, Global};

/// A member that may be missing: its name, its form, and what makes the value that stands for a missing
/// one. A value that can be duplicated makes its like, a `&str` a `TextRef`, and `Empty` a list or a map
/// with no item: see `Makes`.
///
/// No rule is asked of that value. A member that is there and has another form is a fault, also where
/// it is `null`.
#[derive(Clone, Copy, Debug)]
pub struct WithDefault<'a, F, M>(pub &'a str, pub F, pub M);

// The value that was read, and the default where none was there.
#[inline(always)]
fn or_default<T, M: Makes<T>>(
    alloc: Global,
    read: Result<Option<Option<T>>, AllocError>,
    default: &M,
) -> Result<Option<T>, AllocError>
    ensures answer { forget result ≡ forget read }
    ensures value { (is : Option (Option T)) → IfOk read (λ value. value ≡ is)
        → IfOk result (λ out. out ≡ default_value (M.made default.now) is) }
{
    match read {
        Ok(Some(Some(value))) => Ok(Some(value)),
        Ok(Some(None)) => Ok(Some(default.make(alloc))),
        Ok(None) => Ok(None),
        Err(refused) => Err(refused),
    }
}

impl<'a, F: Form<'a>, M: Makes<F::Out>> Members<'a> for WithDefault<'a, F, M> {
    type Out = F::Out;

    ghost visits = { λ member texts j. optional_visits (key_part member.0.now) texts
        (λ v. F.visits member.1 texts v) (find_answer member.0.now j) };

    ghost value = { λ member j. default_value (M.made member.2)
        (optional_value (λ v. F.value member.1 v) (find_answer member.0.now j)) };

    ghost keeps = { λ member out. KeepsOrIs (M.made member.2) (λ v. F.keeps member.1 v) out };

    ghost names = { λ member name. bytes_eq name member.0.now };

    fn read_members<'t, H: I18n + FormI18n>(
        &self,
        object: &Tree<'t, 'a>,
        trail: &mut Trail<'a>,
        report: &mut Report,
        h: &H,
    ) -> Result<Option<F::Out>, AllocError> {
        let alloc = trail.alloc();
        let found = object.find(self.0);
        let read = read_optional(self.0, &self.1, found, trail, report, h);
        or_default(alloc, read, &self.2)
    }

    fn names(&self, name: &str) -> bool {
        name == self.0
    }
}
