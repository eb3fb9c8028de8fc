//! A member that may be null or missing.
ghost use Rattle.std.specs.Prelude.{◌≡◌};
ghost use Rattle.std.specs.Str.{bytes_eq};
ghost use Rattle.garde_report.specs.Part.{key_part};
ghost use Rattle.garde_tape.specs.Look.{find_answer};
ghost use Rattle.garde_schema.specs.Forms.{KeepsSome};
ghost use Rattle.garde_schema.specs.Members.{optional_value, optional_visits};
ghost use Rattle.garde_schema.specs.Nulls.{unless_null};

use crate::form::{Form, Members};
use crate::handler::FormI18n;
use crate::optional::read_optional;
use garde::{I18n, Report, Trail};
use garde_tape::{Found, Tree};
use std::alloc::AllocError;

/// A member that may be null or missing: its name and its form. The value is an option, and `None`
/// in both cases, as a field of the type `Option` has it in serde.
#[derive(Clone, Copy, Debug)]
pub struct Nullish<'a, F>(pub &'a str, pub F);

// What was found, where a member that is null counts as missing.
fn not_null<'t, 'a>(found: Found<'t, 'a>) -> Found<'t, 'a>
    ensures { result ≡ unless_null found.entry }
{
    match found {
        Found::Missing => Found::Missing,
        Found::Once(value) => {
            if value.is_null() {
                Found::Missing
            } else {
                Found::Once(value)
            }
        }
        Found::Repeated => Found::Repeated,
    }
}

impl<'a, F: Form<'a>> Members<'a> for Nullish<'a, F> {
    type Out = Option<F::Out>;

    ghost visits = { λ member texts j. optional_visits (key_part member.0.now) texts
        (λ v. F.visits member.1 texts v) (unless_null (find_answer member.0.now j)) };

    ghost value = { λ member j. optional_value (λ v. F.value member.1 v)
        (unless_null (find_answer member.0.now j)) };

    ghost keeps = { λ member out. KeepsSome (λ v. F.keeps member.1 v) out };

    ghost names = { λ member name. bytes_eq name member.0.now };

    fn read_members<'t, H: I18n + FormI18n>(
        &self,
        object: &Tree<'t, 'a>,
        trail: &mut Trail<'a>,
        report: &mut Report,
        h: &H,
    ) -> Result<Option<Option<F::Out>>, AllocError> {
        let found = not_null(object.find(self.0));
        read_optional(self.0, &self.1, found, trail, report, h)
    }

    fn names(&self, name: &str) -> bool {
        name == self.0
    }
}
