//! A member that may be missing.
ghost use Rattle.std.specs.Prelude.{◌≡◌, Option, Some, option_map, IfOk, OnOk};
ghost use Rattle.std.specs.Str.{bytes_eq};
ghost use Rattle.garde_report.specs.Part.{key_part};
ghost use Rattle.garde.specs.Visits.{Visited};
ghost use Rattle.garde_tape.specs.Look.{find_answer};
ghost use Rattle.garde_schema.specs.Forms.{forget, KeepsSome, Sound};
ghost use Rattle.garde_schema.specs.Members.{optional_value, optional_visits};

use crate::fault::FormFault;
use crate::form::{Form, Members};
use crate::handler::FormI18n;
use crate::list::read_in;
use crate::put::{put_under, with};
use garde::{Component, I18n, Report, Trail};
use garde_tape::{Found, Tree};
use std::alloc::AllocError;

/// A member that may be missing: its name and its form. The value is an option, and `None` where the
/// member is missing. `null` is no missing member.
#[derive(Clone, Copy, Debug)]
pub struct Optional<'a, F>(pub &'a str, pub F);

// The value, as one that is there.
#[inline(always)]
pub(crate) fn present<T: Drop>(
    read: Result<Option<T>, AllocError>,
) -> Result<Option<Option<T>>, AllocError>
    ensures answer { forget result ≡ forget read }
    ensures value { (is : Option T) → IfOk read (λ value. value ≡ is)
        → IfOk result (λ out. out ≡ option_map (λ v. Some v) is) }
{
    match read {
        Ok(Some(value)) => Ok(Some(Some(value))),
        Ok(None) => Ok(None),
        Err(refused) => Err(refused),
    }
}

// Reads what was found of a name that may be missing.
pub(crate) fn read_optional<'t, 'a, F: Form<'a>, H: I18n + FormI18n>(
    name: &'a str,
    form: &F,
    found: Found<'t, 'a>,
    trail: &mut Trail<'a>,
    report: &mut Report,
    h: &H,
) -> Result<Option<Option<F::Out>>, AllocError>
    ensures answer { Visited (optional_visits (key_part name.now) (H.form_text h.now)
        (λ v. F.visits form.now (H.form_text h.now) v) found.entry)
        (H.text h.now) trail.old trail.new report.old report.new (forget result) }
    ensures value { IfOk result (λ out. out ≡ optional_value (λ v. F.value form.now v) found.entry) }
    ensures sound { OnOk result (Sound (optional_visits (key_part name.now) (H.form_text h.now)
        (λ v. F.visits form.now (H.form_text h.now) v) found.entry)
        (λ out. KeepsSome (λ v. F.keeps form.now v) out)
        (optional_value (λ v. F.value form.now v) found.entry)) }
{
    match found {
        Found::Missing => Ok(Some(None)),
        Found::Once(value) => {
            let read = read_in(Component::key(name), form, &value, trail, report, h);
            present(read)
        }
        Found::Repeated => {
            let told = put_under(name, FormFault::Repeated, trail, report, h);
            with(told, None)
        }
    }
}

impl<'a, F: Form<'a>> Members<'a> for Optional<'a, F> {
    type Out = Option<F::Out>;

    ghost visits = { λ member texts j. optional_visits (key_part member.0.now) texts
        (λ v. F.visits member.1 texts v) (find_answer member.0.now j) };

    ghost value = { λ member j.
        optional_value (λ v. F.value member.1 v) (find_answer member.0.now j) };

    ghost keeps = { λ member out. KeepsSome (λ v. F.keeps member.1 v) out };

    ghost names = { λ member name. bytes_eq name member.0.now };

    fn read_members<'t, H: I18n + FormI18n>(
        &self,
        object: &Tree<'t, 'a>,
        trail: &mut Trail<'a>,
        report: &mut Report,
        h: &H,
    ) -> Result<Option<Option<F::Out>>, AllocError> {
        let found = object.find(self.0);
        read_optional(self.0, &self.1, found, trail, report, h)
    }

    fn names(&self, name: &str) -> bool {
        name == self.0
    }
}
