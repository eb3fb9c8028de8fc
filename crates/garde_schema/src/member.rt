//! A member that must be there.
ghost use Rattle.std.specs.Prelude.{◌≡◌, option_and_then, IfOk, OnOk};
ghost use Rattle.std.specs.Str.{bytes_eq};
ghost use Rattle.garde_report.specs.Part.{key_part};
ghost use Rattle.garde.specs.Visits.{Visited, under};
ghost use Rattle.garde_tape.specs.Look.{find_answer};
ghost use Rattle.garde_schema.specs.Forms.{forget, Sound};
ghost use Rattle.garde_schema.specs.Members.{once, member_visits};

use crate::fault::FormFault;
use crate::form::{Form, Members};
use crate::handler::FormI18n;
use crate::put::{put, with};
use garde::{Component, I18n, Report, Trail};
use garde_tape::{Found, Tree};
use std::alloc::AllocError;

// Reads what was found of a member's name, whose component was pushed.
pub(crate) fn read_found<'t, 'a, F: Form<'a>, H: I18n + FormI18n>(
    form: &F,
    found: Found<'t, 'a>,
    trail: &mut Trail<'a>,
    report: &mut Report,
    h: &H,
) -> Result<Option<F::Out>, AllocError>
    ensures answer { Visited (member_visits (H.form_text h.now) (λ v. F.visits form.now (H.form_text h.now) v) found.entry)
        (H.text h.now) trail.old trail.new report.old report.new (forget result) }
    ensures value { IfOk result (λ out. out ≡ option_and_then (λ v. F.value form.now v) (once found.entry)) }
    ensures sound { OnOk result (Sound
        (member_visits (H.form_text h.now) (λ v. F.visits form.now (H.form_text h.now) v) found.entry)
        (λ out. F.keeps form.now out) (option_and_then (λ v. F.value form.now v) (once found.entry))) }
{
    match found {
        Found::Once(value) => form.read(&value, trail, report, h),
        Found::Missing => with(put(FormFault::Missing, trail, report, h), None),
        Found::Repeated => with(put(FormFault::Repeated, trail, report, h), None),
    }
}

/// A member that must be there: its name and its form.
#[derive(Clone, Copy, Debug)]
pub struct Member<'a, F>(pub &'a str, pub F);

#[tactic(auto, unfolding(garde::specs::Visits::Known))]
impl<'a, F: Form<'a>> Members<'a> for Member<'a, F> {
    type Out = F::Out;

    ghost visits = { λ member texts j. under (key_part member.0.now)
        (member_visits texts (λ v. F.visits member.1 texts v) (find_answer member.0.now j)) };

    ghost value = { λ member j.
        option_and_then (λ v. F.value member.1 v) (once (find_answer member.0.now j)) };

    ghost keeps = { λ member out. F.keeps member.1 out };

    ghost names = { λ member name. bytes_eq name member.0.now };

    fn read_members<'t, H: I18n + FormI18n>(
        &self,
        object: &Tree<'t, 'a>,
        trail: &mut Trail<'a>,
        report: &mut Report,
        h: &H,
    ) -> Result<Option<F::Out>, AllocError> {
        let found = object.find(self.0);
        trail.push(Component::key(self.0))?;
        let value = read_found(&self.1, found, trail, report, h);
        trail.pop();
        value
    }

    fn names(&self, name: &str) -> bool {
        name == self.0
    }
}
