//! Objects whose members have any names.
ghost use Rattle.std.specs.Prelude.{◌≡◌, option_map, option_and_then, IfOk, OnOk};
ghost use Rattle.std.specs.List.{All};
ghost use Rattle.garde_report.specs.Part.{key_part};
ghost use Rattle.garde.specs.Visits.{Visited, under, may_allocate};
ghost use Rattle.garde_tape.specs.Look.{kind_of};
ghost use Rattle.garde_schema.specs.declared.fault.FormFault.TheVariants as faults;
ghost use Rattle.garde_schema.specs.declared.fault.Wanted.TheVariants as wanted;
ghost use Rattle.garde_schema.specs.Forms.{forget, formed, Sound};
ghost use Rattle.garde_schema.specs.Lists.{all_values, with_last};
ghost use Rattle.garde_schema.specs.Maps.{each_entry, entry_value, map_of, members_first, when_new};

use crate::fault::{FormFault, Wanted};
use crate::form::Form;
use crate::handler::FormI18n;
use crate::items::{Items, add};
use crate::list::read_in;
use crate::put::{put, put_under, with};
use crate::rest::read_others;
use crate::text_ref::TextRef;
use garde::{Component, I18n, Report, Trail};
use garde_tape::{Tree, TreeMembers};
use std::alloc::AllocError;

/// Names with their values, in the order of the text.
pub type Entries<'a, T> = Items<(TextRef<'a>, T)>;

// The name with its value, if there is one.
#[inline(always)]
fn named<'a, T: Drop>(name: &'a str, value: Option<T>) -> Option<(TextRef<'a>, T)>
    ensures { result ≡ option_map (λ v. (name.now, v)) value }
{
    Some((TextRef::new(name), value?))
}

// Reads a value under its name, which is new.
fn read_value<'t, 'a, F: Form<'a>, H: I18n + FormI18n>(
    form: &F,
    name: &'a str,
    tree: &Tree<'t, 'a>,
    values: Option<Entries<'a, F::Out>>,
    trail: &mut Trail<'a>,
    report: &mut Report,
    h: &H,
) -> Result<Option<Entries<'a, F::Out>>, AllocError>
    ensures answer { Visited
        (under (key_part name.now) (may_allocate (F.visits form.now (H.form_text h.now) tree.now)))
        (H.text h.now) trail.old trail.new report.old report.new (forget result) }
    ensures value { IfOk result (λ out.
        out ≡ with_last values.entry (option_map (λ v. (name.now, v)) (F.value form.now tree.now))) }
    ensures sound { OnOk result (Sound (F.visits form.now (H.form_text h.now) tree.now)
        (F.keeps form.now) (F.value form.now tree.now)) }
{
    let value = read_in(Component::key(name), form, tree, trail, report, h)?;
    add(values, named(name, value))
}

// Reads the value of a member under its name, or tells that the name is repeated.
pub(crate) fn read_entry<'t, 'a, F: Form<'a>, H: I18n + FormI18n>(
    form: &F,
    came: bool,
    name: &'a str,
    tree: &Tree<'t, 'a>,
    values: Option<Entries<'a, F::Out>>,
    trail: &mut Trail<'a>,
    report: &mut Report,
    h: &H,
) -> Result<Option<Entries<'a, F::Out>>, AllocError>
    ensures answer { Visited (under (key_part name.now) (may_allocate
        (formed (H.form_text h.now faults.Repeated)
        (λ v. F.visits form.now (H.form_text h.now) v) (when_new came tree.now))))
        (H.text h.now) trail.old trail.new report.old report.new (forget result) }
    ensures value { IfOk result (λ out. out ≡ with_last values.entry
        (entry_value (λ v. F.value form.now v) (name.now, when_new came tree.now))) }
    ensures sound { OnOk result (Sound (formed (H.form_text h.now faults.Repeated)
        (λ v. F.visits form.now (H.form_text h.now) v) (when_new came tree.now))
        (λ e. F.keeps form.now e.1)
        (entry_value (λ v. F.value form.now v) (name.now, when_new came tree.now))) }
{
    if came {
        let told = put_under(name, FormFault::Repeated, trail, report, h);
        with(told, None)
    } else {
        read_value(form, name, tree, values, trail, report, h)
    }
}

// Reads the values of the members, each under its name: no name is asked for otherwise.
pub(crate) fn read_entries<'t, 'a, F: Form<'a>, H: I18n + FormI18n>(
    form: &F,
    members: TreeMembers<'t, 'a>,
    trail: &mut Trail<'a>,
    report: &mut Report,
    h: &H,
) -> Result<Option<Entries<'a, F::Out>>, AllocError>
    ensures answer { Visited (each_entry (H.form_text h.now)
        (λ v. F.visits form.now (H.form_text h.now) v) (members_first members.entry))
        (H.text h.now) trail.old trail.new report.old report.new (forget result) }
    ensures value { IfOk result (λ out.
        out ≡ all_values (entry_value (λ v. F.value form.now v)) (members_first members.entry)) }
    ensures sound { OnOk result (Sound (each_entry (H.form_text h.now)
        (λ v. F.visits form.now (H.form_text h.now) v) (members_first members.entry))
        (λ out. All (λ e. F.keeps form.now e.1) out)
        (all_values (entry_value (λ v. F.value form.now v)) (members_first members.entry))) }
{
    read_others(&(), form, members, trail, report, h)
}

/// An object with any members, whose values have this form. The value is the list of their names and
/// values, in the order of the text. Where a name came before it is a fault under that name, each
/// time, and the value there is not read.
#[derive(Clone, Copy, Debug)]
pub struct Map<F>(pub F);

impl<'a, F: Form<'a>> Form<'a> for Map<F> {
    type Out = Entries<'a, F::Out>;

    ghost visits = { λ form texts j. formed (texts (faults.Wrong wanted.Object (kind_of j)))
        (λ ms. each_entry texts (λ v. F.visits form.0 texts v) (members_first ms)) (map_of j) };

    ghost value = { λ form j. option_and_then
        (λ ms. all_values (entry_value (λ v. F.value form.0 v)) (members_first ms)) (map_of j) };

    ghost keeps = { λ form out. All (λ e. F.keeps form.0 e.1) out };

    fn read<'t, H: I18n + FormI18n>(
        &self,
        tree: &Tree<'t, 'a>,
        trail: &mut Trail<'a>,
        report: &mut Report,
        h: &H,
    ) -> Result<Option<Entries<'a, F::Out>>, AllocError> {
        match tree.members() {
            Some(members) => read_entries(&self.0, members, trail, report, h),
            None => {
                let fault = FormFault::Wrong(Wanted::Object, tree.kind());
                with(put(fault, trail, report, h), None)
            }
        }
    }
}
