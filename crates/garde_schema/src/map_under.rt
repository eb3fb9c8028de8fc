//! Objects whose members have any names, under rules.
ghost use Rattle.std.specs.Prelude.{◌≡◌, ◌<◌, ◌^◌, length, option_and_then, IfOk, OnOk};
ghost use Rattle.std.specs.List.{All};
ghost use Rattle.garde.specs.Visits.{Visited, Known, ◌and◌};
ghost use Rattle.garde_tape.specs.Look.{kind_of};
ghost use Rattle.garde_schema.specs.declared.fault.FormFault.TheVariants as faults;
ghost use Rattle.garde_schema.specs.declared.fault.Wanted.TheVariants as wanted;
ghost use Rattle.garde_schema.specs.Forms.{forget, formed, Sound};
ghost use Rattle.garde_schema.specs.Lists.{all_values};
ghost use Rattle.garde_schema.specs.Maps.{each_entry, entry_value, map_of, members_first};

use crate::count::Count;
use crate::fault::{FormFault, Wanted};
use crate::form::Form;
use crate::handler::FormI18n;
use crate::map::{Entries, read_entries};
use crate::put::{put, with};
use garde::fields::Rules;
use garde::{I18n, Report, Trail};
use garde_tape::{Tree, TreeMembers};
use std::alloc::AllocError;

// Asks the rules how many members there are, and then reads the members.
fn read_counted<'t, 'a, R: Rules<Count>, F: Form<'a>, H: I18n + FormI18n>(
    form: &MapUnder<R, F>,
    count: Count,
    members: TreeMembers<'t, 'a>,
    trail: &mut Trail<'a>,
    report: &mut Report,
    h: &H,
) -> Result<Option<Entries<'a, F::Out>>, AllocError>
    requires fits { length members < 2 ^ 64 }
    requires counted { count ≡ length members }
    ensures answer { Visited (R.asks form.now.0 (length members.entry)
        and each_entry (H.form_text h.now)
        (λ v. F.visits form.now.1 (H.form_text h.now) v) (members_first members.entry))
        (H.text h.now) trail.old trail.new report.old report.new (forget result) }
    ensures value { IfOk result (λ out.
        out ≡ all_values (entry_value (λ v. F.value form.now.1 v)) (members_first members.entry)) }
    ensures sound { OnOk result (Sound (R.asks form.now.0 (length members.entry)
        and each_entry (H.form_text h.now)
        (λ v. F.visits form.now.1 (H.form_text h.now) v) (members_first members.entry))
        (λ out. Known (R.asks form.now.0 (length out)) × All (λ e. F.keeps form.now.1 e.1) out)
        (all_values (entry_value (λ v. F.value form.now.1 v)) (members_first members.entry))) }
{
    form.0.ask(&count, trail, report, h)?;
    read_entries(&form.1, members, trail, report, h)
}

/// An object under rules of how many members it has, with any names, whose values have this form: the
/// rules and the form. The value is that of `Map`.
///
/// The rules are asked before the values are read, also where a value has another form or a name is
/// repeated. Rules of the names (`Keys`) stand around the map.
#[derive(Clone, Copy, Debug)]
pub struct MapUnder<R, F>(pub R, pub F);

impl<'a, R: Rules<Count>, F: Form<'a>> Form<'a> for MapUnder<R, F> {
    type Out = Entries<'a, F::Out>;

    ghost visits = { λ form texts j. formed (texts (faults.Wrong wanted.Object (kind_of j)))
        (λ ms. R.asks form.0 (length ms)
        and each_entry texts (λ v. F.visits form.1 texts v) (members_first ms)) (map_of j) };

    ghost value = { λ form j. option_and_then
        (λ ms. all_values (entry_value (λ v. F.value form.1 v)) (members_first ms)) (map_of j) };

    ghost keeps = { λ form out.
        Known (R.asks form.0 (length out)) × All (λ e. F.keeps form.1 e.1) out };

    fn read<'t, H: I18n + FormI18n>(
        &self,
        tree: &Tree<'t, 'a>,
        trail: &mut Trail<'a>,
        report: &mut Report,
        h: &H,
    ) -> Result<Option<Entries<'a, F::Out>>, AllocError> {
        match tree.members() {
            Some(members) => {
                let count = Count::of_members(tree);
                read_counted(self, count, members, trail, report, h)
            }
            None => {
                let fault = FormFault::Wrong(Wanted::Object, tree.kind());
                with(put(fault, trail, report, h), None)
            }
        }
    }
}
