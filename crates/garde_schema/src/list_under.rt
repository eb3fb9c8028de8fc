//! Lists under rules.
ghost use Rattle.std.specs.Prelude.{◌≡◌, ◌<◌, ◌^◌, length, option_and_then, IfOk, OnOk};
ghost use Rattle.std.specs.List.{All};
ghost use Rattle.garde.specs.Visits.{Visited, Known, ◌and◌};
ghost use Rattle.garde_tape.specs.Look.{kind_of};
ghost use Rattle.garde_schema.specs.declared.fault.FormFault.TheVariants.{Wrong};
ghost use Rattle.garde_schema.specs.declared.fault.Wanted.TheVariants as wanted;
ghost use Rattle.garde_schema.specs.Forms.{forget, formed, Sound};
ghost use Rattle.garde_schema.specs.Lists.{all_values, each_item, list_of};

use crate::count::Count;
use crate::fault::{FormFault, Wanted};
use crate::form::Form;
use crate::handler::FormI18n;
use crate::items::Items;
use crate::list::read_items;
use crate::put::{put, with};
use garde::fields::Rules;
use garde::{I18n, Report, Trail};
use garde_tape::{Tree, TreeItems};
use std::alloc::AllocError;

// Asks the rules how many items there are, and then reads the items.
fn read_counted<'t, 'a, R: Rules<Count>, F: Form<'a>, H: I18n + FormI18n>(
    form: &ListUnder<R, F>,
    count: Count,
    items: TreeItems<'t, 'a>,
    trail: &mut Trail<'a>,
    report: &mut Report,
    h: &H,
) -> Result<Option<Items<F::Out>>, AllocError>
    requires fits { length items < 2 ^ 64 }
    requires counted { count ≡ length items }
    ensures answer { Visited (R.asks form.now.0 (length items.entry)
        and each_item (λ x. F.visits form.now.1 (H.form_text h.now) x) items.entry)
        (H.text h.now) trail.old trail.new report.old report.new (forget result) }
    ensures value { IfOk result (λ out. out ≡ all_values (λ x. F.value form.now.1 x) items.entry) }
    ensures sound { OnOk result (Sound (R.asks form.now.0 (length items.entry)
        and each_item (λ x. F.visits form.now.1 (H.form_text h.now) x) items.entry)
        (λ out. Known (R.asks form.now.0 (length out)) × All (λ x. F.keeps form.now.1 x) out)
        (all_values (λ x. F.value form.now.1 x) items.entry)) }
{
    form.0.ask(&count, trail, report, h)?;
    read_items(&form.1, items, trail, report, h)
}

/// A list under rules of how many items it has, whose items have this form: the rules and the form.
/// The value is the list of theirs.
///
/// The rules are asked before the items are read, also where an item has another form. Rules of the
/// values (`Unique`, `Each`) stand around the list, in `Checked`.
#[derive(Clone, Copy, Debug)]
pub struct ListUnder<R, F>(pub R, pub F);

impl<'a, R: Rules<Count>, F: Form<'a>> Form<'a> for ListUnder<R, F> {
    type Out = Items<F::Out>;

    ghost visits = { λ form texts j. formed (texts (Wrong wanted.List (kind_of j)))
        (λ js. R.asks form.0 (length js) and each_item (λ x. F.visits form.1 texts x) js) (list_of j) };

    ghost value = { λ form j. option_and_then (λ js. all_values (λ x. F.value form.1 x) js) (list_of j) };

    ghost keeps = { λ form out.
        Known (R.asks form.0 (length out)) × All (λ x. F.keeps form.1 x) out };

    fn read<'t, H: I18n + FormI18n>(
        &self,
        tree: &Tree<'t, 'a>,
        trail: &mut Trail<'a>,
        report: &mut Report,
        h: &H,
    ) -> Result<Option<Items<F::Out>>, AllocError> {
        match tree.items() {
            Some(items) => {
                let count = Count::of(tree);
                read_counted(self, count, items, trail, report, h)
            }
            None => {
                let fault = FormFault::Wrong(Wanted::List, tree.kind());
                with(put(fault, trail, report, h), None)
            }
        }
    }
}
