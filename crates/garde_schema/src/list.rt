//! Lists.
ghost use Rattle.std.specs.Prelude.{◌≡◌, ◌<◌, ◌^◌, length, option_and_then, IfOk, OnOk};
ghost use Rattle.std.specs.List.{All};
ghost use Rattle.garde_report.specs.Part.{part_of};
ghost use Rattle.garde.specs.Visits.{Visited, under, may_allocate};
ghost use Rattle.garde_tape.specs.Look.{kind_of};
ghost use Rattle.garde_schema.specs.declared.fault.FormFault.TheVariants.{Wrong};
ghost use Rattle.garde_schema.specs.declared.fault.Wanted.TheVariants as wanted;
ghost use Rattle.garde_schema.specs.Forms.{forget, formed, Sound};
ghost use Rattle.garde_schema.specs.Lists.{all_values, each_item, list_of, with_last};

use crate::fault::{FormFault, Wanted};
use crate::form::Form;
use crate::handler::FormI18n;
use crate::items::{Items, add};
use crate::put::{put, with};
use garde::{Component, I18n, Report, Trail};
use garde_tape::{Tree, TreeItems};
use std::alloc::AllocError;

// Reads the value that stands under a component.
#[inline(always)]
pub(crate) fn read_in<'t, 'a, F: Form<'a>, H: I18n + FormI18n>(
    component: Component<'a>,
    form: &F,
    tree: &Tree<'t, 'a>,
    trail: &mut Trail<'a>,
    report: &mut Report,
    h: &H,
) -> Result<Option<F::Out>, AllocError>
    ensures answer { Visited (under (part_of component.entry) (F.visits form.now (H.form_text h.now) tree.now))
        (H.text h.now) trail.old trail.new report.old report.new (forget result) }
    ensures value { IfOk result (λ out. out ≡ F.value form.now tree.now) }
    ensures sound { OnOk result (Sound (F.visits form.now (H.form_text h.now) tree.now)
        (F.keeps form.now) (F.value form.now tree.now)) }
{
    trail.push(component)?;
    let value = form.read(tree, trail, report, h);
    trail.pop();
    value
}

// Reads an item under its index, and adds its value to those before it.
fn read_item<'t, 'a, F: Form<'a>, H: I18n + FormI18n>(
    index: Component<'a>,
    form: &F,
    item: &Tree<'t, 'a>,
    values: Option<Items<F::Out>>,
    trail: &mut Trail<'a>,
    report: &mut Report,
    h: &H,
) -> Result<Option<Items<F::Out>>, AllocError>
    ensures answer { Visited
        (under (part_of index.entry) (may_allocate (F.visits form.now (H.form_text h.now) item.now)))
        (H.text h.now) trail.old trail.new report.old report.new (forget result) }
    ensures value { IfOk result (λ out. out ≡ with_last values (F.value form.now item.now)) }
    ensures sound { OnOk result (Sound (F.visits form.now (H.form_text h.now) item.now)
        (F.keeps form.now) (F.value form.now item.now)) }
{
    let value = read_in(index, form, item, trail, report, h)?;
    add(values, value)
}

// Reads the items, each under its index. After one of another form the others are read for their
// faults.
pub(crate) fn read_items<'t, 'a, F: Form<'a>, H: I18n + FormI18n>(
    form: &F,
    items: TreeItems<'t, 'a>,
    trail: &mut Trail<'a>,
    report: &mut Report,
    h: &H,
) -> Result<Option<Items<F::Out>>, AllocError>
    requires { length items < 2 ^ 64 }
    ensures answer { Visited (each_item (λ x. F.visits form.now (H.form_text h.now) x) items.entry)
        (H.text h.now) trail.old trail.new report.old report.new (forget result) }
    ensures value { IfOk result (λ out. out ≡ all_values (λ x. F.value form.now x) items.entry) }
    ensures sound { OnOk result (Sound
        (each_item (λ x. F.visits form.now (H.form_text h.now) x) items.entry)
        (λ out. All (λ x. F.keeps form.now x) out) (all_values (λ x. F.value form.now x) items.entry)) }
{
    let alloc = trail.alloc();
    let mut left = items;
    let mut values = Some(Items::new(alloc));
    let mut index = 0;
    while let Some(item) = left.next() {
        let place = Component::index(index);
        values = read_item(place, form, &item, values, trail, report, h)?;
        index += 1;
    }
    Ok(values)
}

/// A list whose items have this form. The value is the list of theirs. An item of another form is a
/// fault under its index, and the other items are read.
#[derive(Clone, Copy, Debug)]
pub struct List<F>(pub F);

impl<'a, F: Form<'a>> Form<'a> for List<F> {
    type Out = Items<F::Out>;

    ghost visits = { λ form texts j. formed (texts (Wrong wanted.List (kind_of j)))
        (λ js. each_item (λ x. F.visits form.0 texts x) js) (list_of j) };

    ghost value = { λ form j. option_and_then (λ js. all_values (λ x. F.value form.0 x) js) (list_of j) };

    ghost keeps = { λ form out. All (λ x. F.keeps form.0 x) out };

    fn read<'t, H: I18n + FormI18n>(
        &self,
        tree: &Tree<'t, 'a>,
        trail: &mut Trail<'a>,
        report: &mut Report,
        h: &H,
    ) -> Result<Option<Items<F::Out>>, AllocError> {
        match tree.items() {
            Some(items) => read_items(&self.0, items, trail, report, h),
            None => {
                let fault = FormFault::Wrong(Wanted::List, tree.kind());
                with(put(fault, trail, report, h), None)
            }
        }
    }
}
