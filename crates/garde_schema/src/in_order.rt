//! Lists of so many items, each of its own form.
ghost use Rattle.std.specs.Prelude.{◌≡◌, ◌<◌, ◌^◌, false, length, option_and_then, IfOk, OnOk};
ghost use Rattle.garde_report.specs.Part.{index_part};
ghost use Rattle.garde.specs.Visits.{Visited, ◌and◌, under};
ghost use Rattle.garde_tape.specs.Look.{kind_of};
ghost use Rattle.garde_schema.specs.declared.fault.FormFault.TheVariants.{Wrong};
ghost use Rattle.garde_schema.specs.declared.fault.FormFault.TheVariants as faults;
ghost use Rattle.garde_schema.specs.declared.fault.Wanted.TheVariants as wanted;
ghost use Rattle.garde_schema.specs.Forms.{forget, formed, refused, Sound};
ghost use Rattle.garde_schema.specs.InOrder.{beyond, item_at, item_in};
ghost use Rattle.garde_schema.specs.Lists.{list_of};
ghost use Rattle.garde_schema.specs.Members.{member_visits, once};

use crate::fault::{FormFault, Wanted};
use crate::form::{Form, Members};
use crate::handler::FormI18n;
use crate::member::read_found;
use crate::put::{put, with};
use garde::{Component, I18n, Report, Trail};
use garde_tape::{Found, Tree, TreeItems};
use std::alloc::AllocError;

// The item at an index.
fn item_at<'t, 'a>(items: TreeItems<'t, 'a>, index: usize) -> Found<'t, 'a>
    ensures { result ≡ item_at index items.entry }
{
    let mut left = items;
    let mut before = index;
    while let Some(item) = left.next() {
        if before == 0 {
            return Found::Once(item);
        }
        before -= 1;
    }
    Found::Missing
}

// The item at an index, where the tree is a list.
fn item_in<'t, 'a>(tree: &Tree<'t, 'a>, index: usize) -> Found<'t, 'a>
    ensures { result ≡ item_in index (list_of tree.now) }
{
    match tree.items() {
        Some(items) => item_at(items, index),
        None => Found::Missing,
    }
}

/// An item that must be there, in an `InOrder`: its index and its form.
#[derive(Clone, Copy, Debug)]
pub struct Nth<F>(pub usize, pub F);

#[tactic(auto, unfolding(garde::specs::Visits::Known))]
impl<'a, F: Form<'a>> Members<'a> for Nth<F> {
    type Out = F::Out;

    ghost visits = { λ nth texts j. under (index_part nth.0)
        (member_visits texts (λ v. F.visits nth.1 texts v) (item_in nth.0 (list_of j))) };

    ghost value = { λ nth j. option_and_then (λ v. F.value nth.1 v) (once (item_in nth.0 (list_of j))) };

    ghost keeps = { λ nth out. F.keeps nth.1 out };

    ghost names = { λ _ _. false };

    fn read_members<'t, H: I18n + FormI18n>(
        &self,
        object: &Tree<'t, 'a>,
        trail: &mut Trail<'a>,
        report: &mut Report,
        h: &H,
    ) -> Result<Option<F::Out>, AllocError> {
        let found = item_in(object, self.0);
        trail.push(Component::index(self.0))?;
        let value = read_found(&self.1, found, trail, report, h);
        trail.pop();
        value
    }

    fn names(&self, _name: &str) -> bool {
        false
    }
}

// Puts a fault under an index at which no item is known.
fn put_at<'a, H: I18n + FormI18n>(
    index: usize,
    trail: &mut Trail<'a>,
    report: &mut Report,
    h: &H,
) -> Result<(), AllocError>
    ensures { Visited (under (index_part index) (refused (H.form_text h.now faults.Unknown))) (H.text h.now)
        trail.old trail.new report.old report.new result }
{
    trail.push(Component::index(index))?;
    let told = put(FormFault::Unknown, trail, report, h);
    trail.pop();
    told
}

// How many items there are.
fn count_of(items: TreeItems<'_, '_>) -> usize
    requires { length items < 2 ^ 64 }
    ensures { result ≡ length items.entry }
{
    items.count()
}

// Puts a fault under the index behind those of so many items, where there are more.
fn check_count<'t, 'a, H: I18n + FormI18n>(
    count: usize,
    items: TreeItems<'t, 'a>,
    trail: &mut Trail<'a>,
    report: &mut Report,
    h: &H,
) -> Result<(), AllocError>
    requires { length items < 2 ^ 64 }
    ensures { Visited (beyond count (H.form_text h.now) (length items.entry)) (H.text h.now)
        trail.old trail.new report.old report.new result }
{
    let there = count_of(items);
    let has_more = count < there;
    if has_more {
        put_at(count, trail, report, h)
    } else {
        Ok(())
    }
}

/// A list of so many items, each of its own form: `InOrder(2, (Nth(0, Text(())), Nth(1, Flag)))`. The
/// value is that of the items. It is how serde reads a tuple.
///
/// An item that is missing is a fault under its index. Of a list with more items there is one fault,
/// under the index of the first that is not known.
#[derive(Clone, Copy, Debug)]
pub struct InOrder<M>(pub usize, pub M);

// Reads these items, which are those of the tree.
fn read_all<'t, 'a, M: Members<'a>, H: I18n + FormI18n>(
    form: &InOrder<M>,
    items: TreeItems<'t, 'a>,
    tree: &Tree<'t, 'a>,
    trail: &mut Trail<'a>,
    report: &mut Report,
    h: &H,
) -> Result<Option<M::Out>, AllocError>
    requires fits { length items < 2 ^ 64 }
    ensures answer { Visited (M.visits form.now.1 (H.form_text h.now) tree.now
        and beyond form.now.0 (H.form_text h.now) (length items.entry)) (H.text h.now)
        trail.old trail.new report.old report.new (forget result) }
    ensures value { IfOk result (λ out. out ≡ M.value form.now.1 tree.now) }
    ensures sound { OnOk result (Sound (M.visits form.now.1 (H.form_text h.now) tree.now
        and beyond form.now.0 (H.form_text h.now) (length items.entry))
        (λ out. M.keeps form.now.1 out) (M.value form.now.1 tree.now)) }
{
    let value = form.1.read_members(tree, trail, report, h)?;
    let told = check_count(form.0, items, trail, report, h);
    with(told, value)
}

impl<'a, M: Members<'a>> Form<'a> for InOrder<M> {
    type Out = M::Out;

    ghost visits = { λ form texts j. formed (texts (Wrong wanted.List (kind_of j)))
        (λ js. M.visits form.1 texts j and beyond form.0 texts (length js)) (list_of j) };

    ghost value = { λ form j. option_and_then (λ _. M.value form.1 j) (list_of j) };

    ghost keeps = { λ form out. M.keeps form.1 out };

    fn read<'t, H: I18n + FormI18n>(
        &self,
        tree: &Tree<'t, 'a>,
        trail: &mut Trail<'a>,
        report: &mut Report,
        h: &H,
    ) -> Result<Option<M::Out>, AllocError> {
        match tree.items() {
            Some(items) => read_all(self, items, tree, trail, report, h),
            None => {
                let fault = FormFault::Wrong(Wanted::List, tree.kind());
                with(put(fault, trail, report, h), None)
            }
        }
    }
}
