//! The form of a row.
ghost use Rattle.std.specs.Prelude.{◌≡◌, None, IfOk, OnOk, if◌then◌else◌};
ghost use Rattle.garde_report.specs.Part.{index_part};
ghost use Rattle.garde.specs.Visits.{Visited, under};
ghost use Rattle.garde_schema.specs.Forms.{forget, Sound};
ghost use Rattle.garde_rows.specs.Rows.{if_whole};

use crate::put::put_other_count;
use garde::{Component, I18n, Report, Trail};
use garde_schema::{Form, FormI18n, Tree};
use std::alloc::AllocError;

// A row, under its index: this form where it has a cell for each column and no more, else a fault.
#[derive(Drop)]
pub(crate) struct RowForm<'f, F> {
    pub(crate) index: usize,
    pub(crate) is_whole: bool,
    pub(crate) form: &'f F,
}

// Reads the row, where it is whole.
fn read_cells<'t, 'a, F: Form<'a>, H: I18n + FormI18n>(
    row: &RowForm<'_, F>,
    tree: &Tree<'t, 'a>,
    trail: &mut Trail<'a>,
    report: &mut Report,
    h: &H,
) -> Result<Option<F::Out>, AllocError>
    ensures answer { Visited (if_whole (H.form_text h.now) row.now.is_whole (F.visits row.now.form.now (H.form_text h.now) tree.now))
        (H.text h.now) trail.old trail.new report.old report.new (forget result) }
    ensures value { IfOk result (λ out. out ≡ (if row.now.is_whole then F.value row.now.form.now tree.now else None)) }
    ensures sound { OnOk result (Sound
        (if_whole (H.form_text h.now) row.now.is_whole (F.visits row.now.form.now (H.form_text h.now) tree.now))
        (λ out. F.keeps row.now.form.now out)
        (if row.now.is_whole then F.value row.now.form.now tree.now else None)) }
{
    if row.is_whole {
        return row.form.read(tree, trail, report, h);
    }
    match put_other_count(trail, report, h) {
        Ok(()) => Ok(None),
        Err(refused) => Err(refused),
    }
}

#[tactic(auto, unfolding(garde::specs::Visits::Known))]
impl<'a, 'f, F: Form<'a>> Form<'a> for RowForm<'f, F> {
    type Out = F::Out;

    ghost visits = { λ row texts j. under (index_part row.index)
        (if_whole texts row.is_whole (F.visits row.form.now texts j)) };

    ghost value = { λ row j. if row.is_whole then F.value row.form.now j else None };

    ghost keeps = { λ row out. F.keeps row.form.now out };

    fn read<'t, H: I18n + FormI18n>(
        &self,
        tree: &Tree<'t, 'a>,
        trail: &mut Trail<'a>,
        report: &mut Report,
        h: &H,
    ) -> Result<Option<F::Out>, AllocError> {
        trail.push(Component::index(self.index))?;
        let value = read_cells(self, tree, trail, report, h);
        trail.pop();
        value
    }
}
