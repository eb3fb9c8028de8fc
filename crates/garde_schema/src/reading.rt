//! Reading a tree by a form.
ghost use Rattle.std.specs.Prelude.{◌≡◌, ◌<◌, ◌-◌, ◌^◌, Some, IfOk};
ghost use Rattle.garde.specs.Answers.{Answers, AnswersFirst, IsFirst};
ghost use Rattle.garde_schema.specs.Forms.{forget};

use crate::form::Form;
use crate::handler::FormI18n;
use garde::{FirstError, I18n, Report, Trail, ValidateError};
use garde_tape::Tree;
use std::alloc::Global;

/// Reads a tree by a form: the value that it spells, or a report of every fault of its form and of
/// the rules.
pub fn read<'t, 'a, F: Form<'a>, H: I18n + FormI18n>(
    alloc: Global,
    form: &F,
    tree: &Tree<'t, 'a>,
    h: &H,
) -> Result<F::Out, ValidateError>
    ensures answer { Answers (F.visits form.now (H.form_text h.now) tree.now) (H.text h.now) (forget result) }
    ensures value { IfOk result (λ out. F.value form.now tree.now ≡ Some out) }
    ensures keeps { IfOk result (λ out. F.keeps form.now out) }
{
    match read_first(alloc, form, tree, usize::MAX, h) {
        Ok(out) => Ok(out),
        Err(error) => Err(error.into_whole()),
    }
}

/// Reads a tree by a form: the value that it spells, or at most so many faults of its form and of
/// the rules.
///
/// `FirstError::All` has every fault of a tree that has 1 to `most` of them, and `FirstError::First`
/// the first `most` of one that has more. The read ends after one fault more than `most`.
pub fn read_first<'t, 'a, F: Form<'a>, H: I18n + FormI18n>(
    alloc: Global,
    form: &F,
    tree: &Tree<'t, 'a>,
    most: usize,
    h: &H,
) -> Result<F::Out, FirstError>
    ensures answer { AnswersFirst (F.visits form.now (H.form_text h.now) tree.now) (H.text h.now)
        most (forget result) }
    ensures value { IfOk result (λ out. F.value form.now tree.now ≡ Some out) }
    ensures keeps { IfOk result (λ out. F.keeps form.now out) }
    ensures whole { IsFirst (forget result) → most < 2 ^ 64 - 1 }
{
    let mut report = Report::new(alloc);
    let taken = {
        let mut trail = Trail::new(alloc);
        // A report has fewer than `usize::MAX` faults, so that many are all.
        trail.limit(most.saturating_add(1));
        form.read(tree, &mut trail, &mut report, h)
    };
    if report.len() > most {
        report.truncate(most);
        return Err(FirstError::First(report));
    }
    match taken {
        Err(_) => Err(FirstError::Memory),
        Ok(_) if !report.is_empty() => Err(FirstError::All(report)),
        Ok(Some(out)) => Ok(out),
        Ok(None) => unreachable!(),
    }
}
