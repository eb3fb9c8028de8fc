//! What is read with no look inside.
ghost use Rattle.std.specs.Prelude.{◌≡◌, Option, IfOk, OnOk};
ghost use Rattle.json.specs.Json.{Json};
ghost use Rattle.garde.specs.Visits.{Visited, Known};
ghost use Rattle.garde_tape.specs.Look.{kind_of};
ghost use Rattle.garde_schema.specs.declared.fault.FormFault.{FormFault};
ghost use Rattle.garde_schema.specs.declared.fault.FormFault.TheVariants.{Wrong};
ghost use Rattle.garde_schema.specs.Forms.{formed, forget, Sound};

use crate::fault::{FormFault, Wanted};
use crate::handler::FormI18n;
use crate::put::{put, with};
use garde::fields::Rules;
use garde::{I18n, Report, Trail};
use garde_tape::Tree;
use std::alloc::AllocError;

// What is wanted in a place. It says what is wrong with a tree of another form.
pub(crate) trait Misfit {
    // What is wrong with a tree of another form.
    ghost misfit: { Self → Json → FormFault };

    // What is wrong with this tree, which has another form.
    fn misfit(&self, tree: &Tree<'_, '_>) -> FormFault
        ensures { result ≡ misfit self.now tree.now };
}

impl Misfit for Wanted {
    ghost misfit = { λ wanted j. Wrong wanted (kind_of j) };

    fn misfit(&self, tree: &Tree<'_, '_>) -> FormFault {
        FormFault::Wrong(*self, tree.kind())
    }
}

// Asks the rules of what a tree was seen as, or reports that it has another form.
#[inline(always)]
pub(crate) fn read_seen<'t, 'a, W: Misfit, T: Drop, R: Rules<T>, H: I18n + FormI18n>(
    tree: &Tree<'t, 'a>,
    wanted: &W,
    seen: Option<T>,
    rules: &R,
    trail: &mut Trail<'a>,
    report: &mut Report,
    h: &H,
) -> Result<Option<T>, AllocError>
    ensures answer { (is : Option T) → seen ≡ is
        → Visited (formed (H.form_text h.now (W.misfit wanted.now tree.now)) (λ v. R.asks rules.now v) is) (H.text h.now)
        trail.old trail.new report.old report.new (forget result) }
    ensures value { IfOk result (λ out. out ≡ seen) }
    ensures sound { (is : Option T) → seen ≡ is → OnOk result
        (Sound (formed (H.form_text h.now (W.misfit wanted.now tree.now)) (λ v. R.asks rules.now v) is)
        (λ v. Known (R.asks rules.now v)) is) }
{
    match seen {
        Some(value) => {
            let told = rules.ask(&value, trail, report, h);
            with(told, Some(value))
        }
        None => {
            let fault = wanted.misfit(tree);
            with(put(fault, trail, report, h), None)
        }
    }
}
