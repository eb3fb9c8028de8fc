//! Faults of form, put into a report.
ghost use Rattle.std.specs.Prelude.{not};
ghost use Rattle.garde_report.specs.Part.{key_part};
ghost use Rattle.garde.specs.Visits.{Visited, under, when};
ghost use Rattle.garde_schema.specs.Forms.{refused};

use garde::{Component, I18n, Report, RuleError, Trail};
use garde_schema::{FormFault, FormI18n};
use std::alloc::AllocError;

// Puts a fault of form with the handler's text where the trail leads. It stands out of line, so that
// a value without a fault costs a test.
#[inline(never)]
pub(crate) fn put<'a, H: I18n + FormI18n>(
    fault: FormFault,
    trail: &mut Trail<'a>,
    report: &mut Report,
    h: &H,
) -> Result<(), AllocError>
    ensures { Visited (refused (H.form_text h.now fault)) (H.text h.now)
        trail.old trail.new report.old report.new result }
{
    let alloc = trail.alloc();
    let text = h.form_fault(alloc, fault);
    trail.put(report, Err(RuleError::of(alloc, text)))
}

// Puts a fault of form where this does not hold.
#[inline]
pub(crate) fn put_unless<'a, H: I18n + FormI18n>(
    holds: bool,
    fault: FormFault,
    trail: &mut Trail<'a>,
    report: &mut Report,
    h: &H,
) -> Result<(), AllocError>
    ensures { Visited (when (not holds) (refused (H.form_text h.now fault))) (H.text h.now)
        trail.old trail.new report.old report.new result }
{
    if holds {
        Ok(())
    } else {
        put(fault, trail, report, h)
    }
}

// Puts a fault of form under this name.
#[inline(never)]
pub(crate) fn put_under<'a, H: I18n + FormI18n>(
    name: &'a str,
    fault: FormFault,
    trail: &mut Trail<'a>,
    report: &mut Report,
    h: &H,
) -> Result<(), AllocError>
    ensures { Visited (under (key_part name.now) (refused (H.form_text h.now fault))) (H.text h.now)
        trail.old trail.new report.old report.new result }
{
    trail.push(Component::key(name))?;
    let told = put(fault, trail, report, h);
    trail.pop();
    told
}
