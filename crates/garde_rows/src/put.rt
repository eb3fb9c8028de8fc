//! The fault of a row that is not whole.
ghost use Rattle.std.specs.Prelude.{◌≡◌};
ghost use Rattle.garde.specs.Visits.{Visited};
ghost use Rattle.garde_schema.specs.Forms.{refused};
ghost use Rattle.garde_schema.specs.declared.fault.FormFault.TheVariants.{RowLength};

use garde::{I18n, Report, RuleError, Trail};
use garde_schema::{FormFault, FormI18n};
use std::alloc::AllocError;

// Puts the fault of a row with more or fewer cells than there are columns where the trail leads.
#[inline(never)]
pub(crate) fn put_other_count<'a, H: I18n + FormI18n>(
    trail: &mut Trail<'a>,
    report: &mut Report,
    h: &H,
) -> Result<(), AllocError>
    ensures { Visited (refused (H.form_text h.now RowLength)) (H.text h.now)
        trail.old trail.new report.old report.new result }
{
    let alloc = trail.alloc();
    let text = h.form_fault(alloc, FormFault::RowLength);
    trail.put(report, Err(RuleError::of(alloc, text)))
}
