//! Faults of form, put into a report.
ghost use Rattle.std.specs.Prelude.{◌≡◌, ℕ, List, IfOk};
ghost use Rattle.std.specs.Cow.{cow_str_bytes};
ghost use Rattle.garde.specs.Visits.{Visited};
ghost use Rattle.garde_schema.specs.Forms.{refused, forget};

use garde::{I18n, Report, RuleError, Trail};
use std::alloc::AllocError;
use std::borrow::CowStr;

// Puts a fault of form with this text where the trail leads.
#[inline(never)]
pub(crate) fn put<'a, H: I18n>(
    text: Result<CowStr<'static>, AllocError>,
    trail: &mut Trail<'a>,
    report: &mut Report,
    h: &H,
) -> Result<(), AllocError>
    ensures { (message : List ℕ) → IfOk text.entry (λ s. cow_str_bytes s ≡ message)
        → Visited (refused message) (H.text h.now)
        trail.old trail.new report.old report.new result }
{
    let alloc = trail.alloc();
    trail.put(report, Err(RuleError::of(alloc, text)))
}

// This result, with a value.
#[inline(always)]
pub(crate) fn with<T: Drop>(told: Result<(), AllocError>, value: T) -> Result<T, AllocError>
    ensures answer { forget result ≡ told }
    ensures value { IfOk result (λ out. out ≡ value) }
{
    match told {
        Ok(()) => Ok(value),
        Err(refused) => Err(refused),
    }
}
