//! A check of each item of a part of a list, under its index in the whole list.
ghost use Rattle.std.specs.Prelude.{◌+◌, ◌<◌, ◌^◌, length};
ghost use Rattle.std.specs.List.{enumerate_from};
ghost use Rattle.garde_report.specs.Part.{index_part};
ghost use Rattle.garde.specs.Visits.{Visited, entries};

use crate::fields::check::{Check, check_under};
use garde_i18n::I18n;
use garde_report::{Component, Report, Trail};
use std::alloc::AllocError;

/// Checks the items of a part of a list, each under its index in the whole list, where the first
/// item of the part has the index `first`.
///
/// The reports of all parts of a list, one after another, are the report of the list: this is the
/// law `garde::laws::items_in_parts`. `AllocError` is returned where memory runs out, under the
/// terms of `Validate::validate_into`.
pub fn check_part<'a, T: 'a, C: Check<'a, T>, H: I18n>(
    first: usize,
    part: &'a [T],
    check: &C,
    trail: &mut Trail<'a>,
    report: &mut Report,
    h: &H,
) -> Result<(), AllocError>
    requires fits { first + length part.now < 2 ^ 64 }
    ensures { Visited (entries index_part (λ x. C.visits check.now x) (enumerate_from first part.now))
        (H.text h.now) trail.old trail.new report.old report.new result }
{
    for (index, item) in part.iter().enumerate() {
        check_under(
            Component::index(first + index),
            check,
            item,
            trail,
            report,
            h,
        )?;
    }
    Ok(())
}
