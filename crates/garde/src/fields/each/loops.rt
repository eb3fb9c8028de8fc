//! A check of whatever an iterator lends.
ghost use Rattle.std.specs.Prelude.{List, ◌<◌, ◌^◌};
ghost use Rattle.std.specs.Iterator.{IsFinite, size};
ghost use Rattle.std.specs.Map.Iter.{deref, deref_pair};
ghost use Rattle.std.proofs.lemmas.Iterator.{YieldsList};
ghost use Rattle.garde_report.specs.Part.{part};
ghost use Rattle.garde.specs.Visits.{Visited, items, entries};

use crate::fields::check::{Check, check_under};
use garde_i18n::I18n;
use garde_report::{Component, PathComponentKind, Report, Trail};
use std::alloc::AllocError;

/// Checks the items in the order in which they come, each under its index in that order.
///
/// `AllocError` is returned where memory runs out, under the terms of `Validate::validate_into`.
pub(super) fn check_items<'a, T: 'a, I: Iterator<Item = &'a T>, C: Check<'a, T>, H: I18n>(
    source: I,
    check: &C,
    trail: &mut Trail<'a>,
    report: &mut Report,
    h: &H,
) -> Result<(), AllocError>
    requires can { I.can_next source }
    requires ends { IsFinite (I.remaining source) }
    requires fits { size (I.remaining source) < 2 ^ 64 }
    // It holds of whatever list the source gives.
    ensures { (xs : List T) → YieldsList I.next_gives deref source xs
        → Visited (items (λ x. C.visits check.now x) xs) (H.text h.now)
        trail.old trail.new report.old report.new result }
{
    for (index, item) in source.enumerate() {
        check_under(Component::index(index), check, item, trail, report, h)?;
    }
    Ok(())
}

/// Checks the values in the order in which they come, each under the component of its key.
///
/// `AllocError` is returned where memory runs out, under the terms of `Validate::validate_into`.
pub(super) fn check_entries<
    'a,
    K: PathComponentKind + 'a,
    V: 'a,
    I: Iterator<Item = (&'a K, &'a V)>,
    C: Check<'a, V>,
    H: I18n,
>(source: I, check: &C, trail: &mut Trail<'a>, report: &mut Report, h: &H) -> Result<(), AllocError>
    requires can { I.can_next source }
    requires ends { IsFinite (I.remaining source) }
    // It holds of whatever list the source gives.
    ensures { (es : List (K × V)) → YieldsList I.next_gives deref_pair source es
        → Visited (entries (λ k. part K.kind (K.text k)) (λ x. C.visits check.now x) es) (H.text h.now)
        trail.old trail.new report.old report.new result }
{
    for (key, value) in source {
        check_under(key.component(), check, value, trail, report, h)?;
    }
    Ok(())
}
