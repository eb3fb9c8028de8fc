//! Rules of another view of a value.
ghost use Rattle.std.specs.Fn.{FnOnceReturnsAt, FnOnceTakesAt};

use garde_report::RuleError;

/// Returns what the rule returns of the view of the value. Only the view and the rule may allocate.
///
/// `view` must be callable on the value, and `rule` on what the view may give of it.
pub fn adapt<'a, T, U, V, F>(v: &'a T, view: V, rule: F) -> Result<(), RuleError>
where
    U: Drop,
    V: FnOnce(&'a T) -> U,
    F: FnOnce(&U) -> Result<(), RuleError>,
    requires viewed { V.pre view v }
    requires asked { (seen : U) → V.post view v seen → FnOnceTakesAt F.FnOnce rule seen }
    ensures { (seen : U) × V.post view v.entry seen × FnOnceReturnsAt F.FnOnce rule seen result }
{
    let seen = view(v);
    rule(&seen)
}
