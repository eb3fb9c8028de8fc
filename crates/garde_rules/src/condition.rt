//! Rules under a condition.
ghost use Rattle.std.specs.Bool.{MatchBool};
ghost use Rattle.std.specs.Prelude.{◌≡◌, Ok, IsTrue};

use garde_report::RuleError;

/// Returns what the rule returns where the condition holds, and else Ok. The rule is then not
/// called. Only the rule may allocate.
///
/// `rule` must be callable, if the condition holds.
pub fn when<F>(cond: bool, rule: F) -> Result<(), RuleError>
where
    F: FnOnce() -> Result<(), RuleError> + Drop,
    requires { IsTrue cond → F.pre rule }
    ensures { MatchBool cond (F.post rule result) (result ≡ Ok tt) }
{
    if cond { rule() } else { Ok(()) }
}
