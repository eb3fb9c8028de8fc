//! The names of kinds.
ghost use Rattle.std.specs.Prelude.{◌≡◌, ◌≢◌, MatchOption};
ghost use Rattle.garde_json.specs.Json.{kind_text};
ghost use Rattle.garde_report.specs.declared.error.component.Kind.{Kind as AKind};

use garde_report::Kind;

/// The name of a kind in written forms.
pub fn kind_name(kind: Kind) -> &'static str
    ensures { result.now ≡ kind_text kind }
{
    match kind {
        Kind::None => "none",
        Kind::Key => "key",
        Kind::Index => "index",
    }
}

/// The kind of this name.
pub(crate) fn kind_named(name: &str) -> Option<Kind>
    ensures { MatchOption result ((kind : AKind) → kind_text kind ≢ name.now)
        (λ kind. kind_text kind ≡ name.now) }
{
    if name == kind_name(Kind::Key) {
        return Some(Kind::Key);
    }
    if name == kind_name(Kind::Index) {
        return Some(Kind::Index);
    }
    if name == kind_name(Kind::None) {
        return Some(Kind::None);
    }
    None
}
