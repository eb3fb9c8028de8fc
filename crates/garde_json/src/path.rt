//! Components and paths that are read from a text.
ghost use Rattle.std.specs.Prelude.{◌≡◌, ◌≢◌, ◌∷◌, [], ◌++◌, List, IfOk, IsOkAnd, MatchOption};
ghost use Rattle.serde_json.specs.Written.{outline};
ghost use Rattle.garde_json.specs.Json.{part_json, path_json};
ghost use Rattle.garde_report.specs.Part.{Part, part};
ghost use Rattle.garde_report.specs.declared.error.component.Kind.{Kind as AKind};
ghost use Rattle.garde_json.specs.Form.{Reads, spelled};

use crate::form::{pair, text_in};
use crate::kind::kind_named;
use garde_report::rc_list::JoinError;
use garde_report::{Component, Kind, Path, PathComponentKind};
use garde_tape::Tree;
use std::alloc::{AllocError, Global};

/// An index by its text, which need not be a number.
#[derive(Clone, Copy, Debug)]
struct IndexText<'a>(&'a str);

impl PathComponentKind for IndexText<'_> {
    ghost use Rattle.garde_report.specs.declared.error.component.Kind.TheVariants.{Index};

    ghost kind = { Index };

    ghost text = { λ index. index.0.now };

    fn component_kind() -> Kind
        ensures { result ≡ AKind.Index }
    {
        Kind::Index
    }

    fn component(&self) -> Component<'_> {
        Component::text(Kind::Index, self.0)
    }
}

/// A component of the kind `none` by its text, which need not be empty.
#[derive(Clone, Copy, Debug)]
struct NoneText<'a>(&'a str);

impl PathComponentKind for NoneText<'_> {
    ghost use Rattle.garde_report.specs.declared.error.component.Kind.TheVariants.{None};

    ghost kind = { None };

    ghost text = { λ unnamed. unnamed.0.now };

    fn component_kind() -> Kind
        ensures { result ≡ AKind.None }
    {
        Kind::None
    }

    fn component(&self) -> Component<'_> {
        Component::text(Kind::None, self.0)
    }
}

// The kind and the text of a component.
fn component_in<'a>(tree: &Tree<'_, 'a>) -> Option<(Kind, &'a str)>
    ensures { MatchOption result ((p : Part) → tree.now ≢ outline (part_json p))
        (λ both. tree.now ≡ outline (part_json (part both.0 both.1.now))) }
{
    let (kind, text) = pair(tree)?;
    let kind = kind_named(text_in(&kind)?)?;
    Some((kind, text_in(&text)?))
}

// The path with one component more at the end. For one of `usize::MAX` there is no memory.
pub(crate) fn join(alloc: Global, path: &Path, kind: Kind, text: &str) -> Result<Path, AllocError>
    ensures { IfOk result (λ longer. longer ≡ path.now ++ part kind text.now ∷ []) }
{
    let longer = match kind {
        Kind::Key => path.join(alloc, text),
        Kind::Index => path.join(alloc, IndexText(text)),
        Kind::None => path.join(alloc, NoneText(text)),
    };
    match longer {
        Ok(longer) => Ok(longer),
        Err(JoinError::Memory) => Err(AllocError),
        Err(JoinError::TooLong) => Err(AllocError),
    }
}

// The same of a path where there was memory for it.
pub(crate) fn joined(
    alloc: Global,
    path: Result<Path, AllocError>,
    kind: Kind,
    text: &str,
) -> Result<Path, AllocError>
    ensures { IfOk result (λ longer. IsOkAnd path (λ made. longer ≡ made ++ part kind text.now ∷ [])) }
{
    let path = path?;
    join(alloc, &path, kind, text)
}

/// The path whose written form this is, where there is memory for it. All of the form is read where
/// there is none.
pub(crate) fn path_in(alloc: Global, tree: &Tree<'_, '_>) -> Option<Result<Path, AllocError>>
    ensures { Reads (spelled path_json) tree.now result }
{
    let mut items = tree.items()?;
    let mut path = Ok(Path::empty());
    while let Some(item) = items.next() {
        let (kind, text) = component_in(&item)?;
        path = joined(alloc, path, kind, text);
    }
    Some(path)
}
