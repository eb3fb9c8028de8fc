//! The types whose values are components of paths.
ghost use Rattle.std.specs.Prelude.{◌≡◌, [], Some};
ghost use Rattle.std.specs.Fmt.{decimal};
ghost use Rattle.std.specs.String.{string_bytes};
ghost use Rattle.std.specs.Cow.{cow_str_bytes};
ghost use Rattle.garde_report.specs.Part.{part, part_of};

mod numbers;

use super::component::{Component, Kind};
use std::borrow::CowStr;
use std::fmt;

/// The component without a name. It prints nothing.
#[derive(Clone, Copy, Debug, Default)]
pub struct NoKey(());

impl fmt::Display for NoKey {
    ghost output = { λ _. Some [] };

    fn fmt<W: fmt::Write>(&self, _f: &mut fmt::Formatter<W>) -> fmt::Result {
        Ok(())
    }
}

/// A type whose values can be components of a path. All values of a type have one kind.
pub trait PathComponentKind {
    ghost use Rattle.std.specs.Prelude.{ℕ, List};
    ghost use Rattle.garde_report.specs.declared.error.component.Kind.{Kind};

    /// The kind of each value of the type.
    ghost kind: { Kind };

    /// The text of the component of a value.
    ghost text: { Self → List ℕ };

    /// The kind of each value of the type.
    fn component_kind() -> Kind
        ensures { result ≡ kind };

    /// The component of this value. It has that kind, and depends on the value alone.
    fn component(&self) -> Component<'_>
        ensures { part_of result ≡ part kind (text self.now) };
}

impl PathComponentKind for usize {
    ghost use Rattle.garde_report.specs.declared.error.component.Kind.TheVariants.{Index};

    ghost kind = { Index };

    ghost text = { decimal };

    fn component_kind() -> Kind {
        Kind::Index
    }

    fn component(&self) -> Component<'_> {
        Component::index(*self)
    }
}

impl PathComponentKind for &str {
    ghost use Rattle.garde_report.specs.declared.error.component.Kind.TheVariants.{Key};

    ghost kind = { Key };

    ghost text = { λ text. text.now };

    fn component_kind() -> Kind
        ensures { result ≡ Kind.Key }
    {
        Kind::Key
    }

    fn component(&self) -> Component<'_> {
        Component::key(self)
    }
}

impl PathComponentKind for String {
    ghost use Rattle.garde_report.specs.declared.error.component.Kind.TheVariants.{Key};

    ghost kind = { Key };

    ghost text = { string_bytes };

    fn component_kind() -> Kind {
        Kind::Key
    }

    fn component(&self) -> Component<'_> {
        Component::key(self.as_str())
    }
}

impl PathComponentKind for CowStr<'_> {
    ghost use Rattle.garde_report.specs.declared.error.component.Kind.TheVariants.{Key};

    ghost kind = { Key };

    ghost text = { cow_str_bytes };

    fn component_kind() -> Kind
        ensures { result ≡ Kind.Key }
    {
        Kind::Key
    }

    fn component(&self) -> Component<'_> {
        Component::key(self.as_str())
    }
}

impl PathComponentKind for NoKey {
    ghost use Rattle.garde_report.specs.declared.error.component.Kind.TheVariants.{None};

    ghost kind = { None };

    ghost text = { λ _. [] };

    fn component_kind() -> Kind {
        Kind::None
    }

    fn component(&self) -> Component<'_> {
        Component::unnamed()
    }
}

impl<T: PathComponentKind> PathComponentKind for &T {
    ghost kind = { T.kind };

    ghost text = { λ component. T.text component.now };

    fn component_kind() -> Kind {
        T::component_kind()
    }

    fn component(&self) -> Component<'_> {
        (**self).component()
    }
}
