//! Whole numbers, whose components are indexes.
ghost use Rattle.std.specs.Fmt.{decimal, signed_decimal};
ghost use Rattle.garde_report.specs.declared.error.component.Kind.TheVariants.{Index};

use super::PathComponentKind;
use crate::error::component::{Component, Kind};

impl PathComponentKind for u8 {
    ghost kind = { Index };

    ghost text = { decimal };

    fn component_kind() -> Kind {
        Kind::Index
    }

    fn component(&self) -> Component<'_> {
        Component::Number(*self as usize)
    }
}

impl PathComponentKind for u16 {
    ghost kind = { Index };

    ghost text = { decimal };

    fn component_kind() -> Kind {
        Kind::Index
    }

    fn component(&self) -> Component<'_> {
        Component::Number(*self as usize)
    }
}

impl PathComponentKind for u32 {
    ghost kind = { Index };

    ghost text = { decimal };

    fn component_kind() -> Kind {
        Kind::Index
    }

    fn component(&self) -> Component<'_> {
        Component::Number(*self as usize)
    }
}

impl PathComponentKind for u64 {
    ghost kind = { Index };

    ghost text = { decimal };

    fn component_kind() -> Kind {
        Kind::Index
    }

    fn component(&self) -> Component<'_> {
        Component::Number(*self as usize)
    }
}

impl PathComponentKind for u128 {
    ghost kind = { Index };

    ghost text = { decimal };

    fn component_kind() -> Kind {
        Kind::Index
    }

    fn component(&self) -> Component<'_> {
        Component::Wide(self)
    }
}

impl PathComponentKind for i8 {
    ghost kind = { Index };

    ghost text = { signed_decimal };

    fn component_kind() -> Kind {
        Kind::Index
    }

    fn component(&self) -> Component<'_> {
        Component::Signed(*self as i64)
    }
}

impl PathComponentKind for i16 {
    ghost kind = { Index };

    ghost text = { signed_decimal };

    fn component_kind() -> Kind {
        Kind::Index
    }

    fn component(&self) -> Component<'_> {
        Component::Signed(*self as i64)
    }
}

impl PathComponentKind for i32 {
    ghost kind = { Index };

    ghost text = { signed_decimal };

    fn component_kind() -> Kind {
        Kind::Index
    }

    fn component(&self) -> Component<'_> {
        Component::Signed(*self as i64)
    }
}

impl PathComponentKind for i64 {
    ghost kind = { Index };

    ghost text = { signed_decimal };

    fn component_kind() -> Kind {
        Kind::Index
    }

    fn component(&self) -> Component<'_> {
        Component::Signed(*self)
    }
}

impl PathComponentKind for isize {
    ghost kind = { Index };

    ghost text = { signed_decimal };

    fn component_kind() -> Kind {
        Kind::Index
    }

    fn component(&self) -> Component<'_> {
        Component::Signed(*self as i64)
    }
}

impl PathComponentKind for i128 {
    ghost kind = { Index };

    ghost text = { signed_decimal };

    fn component_kind() -> Kind {
        Kind::Index
    }

    fn component(&self) -> Component<'_> {
        Component::WideSigned(self)
    }
}
