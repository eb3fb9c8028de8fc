//! A component as a path keeps it.
ghost use Rattle.std.specs.Prelude.{◌≡◌, ◌≤◌, Some, length, IfOk, IsOk, refl};
ghost use Rattle.std.specs.Cmp.{partial_equiv_from_equiv, partial_order_from_agreeing_total};
ghost use Rattle.garde_report.specs.Part.{part, part_of};
ghost use Rattle.garde_report.specs.Stored.{IsKeptInline, stored_part};
ghost use Rattle.garde_report.specs.PartOrder.{part_cmp, part_eq, part_writes};
ghost use Rattle.garde_report.specs.PartOrder.{part_eq-equiv, part_cmp-total, part_cmp-ties};
ghost use Rattle.garde_report.specs.PartOrder.{part_writes-alike};

use super::component::{Component, Kind};
use crate::short::Short;
use std::alloc::{AllocError, Global};
use std::cmp::Ordering;
use std::fmt;
use std::hash::{Hash, Hasher};
use std::marker::Model;

/// The most bytes of a text that lies in the component itself.
const SHORT: usize = 22;

/// A component with a text of its own. With up to 22 bytes it allocates nothing.
#[derive(Drop)]
pub(super) struct OwnedComponent {
    stored: Stored,
}

// A short text stands with its kind in the tag, so that the whole has 24 bytes.
#[derive(Drop)]
enum Stored {
    Unnamed(Short<SHORT>),
    Field(Short<SHORT>),
    Place(Short<SHORT>),
    Long(Kind, Box<String>),
}

impl Model for OwnedComponent {
    ghost use Rattle.garde_report.specs.Part.{Part};
    ghost use Rattle.garde_report.specs.Stored.{stored_part};

    ghost Value = { Part };

    ghost view = { λ a. stored_part a.stored };
}

impl OwnedComponent {
    pub(super) fn new(alloc: Global, component: Component<'_>) -> Result<OwnedComponent, AllocError>
        ensures part { IfOk result (λ owned. owned ≡ part_of component.entry) }
        ensures inline { IsKeptInline component.entry → IsOk result }
    {
        let stored = match component {
            Component::Text(kind, text) => store(alloc, kind, text)?,
            Component::Number(number) => Stored::Place(Short::decimal(number)),
            Component::Signed(_) | Component::Wide(_) | Component::WideSigned(_) => {
                let text = format!(in alloc; "{component}")?;
                store(alloc, Kind::Index, text.as_str())?
            }
        };
        Ok(OwnedComponent { stored })
    }

    pub(super) fn kind(&self) -> Kind
        ensures { result ≡ self.now.kind }
    {
        match &self.stored {
            Stored::Unnamed(_) => Kind::None,
            Stored::Field(_) => Kind::Key,
            Stored::Place(_) => Kind::Index,
            Stored::Long(kind, _) => *kind,
        }
    }

    pub(super) fn text(&self) -> &str
        ensures { result.now ≡ self.now.text }
    {
        match &self.stored {
            Stored::Unnamed(text) | Stored::Field(text) | Stored::Place(text) => text.as_str(),
            Stored::Long(_, text) => text.as_str(),
        }
    }
}

// A copy of a text, with its kind.
fn store(alloc: Global, kind: Kind, text: &str) -> Result<Stored, AllocError>
    ensures part { IfOk result (λ stored. stored_part stored ≡ part kind text.now) }
    ensures inline { length text.now ≤ 22 → IsOk result }
{
    let Some(short) = Short::of(text) else {
        let text = String::from_str(alloc, text)?;
        return Ok(Stored::Long(kind, Box::new(alloc, text)?));
    };
    Ok(match kind {
        Kind::None => Stored::Unnamed(short),
        Kind::Key => Stored::Field(short),
        Kind::Index => Stored::Place(short),
    })
}

impl PartialEq for OwnedComponent {
    ghost eq = { part_eq };

    ghost laws = { partial_equiv_from_equiv part_eq-equiv };

    fn eq(&self, other: &OwnedComponent) -> bool {
        self.kind() == other.kind() && self.text() == other.text()
    }
}

impl Eq for OwnedComponent {
    ghost laws = { part_eq-equiv };
}

/// By kind, and then by the bytes of the text.
impl Ord for OwnedComponent {
    ghost cmp = { part_cmp };

    ghost total = { part_cmp-total };

    ghost matches_partial_cmp = { λ x y. refl };

    ghost matches_eq = { part_cmp-ties };

    fn cmp(&self, other: &OwnedComponent) -> Ordering {
        match self.kind().cmp(&other.kind()) {
            Ordering::Equal => self.text().cmp(other.text()),
            order => order,
        }
    }
}

impl PartialOrd for OwnedComponent {
    ghost partial_cmp = { λ x y. Some (part_cmp x y) };

    ghost laws = { partial_order_from_agreeing_total part_cmp part_cmp-total (λ x y. refl)
        part_cmp-ties };

    fn partial_cmp(&self, other: &OwnedComponent) -> Option<Ordering> {
        Some(self.cmp(other))
    }
}

impl Hash for OwnedComponent {
    ghost hash_input = { part_writes };

    ghost respects_eq = { part_writes-alike };

    fn hash<H: Hasher>(&self, state: &mut H) {
        self.kind().hash(state);
        self.text().hash(state);
    }
}

impl fmt::Debug for OwnedComponent {
    fn fmt<W: fmt::Write>(&self, f: &mut fmt::Formatter<W>) -> fmt::Result {
        write!(f, "{:?}", (self.kind(), self.text()))
    }
}
