//! Tables that were read from a file, which own their texts.
ghost use Rattle.std.specs.Prelude.{◌≡◌, ◌∷◌, ◌++◌, [], map, IfOk, OnOk};
ghost use Rattle.garde_catalog.specs.Lines.{line_of, owned_line};

use crate::lines::Entry;
use std::alloc::{AllocError, Global};
use std::marker::Model;

/// The texts of a language that were read from a file, each with its code, in the order of the messages. A
/// contract sees the list of them. It owns its texts.
#[derive(Debug, Drop)]
pub struct Table {
    lines: Vec<(&'static str, String)>,
}

impl Model for Table {
    ghost use Rattle.std.specs.Prelude.{List, map};
    ghost use Rattle.garde_catalog.specs.Lines.{Line, owned_line};

    ghost Value = { List Line };

    ghost view = { λ table. map owned_line table.lines.items };
}

// Lines that borrow their texts from these.
fn lend<'t>(
    alloc: Global,
    owned: &'t [(&'static str, String)],
) -> Result<Vec<Entry<'t>>, AllocError>
    ensures { IfOk result (λ lines. map line_of lines.items ≡ map owned_line owned.now) }
{
    let mut lines = Vec::new(alloc);
    for (code, text) in owned {
        lines.push((*code, text.as_str()))?;
    }
    Ok(lines)
}

impl Table {
    // No texts. It allocates nothing.
    pub(crate) fn new(alloc: Global) -> Table
        ensures { result ≡ [] }
    {
        Table {
            lines: Vec::new(alloc),
        }
    }

    // Appends the text of a code.
    pub(crate) fn push(
        &mut self,
        alloc: Global,
        code: &'static str,
        text: &str,
    ) -> Result<(), AllocError>
        ensures { OnOk result (self.new ≡ self.old ++ (code.now, text.now) ∷ []) }
    {
        self.lines.push((code, String::from_str(alloc, text)?))?;
        Ok(())
    }

    /// The lines of the table, which `Catalog::lent` takes.
    pub fn lines<'t>(&'t self, alloc: Global) -> Result<Vec<Entry<'t>>, AllocError>
        ensures { IfOk result (λ lines. map line_of lines.items ≡ self.now) }
    {
        lend(alloc, &self.lines)
    }
}
