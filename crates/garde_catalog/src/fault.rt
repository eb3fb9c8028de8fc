//! What is wrong with a table.
ghost use Rattle.std.specs.Prelude.{Some};
ghost use Rattle.garde_catalog.specs.Catalog.{catalog_error_text};

use crate::messages::Message;
use crate::template::TemplateFault;
use std::alloc::AllocError;
use std::fmt;

/// What is wrong with a table under the code of a message.
#[derive(Clone, Copy, Debug, Drop, PartialEq, Eq)]
pub enum Wrong {
    /// The table has no text under the code.
    Missing,
    /// The table has several texts under the code.
    Repeated,
    /// The one text under the code is no template.
    Template(TemplateFault),
}

/// A fault of a table.
#[derive(Clone, Copy, Debug, Drop, PartialEq, Eq)]
pub struct CatalogFault {
    /// The message.
    pub message: Message,
    /// What is wrong.
    pub wrong: Wrong,
}

/// Why no catalog is made.
#[derive(Debug, Drop)]
pub enum CatalogError {
    /// The table has these faults, in the order of the messages.
    Faults(Vec<CatalogFault>),
    /// Out of memory.
    Memory,
}

impl From<AllocError> for CatalogError {
    ghost use Rattle.std.specs.Prelude.{◌≡◌};
    ghost use Rattle.garde_catalog.specs.declared.fault.CatalogError.TheVariants.{Memory};

    ghost from_gives = { λ _ error. error ≡ Memory };

    fn from(_error: AllocError) -> CatalogError {
        CatalogError::Memory
    }
}

impl fmt::Display for CatalogError {
    ghost output = { λ error. Some (catalog_error_text error) };

    fn fmt<W: fmt::Write>(&self, f: &mut fmt::Formatter<W>) -> fmt::Result {
        match self {
            CatalogError::Faults(_) => f.write_str("the table of texts has faults"),
            CatalogError::Memory => f.write_str("out of memory"),
        }
    }
}

impl std::error::Error for CatalogError {}
