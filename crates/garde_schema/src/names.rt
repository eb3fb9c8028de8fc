//! Names that came before.
ghost use Rattle.std.specs.Prelude.{◌≡◌, ℕ, List, false, IfOk, OnOk};
ghost use Rattle.garde_schema.specs.Maps.{has_name, with_name};

use smallvec::SmallVec;
use std::alloc::{AllocError, Global};
use std::collections::BTreeSet;

// How many names are looked for one after the other.
const FEW: usize = 8;

// The first few names, which take no allocation, and the others.
#[derive(Drop)]
pub(crate) struct Names<'a> {
    few: SmallVec<&'a str, FEW>,
    others: BTreeSet<&'a str>,
}

impl<'a> Names<'a> {
    // No name.
    pub(crate) fn new(alloc: Global) -> Names<'a>
        ensures { (name : List ℕ) → has_name result name ≡ false }
    {
        Names {
            few: SmallVec::new(alloc),
            others: BTreeSet::new(alloc),
        }
    }

    // Adds a name, and returns whether it was there before.
    pub(crate) fn add(&mut self, name: &'a str) -> Result<bool, AllocError>
        ensures came { IfOk result (λ came. came ≡ has_name self.old name.now) }
        ensures names { OnOk result ((other : List ℕ)
            → has_name self.new other ≡ with_name name.now (λ other. has_name self.old other) other) }
    {
        if self.few.contains(&name) {
            return Ok(true);
        }
        if self.few.len() < FEW && self.others.is_empty() {
            self.few.push(name)?;
            return Ok(false);
        }
        let is_new = self.others.insert(name)?;
        Ok(!is_new)
    }
}
