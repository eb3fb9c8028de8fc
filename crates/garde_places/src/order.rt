//! Faults in the order of the text.
ghost use Rattle.std.specs.Prelude.{◌≡◌, ◌≤◌, length, IsOk, OnErr, OnOk};
ghost use Rattle.std.specs.List.Sorted.{IsPermutation, IsSortedByKey, IsStableByKey};
ghost use Rattle.garde_places.specs.Fault.{line_and_column, line_first};

use crate::fault::Fault;
use std::alloc::AllocError;

/// Sorts faults by their places, for people: by line, and then by column. Those of one place keep their
/// order. Where memory runs out they stay as they were; up to 20 of them need none.
pub fn sort_by_place(faults: &mut Vec<Fault<'_>>) -> Result<(), AllocError>
    ensures same { IsPermutation faults.old.items faults.new.items }
    ensures sorted { OnOk result (IsSortedByKey line_and_column line_first faults.new.items) }
    ensures stable { IsStableByKey line_and_column line_first faults.old.items faults.new.items }
    ensures err { OnErr result (faults.new.items ≡ faults.old.items) }
    ensures few { length faults.old.items ≤ 20 → IsOk result }
{
    faults.sort_by_key(|fault| (fault.place.line, fault.place.column))?;
    Ok(())
}
