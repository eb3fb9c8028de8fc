//! The components of a path, from the root on.
ghost use Rattle.std.specs.Prelude.{◌≡◌, ◌≤◌, map, length, IfOk, IsOk};
ghost use Rattle.garde_report.specs.Part.{item_part};

use garde_report::{Kind, Path};
use smallvec::SmallVec;
use std::alloc::{AllocError, Global};

/// The kinds and texts of the components of a path, from the first on. Up to 8 of them allocate
/// nothing.
pub(crate) fn way_of<'p>(
    alloc: Global,
    path: &'p Path,
) -> Result<SmallVec<(Kind, &'p str), 8>, AllocError>
    ensures items { IfOk result (λ way. map item_part way.items ≡ path.now) }
    ensures inline { length path.now ≤ 8 → IsOk result }
{
    let mut left = path.iter(alloc)?;
    let mut way = SmallVec::with_capacity(alloc, left.len())?;
    while let Some(component) = left.next_back() {
        way.push_reserved(component);
    }
    Ok(way)
}
