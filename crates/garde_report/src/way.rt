//! A stack whose first items lie in the value itself.
ghost use Rattle.std.specs.Prelude.{◌≡◌, ◌-◌, ◌<◌, ◌≤◌, [], ◌∷◌, ◌++◌, length, take, slice_index_or, OnOk, OnErr};

use crate::error::Component;
use std::alloc::{AllocError, Global};
use std::marker::Model;

/// A stack of components that allocates only if it has more than 8 of them.
#[derive(Debug)]
pub(crate) struct Way<'a> {
    depth: usize,
    // The first items, of which the first `depth` count.
    near: [Component<'a>; 8],
    // The items behind them. The last ones may have been taken off the stack, so that taking one is
    // a subtraction.
    far: Vec<Component<'a>>,
}

impl<'a> Model for Way<'a> {
    ghost use Rattle.std.specs.Prelude.{◌≡◌, ◌+◌, ◌≤◌, List, ◌++◌, length, take};
    ghost use Rattle.garde_report.specs.declared.error.component.Component.{Component};

    ghost Value = { List Component };

    ghost view = { λ w. take w.depth (w.near ++ w.far.items) };

    ghost invariant = { λ w. record {
      room : length w.near ≡ 8;
      all : w.depth ≤ 8 + length w.far.items;
    } };
}

impl<'a> Drop for Way<'a> {
    fn drop(self) {
        let Way {
            depth: _,
            near: _near,
            far: _far,
        } = self;
    }
}

impl<'a> Way<'a> {
    /// The stack without an item.
    #[inline]
    pub(crate) fn new(alloc: Global) -> Self
        ensures { result ≡ [] }
    {
        Way {
            depth: 0,
            near: [Component::unnamed(); 8],
            far: Vec::new(alloc),
        }
    }

    /// The number of items.
    #[inline]
    pub(crate) fn len(&self) -> usize
        ensures { result ≡ length self.now }
    {
        self.depth
    }

    /// The item with this number, counted from 0 at the first one.
    pub(crate) fn at(&self, index: usize) -> Component<'a>
        requires { index < length self.now }
        ensures { result ≡ slice_index_or self.now index result }
    {
        if index < 8 {
            self.near[index]
        } else {
            self.far[index - 8]
        }
    }

    /// Puts an item on the stack. With fewer than 8 items this allocates nothing. When memory runs
    /// out, the stack stays as it was.
    #[inline(always)]
    #[tactic(auto, using(crate::proofs::Ways::near_push, crate::proofs::Ways::far_push, crate::proofs::Ways::far_kept))]
    pub(crate) fn push(&mut self, item: Component<'a>) -> Result<(), AllocError>
        ensures ok { OnOk result (self.new ≡ self.old ++ item.entry ∷ []) }
        ensures err { OnErr result (self.new ≡ self.old) }
        ensures full { OnErr result (8 ≤ length self.old) }
    {
        let depth = self.depth;
        if depth < 8 {
            self.near[depth] = item;
        } else {
            push_far(&mut self.far, depth - 8, item)?;
        }
        self.depth = depth + 1;
        Ok(())
    }

    /// Takes the last item from the stack.
    #[inline(always)]
    pub(crate) fn pop(&mut self)
        requires { 0 < length self.old }
        ensures { self.new ≡ take (length self.old - 1) self.old }
    {
        self.depth -= 1;
    }
}

// Puts an item behind the first `kept` of the far ones.
#[inline(never)]
fn push_far<'a>(
    far: &mut Vec<Component<'a>>,
    kept: usize,
    item: Component<'a>,
) -> Result<(), AllocError>
    ensures ok { OnOk result (far.new.items ≡ take kept far.old.items ++ item.entry ∷ []) }
    ensures err { OnErr result (far.new.items ≡ take kept far.old.items) }
{
    far.truncate(kept);
    far.push(item)?;
    Ok(())
}
