//! Nodes that lists share.
ghost use Rattle.std.specs.Prelude.{◌≡◌, [], ◌∷◌, ◌++◌, IfOk, IsOk, MatchOption};

use std::alloc::{AllocError, Global};
use std::marker::Model;
use std::rc::Rc;

/// Items, each in a node that leads to the one before it. Nothing changes a node that another
/// chain may share.
#[cycle(chain)]
#[derive(Debug)]
pub(super) struct Chain<T> {
    last: Option<Rc<Node<T>>>,
}

#[cycle(chain)]
#[derive(Debug, Drop)]
struct Node<T> {
    before: Chain<T>,
    value: T,
}

impl<T> Model for Chain<T> {
    ghost use Rattle.std.specs.Prelude.{List as Items, length};

    ghost Value = { Items T };

    ghost use Rattle.garde_report.specs.Chain.{items_at};

    ghost view = { λ a. items_at a.last };

    ghost size = { length };

    ghost use Rattle.std.proofs.Common.{arith, length-append};

    ghost size_decreases = { λ a. Prim.grind (arith, length-append) };
}

impl<T: Drop> Drop for Chain<T> {
    // A loop, so that a long chain needs no more of the stack than a short one.
    fn drop(mut self) {
        loop {
            let Chain { last } = self;
            let Some(node) = last else { return };
            match Rc::into_inner(node) {
                Some(
                    Node {
                        before,
                        value: _value,
                    },
                ) => self = before,
                None => return,
            }
        }
    }
}

impl<T> Chain<T> {
    /// The chain of no item.
    pub(super) fn new() -> Self
        ensures { result ≡ [] }
    {
        Chain { last: None }
    }

    /// The last item, and the chain of those before it.
    pub(super) fn split_last(&self) -> Option<(&T, &Chain<T>)>
        ensures { MatchOption result (self.now ≡ [])
            (λ both. self.now ≡ both.1.now ++ both.0.now ∷ []) }
    {
        match &self.last {
            Some(node) => Some((&node.value, &node.before)),
            None => None,
        }
    }
}

impl<T: Drop> Chain<T> {
    /// These items, and one more after them. It is dropped where there is no memory.
    pub(super) fn append(self, alloc: Global, value: T) -> Result<Chain<T>, AllocError>
        ensures { IfOk result (λ chain. chain ≡ self ++ value ∷ []) }
    {
        let before = self;
        let node = Rc::new(alloc, Node { before, value })?;
        Ok(Chain { last: Some(node) })
    }
}

/// The clone shares all nodes. It fails only where a shared node cannot be counted once more.
impl<T: Drop> Clone for Chain<T> {
    ghost is_clone = { λ chain copy. copy ≡ chain };

    fn clone(&self) -> Result<Chain<T>, AllocError>
        ensures ok { IfOk result (λ copy. copy ≡ self.now) }
        ensures empty { self.now ≡ [] → IsOk result }
    {
        let last = match &self.last {
            Some(node) => Some(node.clone()?),
            None => None,
        };
        Ok(Chain { last })
    }
}
