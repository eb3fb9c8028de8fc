//! The first items of a list.
ghost use Rattle.std.specs.Prelude.{◌≡◌, ◌==◌, ◌≤◌, [], ◌∷◌, ◌++◌, length, take, MatchOption};

use super::chain::Chain;
use std::marker::Model;

/// The first items of a list, whose nodes it borrows.
#[derive(Debug, Drop)]
pub(crate) struct Front<'a, T> {
    chain: &'a Chain<T>,
    count: usize,
}

impl<'a, T> Model for Front<'a, T> {
    ghost use Rattle.std.specs.Prelude.{List as Items, ◌≡◌, length};

    ghost Value = { Items T };

    ghost view = { λ a. a.chain.now };

    // The number of items is kept beside them.
    ghost invariant = { λ a. a.count ≡ length a.chain.now };
}

impl<'a, T> Front<'a, T> {
    /// The items of a chain, which has so many of them.
    pub(super) fn new(chain: &'a Chain<T>, count: usize) -> Self
        requires { count ≡ length chain.now }
        ensures { result ≡ chain.now }
    {
        Front { chain, count }
    }

    /// The number of items.
    pub(crate) fn len(&self) -> usize
        ensures { result ≡ length self.now }
    {
        self.count
    }

    /// The last item, if there is one.
    pub(crate) fn last(&self) -> Option<&'a T>
        ensures { MatchOption result (self.now ≡ [])
            (λ last. (before : _) × (self.now ≡ before ++ last.now ∷ [])) }
    {
        let (last, _) = self.chain.split_last()?;
        Some(last)
    }

    /// Gives the last item away, if there is one.
    pub(super) fn pop_last(&mut self) -> Option<&'a T>
        ensures { MatchOption result ((self.old ≡ []) × (self.new ≡ []))
            (λ last. self.old ≡ self.new ++ last.now ∷ []) }
    {
        let (last, before) = self.chain.split_last()?;
        self.chain = before;
        self.count -= 1;
        Some(last)
    }

    /// The first `count` of these items.
    pub(crate) fn first(&self, count: usize) -> Front<'a, T>
        requires { count ≤ length self.now }
        ensures { result ≡ take count self.now }
    {
        let mut front = Front {
            chain: self.chain,
            count: self.count,
        };
        while front.len() > count {
            front.pop_last();
        }
        front
    }
}
