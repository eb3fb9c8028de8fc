//! A walk along the items of a list.
ghost use Rattle.std.specs.Prelude.{◌≡◌, length, reverse, IfSome};
ghost use Rattle.std.specs.Iterator.SizeHint.{IsWithinCount, IsExactHint};
ghost use Rattle.std.specs.Iterator.{UpTo, YieldsFirstRef, item_count};

use super::front::Front;
use std::marker::Model;

/// The items of a list, from the last to the first. A contract sees the list of those that are left.
#[derive(Debug, Drop)]
pub struct Iter<'a, T> {
    rest: Front<'a, T>,
}

impl<'a, T> Model for Iter<'a, T> {
    ghost use Rattle.std.specs.Prelude.{List as Items, reverse};

    ghost Value = { Items T };

    ghost view = { λ it. reverse it.rest };
}

impl<'a, T> Iter<'a, T> {
    pub(super) fn new(rest: Front<'a, T>) -> Self
        ensures { result ≡ reverse rest.entry }
    {
        Iter { rest }
    }
}

impl<'a, T> Iterator for Iter<'a, T> {
    type Item = &'a T;

    ghost next_gives = { YieldsFirstRef (λ rest. rest) };

    ghost remaining = { item_count (λ rest. rest) };

    fn next(&mut self) -> Option<&'a T> {
        self.rest.pop_last()
    }

    fn size_hint(&self) -> (usize, Option<usize>)
        ensures lower { IsWithinCount result.0 (item_count (λ rest. rest) self.now) }
        ensures upper { IfSome result.1 (UpTo (item_count (λ rest. rest) self.now)) }
        ensures exact { IsExactHint result (length self.now) }
    {
        let len = self.len();
        (len, Some(len))
    }
}

impl<'a, T> ExactSizeIterator for Iter<'a, T> {
    fn len(&self) -> usize {
        self.rest.len()
    }
}
