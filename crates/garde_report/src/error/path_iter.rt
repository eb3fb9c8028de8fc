//! A walk along the components of a path.
ghost use Rattle.std.specs.Prelude.{◌≡◌, length, map, IfSome};
ghost use Rattle.std.specs.Iterator.SizeHint.{IsWithinCount, IsExactHint};
ghost use Rattle.std.specs.Iterator.{UpTo, YieldsFirstBy, YieldsLastBy, item_count};
ghost use Rattle.garde_report.specs.Part.{item_part};

use super::component::Kind;
use smallvec::{IntoIter, SmallVec};
use std::marker::Model;

/// The kinds and texts of the components of a path, from the last to the first. By its other end
/// it gives them from the first on.
#[derive(Debug, Drop)]
pub struct PathIter<'a> {
    components: IntoIter<(Kind, &'a str), 8>,
}

impl<'a> Model for PathIter<'a> {
    ghost use Rattle.std.specs.Prelude.{List as Items, map};
    ghost use Rattle.garde_report.specs.Part.{Part, item_part};

    ghost Value = { Items Part };

    ghost view = { λ it. map item_part it.components };
}

impl<'a> PathIter<'a> {
    pub(super) fn new(components: SmallVec<(Kind, &'a str), 8>) -> Self
        ensures { result ≡ map item_part components.entry.items }
    {
        PathIter {
            components: components.into_iter(),
        }
    }
}

impl<'a> Iterator for PathIter<'a> {
    type Item = (Kind, &'a str);

    ghost next_gives = { YieldsFirstBy item_part (λ rest. rest) };

    ghost remaining = { item_count (λ rest. rest) };

    fn next(&mut self) -> Option<(Kind, &'a str)> {
        self.components.next()
    }

    fn size_hint(&self) -> (usize, Option<usize>)
        ensures lower { IsWithinCount result.0 (item_count (λ rest. rest) self.now) }
        ensures upper { IfSome result.1 (UpTo (item_count (λ rest. rest) self.now)) }
        ensures exact { IsExactHint result (length self.now) }
    {
        let len = self.len();
        (len, Some(len))
    }
}

impl<'a> DoubleEndedIterator for PathIter<'a> {
    ghost next_back_gives = { YieldsLastBy item_part (λ rest. rest) };

    fn next_back(&mut self) -> Option<(Kind, &'a str)> {
        self.components.next_back()
    }
}

impl<'a> ExactSizeIterator for PathIter<'a> {
    fn len(&self) -> usize {
        self.components.len()
    }
}
