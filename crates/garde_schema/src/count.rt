//! How many items a list has, or members an object.
ghost use Rattle.std.specs.Prelude.{◌≡◌, length, IfSome};
ghost use Rattle.garde_schema.specs.Lists.{list_of};
ghost use Rattle.garde_schema.specs.Maps.{map_of};

use garde::rules::length::HasSimpleLength;
use garde_tape::Tree;
use std::marker::Model;

/// How many items a list has, or members an object, which the rules of a list or of a map ask. A
/// contract sees the number. It is the simple length, so `length!` asks it.
#[derive(Debug, Clone, Copy)]
pub struct Count(usize);

impl Model for Count {
    ghost use Rattle.std.specs.Prelude.{ℕ};

    ghost Value = { ℕ };

    ghost view = { λ count. count.0 };

    ghost inverse = { λ number. record { 0 = number } };
}

impl Count {
    // How many items a list has.
    pub(crate) fn of(tree: &Tree<'_, '_>) -> Count
        ensures { IfSome (list_of tree.now) (λ items. result ≡ length items) }
    {
        match tree.items() {
            Some(items) => Count(items.count()),
            None => Count(0),
        }
    }

    // How many members an object has, those whose name is repeated among them.
    pub(crate) fn of_members(tree: &Tree<'_, '_>) -> Count
        ensures { IfSome (map_of tree.now) (λ members. result ≡ length members) }
    {
        match tree.members() {
            Some(members) => Count(members.count()),
            None => Count(0),
        }
    }

    /// The number.
    pub fn get(&self) -> usize
        ensures { result ≡ self.now }
    {
        self.0
    }
}

impl HasSimpleLength for Count {
    ghost simple_len = { λ count. count };

    fn length(&self) -> usize {
        self.0
    }
}
