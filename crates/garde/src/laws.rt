//! Laws of visit trees. Each function does nothing, and its contract is a law for all values.
ghost use Rattle.std.specs.Prelude.{◌≡◌, ◌↔◌, Bool, true};
ghost use Rattle.garde.specs.Nest.{NestLaw};
ghost use Rattle.garde.specs.OverLists.{AreApart, distinct, OfItems};
ghost use Rattle.garde.specs.Parts.{ItemsInParts, ReadInParts};
ghost use Rattle.garde.specs.Reading.{ReadsUnder, ReadsByHandler};
ghost use Rattle.garde.specs.Redaction.{AsksOnly, FindsOnly, SaysNoMore, SaysOnly, SaysOnlyInMemory};
ghost use Rattle.garde.specs.Select.{SelectGivesPart};

use crate::fields::{Check, Discreet, DiscreetInMemory, DiscreetRules};
use crate::recursive::Recursive;

/// What `select` keeps of the report of a tree are the messages of that part of the tree which
/// stands at and under the given texts, for every tree, prefix and handler.
pub fn select_part()
    ensures { SelectGivesPart }
{}

/// Read under a prefix, a tree gives the same entries in the same order, each with the prefix in
/// front of its path, for every tree, prefix and handler.
pub fn read_under()
    ensures { ReadsUnder }
{}

/// The report of a tree is the list of its faults, each with its text: the fault of a rule with the
/// handler's text, a user-defined message as it is. So another handler changes the texts of rules
/// alone.
pub fn read_by_handler()
    ensures { ReadsByHandler }
{}

/// The trees of a value of a type that holds values of its own type are those of its own visits,
/// and then, in the field that holds them, those of each value in it, at whatever depth. None is
/// left out.
pub fn nested_values<T: Recursive>()
    ensures { NestLaw T.nest }
{}

/// A list may be checked in parts, by one process or by many. The trees of the whole list are those
/// of the parts one after another, each part with its indexes moved by the number of items before
/// it. So the report of the whole is the reports of the parts one after another, with the indexes
/// moved, and the path nodes add up.
pub fn items_in_parts<'a, T, C: Check<'a, T>>()
    ensures trees { (check : C) → ItemsInParts (λ x. (C.visits check x).trees) }
    ensures reading { ReadInParts }
{}

/// What a rule finds is one of the faults that it may find, by its arguments alone: the value only
/// decides which of them, or none. So a message depends on the arguments, and not on the value that
/// the rule is asked of: under each handler, the messages of two values are among the same texts.
/// An argument that is taken from another field is reported.
///
/// Each rule of the library is `Discreet`. A user-defined rule is where its author says so, and
/// proves it.
pub fn messages_hide_values<T, R: Discreet<T>>()
    ensures found { FindsOnly R.may_find R.finds }
    ensures messages { SaysOnly R.may_find R.finds }
{}

/// The same of a rule that may allocate for its answer, as a pattern or a URL.
pub fn messages_in_memory_hide_values<T, R: DiscreetInMemory<T>>()
    ensures found { FindsOnly R.may_find R.finds }
    ensures messages { SaysOnlyInMemory R.may_find R.finds }
{}

/// What rules find in a value are some of the faults that they may find, by their arguments alone.
/// So each message of a report of theirs is one of a few texts, whatever the value is. Paths are not
/// meant: the component of a value in a map is its key.
///
/// `read` says it of every tree whose faults are some of these, so it serves a tree that is put
/// together of the rules of several fields.
pub fn reports_hide_values<T, R: DiscreetRules<T>>()
    ensures found { AsksOnly R.may_find R.asks }
    ensures read { SaysNoMore }
{}

/// A condition of all items holds of each of them, and one of any item holds of some item.
pub fn of_items<T>(items: &[T])
    ensures { (holds : T → Bool) → OfItems holds items.now }
{}

/// In a list with distinct items no two items are the same.
pub fn of_distinct<T>(items: &[T])
    ensures { (same : T → T → Bool) → (distinct same items.now ≡ true) ↔ AreApart same items.now }
{}
