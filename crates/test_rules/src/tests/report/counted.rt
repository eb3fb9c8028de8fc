//! How many items are compared where two lists are.
ghost use Rattle.std.specs.Prelude.{◌==◌};
ghost use Rattle.std.proofs.Common.{rules};
ghost use Rattle.std.specs.Cmp.{partial_order_from_own_ties};
ghost use Rattle.std.specs.Cmp.Rules.{comparing};
ghost use Rattle.std.specs.Ordering.{nat_cmp, on, as_partial_cmp};

use crate::tests::OrEnd;
use garde_report::rc_list::List;
use std::alloc::Global;
use std::cell::Cell;
use std::cmp::Ordering;
use std::process::Abort;

/// A letter, and how often letters were compared.
#[derive(Clone, Copy)]
struct Counted<'c> {
    letter: u8,
    compared: &'c Cell<usize>,
}

impl<'c> Counted<'c> {
    fn count(&self) {
        self.compared.set(self.compared.get().wrapping_add(1));
    }
}

impl PartialEq for Counted<'_> {
    ghost eq = { on (λ it. it.letter) ◌==◌ };

    ghost laws = { Prim.search (comparing, rules) };

    fn eq(&self, other: &Counted<'_>) -> bool {
        self.count();
        self.letter == other.letter
    }
}

impl Eq for Counted<'_> {
    ghost laws = { Prim.search (comparing, rules) };
}

impl Ord for Counted<'_> {
    ghost cmp = { on (λ it. it.letter) nat_cmp };

    ghost total = { Prim.search (comparing, rules) };

    ghost matches_partial_cmp = { Prim.search (comparing, rules) };

    ghost matches_eq = { Prim.search (comparing, rules) };

    fn cmp(&self, other: &Counted<'_>) -> Ordering {
        self.count();
        self.letter.cmp(&other.letter)
    }
}

impl PartialOrd for Counted<'_> {
    ghost partial_cmp = { as_partial_cmp (on (λ it. it.letter) nat_cmp) };

    ghost laws = { partial_order_from_own_ties (Prim.search (comparing, rules)) (Prim.search (comparing, rules)) };

    fn partial_cmp(&self, other: &Counted<'_>) -> Option<Ordering> {
        Some(self.cmp(other))
    }
}

/// The list of these letters.
fn list_of<'c>(
    rt: &impl Abort,
    alloc: Global,
    letters: &[u8],
    compared: &'c Cell<usize>,
) -> List<Counted<'c>> {
    let mut list = List::new();
    for letter in letters {
        let item = Counted {
            letter: *letter,
            compared,
        };
        list = list.append(alloc, item).or_end(rt);
    }
    list
}

/// How many letters are compared where these are asked for equality, and how many where they are for
/// their order.
fn compared(rt: &impl Abort, alloc: Global, letters: &[u8], others: &[u8]) -> (usize, usize) {
    let compared = Cell::new(0);
    let list = list_of(rt, alloc, letters, &compared);
    let other = list_of(rt, alloc, others, &compared);
    let same = list == other;
    let for_equality = compared.get();
    compared.set(0);
    let order = list.cmp(&other);
    if same == (order == Ordering::Equal) {
        (for_equality, compared.get())
    } else {
        (0, 0)
    }
}

/// The letters of two lists, and how many of them are compared. Equality is asked from the last letter on, and
/// ends at the first that differs. The order is asked of the first letters, and then of all where these
/// are the same.
static COMPARED: [(&[u8], &[u8], (usize, usize)); 5] = [
    (b"abcdefgh", b"abcdefghi", (0, 0)),
    (b"abcdefghi", b"abcdefghx", (1, 10)),
    (b"abcdefghi", b"abcdexghi", (4, 10)),
    (b"abcdefghi", b"xbcdefghi", (9, 1)),
    (b"abcdefghi", b"abcdefghi", (9, 10)),
];

#[test]
fn lists_are_compared_from_their_ends(rt: HostRuntime) {
    for (letters, others, wanted) in &COMPARED {
        assert!(rt; compared(&rt, rt.alloc(), letters, others) == *wanted);
    }
}
