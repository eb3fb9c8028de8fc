//! How many numbers are asked by a reading that may end early.
ghost use Rattle.garde.specs.Fields.{codes, own, Some};

use garde::fields::{Is, Rule};
use garde::{DefaultI18n, I18n, RuleError};
use garde_schema::{List, Scratch, U8, Whole, read_json_first};
use std::alloc::Global;
use std::borrow::CowStr;
use std::cell::Cell;

/// The rule that no number keeps, which counts how often it is asked.
#[derive(Clone, Copy)]
struct Counted<'c>(&'c Cell<usize>);

impl Rule<u8> for Counted<'_> {
    ghost finds = { λ _ _. Some (own (codes "wrong")) };

    fn find<H: I18n>(&self, alloc: Global, _value: &u8, _h: &H) -> Result<(), RuleError> {
        self.0.set(self.0.get().wrapping_add(1));
        Err(RuleError::of(alloc, Ok(CowStr::Borrowed("wrong"))))
    }
}

/// How many of nine numbers are asked for at most so many faults.
fn asked_by_first(alloc: Global, most: usize) -> usize {
    let asked = Cell::new(0);
    let form = List(Whole(U8, Is(Counted(&asked))));
    let mut scratch = Scratch::new(alloc);
    let nine = b"[0,1,2,3,4,5,6,7,8]";
    let answer = read_json_first(alloc, nine, &mut scratch, &form, most, &DefaultI18n);
    if answer.is_err() { asked.get() } else { 0 }
}

// The report is full with one fault more than is asked for. The fault behind it ends the reading.
#[test]
fn a_reading_ends_at_the_fault_behind_a_full_report(rt: HostRuntime) {
    for (most, asked) in [(0, 2), (2, 4), (6, 8), (7, 9), (20, 9)] {
        assert!(rt; asked_by_first(rt.alloc(), most) == asked);
    }
}
