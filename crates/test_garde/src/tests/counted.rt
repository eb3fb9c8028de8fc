//! How many items are asked by a walk that may end early.
ghost use Rattle.garde.specs.Fields.{codes, each, is, own, slice, Some};

use crate::tests::OrEnd;
use garde::fields::{Each, Fields, Is, Rule, Transparent};
use garde::{DefaultI18n, I18n, Report, RuleError, Stated, Trail, Validate};
use std::alloc::{AllocError, Global};
use std::borrow::CowStr;
use std::cell::Cell;

/// The rule that no mark keeps, which counts how often it is asked.
#[derive(Clone, Copy)]
struct Counted<'c>(&'c Cell<usize>);

impl Rule<u8> for Counted<'_> {
    ghost finds = { λ _ _. Some (own (codes "wrong")) };

    fn find<H: I18n>(&self, alloc: Global, _value: &u8, _h: &H) -> Result<(), RuleError> {
        self.0.set(self.0.get().wrapping_add(1));
        Err(RuleError::of(alloc, Ok(CowStr::Borrowed("wrong"))))
    }
}

/// Marks that are all wrong. The context counts how many of them are asked.
#[derive(Drop)]
struct Marks(Vec<u8>);

impl Stated for Marks {
    type Context = Cell<usize>;

    ghost visits = { λ marks _. each (λ _. is (Some (own (codes "wrong")))) (slice marks.0) };
}

impl Validate for Marks {
    fn validate_into<'a, H: I18n>(
        &'a self,
        ctx: &Cell<usize>,
        trail: &mut Trail<'a>,
        report: &mut Report,
        h: &H,
    ) -> Result<(), AllocError> {
        Transparent(&self.0, Each(Is(Counted(ctx)))).visit(trail, report, h)
    }
}

/// How many faults are asked for, and how many of nine marks are asked.
static ASKED: [(usize, usize); 5] = [(0, 2), (2, 4), (6, 8), (7, 9), (20, 9)];

/// Nine marks.
static NINE: [u8; 9] = [0, 1, 2, 3, 4, 5, 6, 7, 8];

// Whether so many marks are asked where so many faults are asked for.
fn are_asked(alloc: Global, marks: &Marks, most: usize, wanted: usize) -> bool {
    let asked = Cell::new(0);
    let answer = marks.validate_first(alloc, &asked, most, &DefaultI18n);
    answer.is_err() && asked.get() == wanted
}

// The report is full with one fault more than is asked for. The fault behind it ends the walk.
#[test]
fn a_walk_ends_at_the_fault_behind_a_full_report(rt: HostRuntime) {
    let marks = Marks(Vec::from_slice(rt.alloc(), &NINE).or_end(&rt));
    let asked = Cell::new(0);
    let valid = marks.is_valid(rt.alloc(), &asked);
    assert!(rt; valid == Ok(false) && asked.get() == 2);
    for (most, wanted) in &ASKED {
        assert!(rt; are_asked(rt.alloc(), &marks, *most, *wanted));
    }
}
