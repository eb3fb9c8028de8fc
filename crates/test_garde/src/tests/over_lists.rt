//! Conditions over the items of a list, and a condition that has a code.
ghost use Rattle.std.specs.Prelude.{nat_le};

use crate::tests::OrEnd;
use garde::fields::{
    AllOf, AnyOf, Asked, AsksAs, Distinct, Equal, Includes, Listed, Question, Rule, all_of, any_of,
    distinct,
};
use garde::{CodeI18n, DefaultI18n, I18n};
use std::alloc::{AllocError, Global};

/// That a number is at most this one.
#[derive(Clone, Copy)]
struct AtMost(u8);

impl Question<u8> for AtMost {
    ghost holds = { λ most number. nat_le number most.0 };

    fn holds(&self, number: &u8) -> bool {
        *number <= self.0
    }
}

/// Numbers, whether all of them are at most 3, whether any is, whether they differ, and whether 7 is
/// among them.
const ROWS: &[(&[u8], bool, bool, bool, bool)] = &[
    (&[], true, false, true, false),
    (&[3], true, true, true, false),
    (&[4], false, false, true, false),
    (&[7, 3], false, true, true, true),
    (&[1, 2, 1], true, true, false, false),
    (&[9, 8, 7, 6, 5, 4, 9], false, false, false, true),
    (
        &[0, 1, 2, 3, 4, 5, 6, 7, 8, 9, 10, 11, 12, 13],
        false,
        true,
        true,
        true,
    ),
];

// Whether the functions, and the questions of a list, answer so of these numbers.
fn are_answered(row: &(&[u8], bool, bool, bool, bool)) -> bool {
    let &(items, all, any, apart, seven) = row;
    let functions = all_of(items, &AtMost(3)) == all
        && any_of(items, &AtMost(3)) == any
        && distinct(items, &Equal) == apart;
    let questions = Question::holds(&AllOf(AtMost(3)), &items) == all
        && AnyOf(AtMost(3)).holds(&items) == any
        && Distinct(Equal).holds(&items) == apart
        && Includes(7_u8).holds(&items) == seven;
    functions && questions && items.listed().len() == items.len()
}

#[test]
fn asks_the_items_of_lists(rt: HostRuntime) {
    for row in ROWS {
        assert!(rt; are_answered(row));
    }
}

// What is reported of a rule that fails.
fn told<R: Rule<u8>, H: I18n>(alloc: Global, rule: &R, h: &H) -> Result<String, AllocError> {
    match rule.find(alloc, &7, h) {
        Ok(()) => Ok(String::new(alloc)),
        Err(error) => error.to_string(alloc),
    }
}

// A handler words the fault that has a code. That of a question without one is the same for all.
#[test]
fn words_conditions_by_their_codes(rt: HostRuntime) {
    let alloc = rt.alloc();
    let coded = AsksAs("too_many", "too many", false);
    let asked = Asked("too many", AtMost(3));
    let coded_by_codes = told(alloc, &coded, &CodeI18n).or_end(&rt);
    assert_eq!(rt; coded_by_codes.as_str(), "too_many");
    let coded_in_english = told(alloc, &coded, &DefaultI18n).or_end(&rt);
    assert_eq!(rt; coded_in_english.as_str(), "too many");
    let asked_by_codes = told(alloc, &asked, &CodeI18n).or_end(&rt);
    assert_eq!(rt; asked_by_codes.as_str(), "too many");
}
