//! Numbers that their type does not hold, under rules with bounds and without.
use super::is_text;
use garde::fields::{Is, MultipleOf, When};
use garde::{DefaultI18n, all, range};
use garde_schema::{NumberRules, Scratch, U8, Whole, read_json};
use std::alloc::{AllocError, Global};

// What these rules report of a byte.
fn report<R: NumberRules<u8> + Drop>(
    alloc: Global,
    body: &str,
    rules: R,
) -> Result<String, AllocError> {
    let mut scratch = Scratch::new(alloc);
    match read_json(
        alloc,
        body.as_bytes(),
        &mut scratch,
        &Whole(U8, &rules),
        &DefaultI18n,
    ) {
        Ok(number) => format!(in alloc; "{number}"),
        Err(error) => error.to_string(alloc),
    }
}

// Under which rules a number is read.
enum Under {
    /// So many, of which the first are that it is even, and the last two have bounds.
    Many(usize),
    /// One with a bound, under a condition that holds or not.
    Condition(bool),
}

// The same by so many rules: the first of them that the number is even, and the last two that have bounds.
fn report_of<E: NumberRules<u8> + Copy + Drop, B: NumberRules<u8> + Copy + Drop>(
    alloc: Global,
    count: usize,
    body: &str,
    even: E,
    (least, most): (B, B),
) -> Result<String, AllocError> {
    match count {
        0 => report(alloc, body, ()),
        1 => report(alloc, body, even),
        2 => report(alloc, body, (least, most)),
        3 => report(alloc, body, (even, least, most)),
        4 => report(alloc, body, (even, even, least, most)),
        5 => report(alloc, body, (even, even, even, least, most)),
        6 => report(alloc, body, (even, even, even, even, least, most)),
        7 => report(alloc, body, (even, even, even, even, even, (least, most))),
        _ => report(
            alloc,
            body,
            all!(even, even, even, even, even, even, least, most),
        ),
    }
}

// The same by these rules.
fn report_under(alloc: Global, under: &Under, body: &str) -> Result<String, AllocError> {
    let least = Is(range!(min = 10));
    let most = Is(range!(max = 100));
    match under {
        Under::Condition(holds) => report(alloc, body, When(*holds, most)),
        Under::Many(count) => report_of(alloc, *count, body, Is(MultipleOf(2)), (least, most)),
    }
}

const U8_RANGE: &str = "out of range: 0 to 255\n";

const LOWER: &str = "lower than 10\n";

const GREATER: &str = "greater than 100\n";

// The rules, a number, and what is reported of it.
static ROWS: [(Under, &str, &str); 22] = [
    (Under::Many(0), "-1", U8_RANGE),
    (Under::Many(0), "256", U8_RANGE),
    (Under::Many(1), "-1", U8_RANGE),
    (Under::Many(1), "256", U8_RANGE),
    (Under::Many(1), "6", "6"),
    (Under::Many(1), "7", "not a multiple of 2\n"),
    (Under::Many(2), "-1", LOWER),
    (Under::Many(2), "256", GREATER),
    (Under::Many(3), "-1", LOWER),
    (Under::Many(3), "256", GREATER),
    (Under::Many(4), "-1", LOWER),
    (Under::Many(4), "256", GREATER),
    (Under::Many(5), "-1", LOWER),
    (Under::Many(5), "256", GREATER),
    (Under::Many(6), "-1", LOWER),
    (Under::Many(6), "256", GREATER),
    (Under::Many(7), "-1", LOWER),
    (Under::Many(7), "256", GREATER),
    (Under::Many(8), "-1", LOWER),
    (Under::Many(8), "256", GREATER),
    (Under::Condition(true), "256", GREATER),
    (Under::Condition(false), "256", U8_RANGE),
];

#[test]
fn tells_the_first_bound_that_a_number_is_beyond(rt: HostRuntime) {
    for (row, (under, body, told)) in ROWS.iter().enumerate() {
        let report = report_under(rt.alloc(), under, body);
        assert!(rt; is_text(report, told), "row {row}");
    }
}
