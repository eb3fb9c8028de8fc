//! Tests of the rules of whole numbers.
use super::tells;
use garde_i18n::{CodeI18n, DefaultI18n, I18n};
use garde_rules::Rule;
use garde_rules::multiple_of::{self, Divisible};
use garde_rules::range::{self, Bounds};
use garde_rules::values::MultipleOf;
use std::alloc::Global;

/// Whether a range finds this in a value.
fn finds<T: Bounds>(
    alloc: Global,
    value: &T,
    bounds: (Option<T::Size>, Option<T::Size>),
    fault: Option<&str>,
) -> bool {
    tells(range::apply(alloc, value, bounds, &DefaultI18n), fault)
}

#[test]
fn asks_numbers_without_a_sign(rt: HostRuntime) {
    let alloc = rt.alloc();
    let high = Some("greater than 0");
    assert!(rt;
        finds(alloc, &5u8, (Some(10), Some(3)), Some("lower than 10"))
            && finds(alloc, &20u8, (Some(10), Some(3)), Some("greater than 3"))
            && finds(alloc, &10u8, (Some(10), Some(10)), None)
            && finds(alloc, &255u8, (None, None), None)
            && finds(alloc, &u16::MAX, (None, Some(0)), high)
            && finds(alloc, &u32::MAX, (None, Some(0)), high)
            && finds(alloc, &u64::MAX, (None, Some(0)), high)
            && finds(alloc, &u128::MAX, (None, Some(0)), high)
            && finds(alloc, &usize::MAX, (None, Some(0)), high)
    );
}

#[test]
fn asks_numbers_with_a_sign(rt: HostRuntime) {
    let alloc = rt.alloc();
    let low = Some("lower than -127");
    let least = Some("lower than -170141183460469231731687303715884105727");
    let most = Some("greater than -170141183460469231731687303715884105728");
    let all = Some("lower than 170141183460469231731687303715884105727");
    assert!(rt;
        finds(alloc, &i8::MIN, (Some(-127), None), low)
            && finds(alloc, &i16::MIN, (Some(-127), None), low)
            && finds(alloc, &i32::MIN, (Some(-127), None), low)
            && finds(alloc, &i64::MIN, (Some(-127), None), low)
            && finds(alloc, &isize::MIN, (Some(-127), None), low)
            && finds(alloc, &i128::MIN, (Some(i128::MIN + 1), None), least)
            && finds(alloc, &0i128, (None, Some(i128::MIN)), most)
            && finds(alloc, &0i128, (Some(i128::MAX), Some(i128::MIN)), all)
    );
}

/// Whether this is found in a value that has to be a multiple of a divisor.
fn multiple_finds<T: Divisible, H: I18n>(
    alloc: Global,
    value: &T,
    divisor: T::Size,
    h: &H,
    fault: Option<&str>,
) -> bool {
    tells(multiple_of::apply(alloc, value, (divisor,), h), fault)
}

/// A number without a sign, a divisor, and what is found.
static NUMBERS: [(u8, u8, Option<&str>); 9] = [
    (10, 2, None),
    (7, 2, Some("not a multiple of 2")),
    (0, 5, None),
    (15, 5, None),
    (5, 15, Some("not a multiple of 15")),
    (255, 255, None),
    (254, 255, Some("not a multiple of 255")),
    (0, 0, None),
    (7, 0, Some("not a multiple of 0")),
];

#[test]
fn asks_for_multiples(rt: HostRuntime) {
    for (value, divisor, fault) in &NUMBERS {
        assert!(rt;
            multiple_finds(rt.alloc(), value, *divisor, &DefaultI18n, *fault),
            "{value} by {divisor}"
        );
    }
}

/// A number with a sign, a divisor, and what is found.
static SIGNED: [(i8, i8, Option<&str>); 8] = [
    (-10, 5, None),
    (10, -5, None),
    (-7, 2, Some("not a multiple of 2")),
    (7, -2, Some("not a multiple of -2")),
    (-128, -1, None),
    (-128, -128, None),
    (127, -128, Some("not a multiple of -128")),
    (-1, 0, Some("not a multiple of 0")),
];

#[test]
fn asks_for_multiples_whatever_the_signs_are(rt: HostRuntime) {
    for (value, divisor, fault) in &SIGNED {
        assert!(rt;
            multiple_finds(rt.alloc(), value, *divisor, &DefaultI18n, *fault),
            "{value} by {divisor}"
        );
    }
}

/// Whether a number is a multiple of this one, and this is found where it has to be one of another.
fn is_multiple<T: Divisible>(
    alloc: Global,
    value: &T,
    divisor: T::Size,
    other: T::Size,
    fault: &str,
) -> bool {
    multiple_finds(alloc, value, divisor, &DefaultI18n, None)
        && multiple_finds(alloc, value, other, &DefaultI18n, Some(fault))
}

#[test]
fn asks_numbers_of_each_width_for_multiples(rt: HostRuntime) {
    let alloc = rt.alloc();
    let three = "not a multiple of 3";
    let two = "not a multiple of 2";
    assert!(rt;
        is_multiple(alloc, &u16::MAX, 3, 2, two)
            && is_multiple(alloc, &u32::MAX, 3, 2, two)
            && is_multiple(alloc, &u64::MAX, 3, 2, two)
            && is_multiple(alloc, &u128::MAX, 3, 2, two)
            && is_multiple(alloc, &usize::MAX, 3, 2, two)
            && is_multiple(alloc, &i16::MIN, 2, 3, three)
            && is_multiple(alloc, &i32::MIN, 2, 3, three)
            && is_multiple(alloc, &i64::MIN, 2, 3, three)
            && is_multiple(alloc, &i128::MIN, 2, 3, three)
            && is_multiple(alloc, &isize::MIN, 2, 3, three)
    );
}

#[test]
fn asks_the_value_of_an_option_for_multiples(rt: HostRuntime) {
    let alloc = rt.alloc();
    let five = Some("multiple_of_mismatch divisor=5");
    let none: Option<u8> = None;
    let rule = MultipleOf(5u8);
    assert!(rt;
        multiple_finds(alloc, &Some(16u8), 5, &CodeI18n, five)
            && multiple_finds(alloc, &Some(15u8), 5, &CodeI18n, None)
            && multiple_finds(alloc, &none, 5, &CodeI18n, None)
            && none.validate_multiple_of(5)
            && !Some(16u8).validate_multiple_of(5)
            && super::finds(alloc, &rule, &16u8, Some("not a multiple of 5"))
            && rule.holds(&15u8)
            && !rule.holds(&16u8)
    );
}
