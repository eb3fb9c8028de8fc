//! Rules by their bounds, and what a value that is not valid prints.
use super::{login, prints_as};
use garde::fields::{ByteLength, CharLength, GraphemeLength, Length, Range, Utf16Length};
use garde::{IntoValidError, Unvalidated};
use std::alloc::Global;
use std::process::Abort;

/// Whether each range has the bounds of its name.
fn are_ranges_right(a: Option<i32>, b: Option<i32>) -> bool {
    Range::min(18) == Range { min: b, max: None }
        && Range::max(18) == Range { min: None, max: b }
        && Range::equal(18) == Range { min: b, max: b }
        && Range::between(-1, 18) == Range { min: a, max: b }
}

/// Whether each length has the bounds of its name.
fn are_lengths_right(a: usize, b: usize) -> bool {
    let max = usize::MAX;
    Length::min(b) == Length { min: b, max }
        && Length::max(b) == Length { min: 0, max: b }
        && Length::equal(b) == Length { min: b, max: b }
        && Length::between(a, b) == Length { min: a, max: b }
        && ByteLength::min(b) == ByteLength { min: b, max }
        && ByteLength::max(b) == ByteLength { min: 0, max: b }
        && ByteLength::equal(b) == ByteLength { min: b, max: b }
        && ByteLength::between(a, b) == ByteLength { min: a, max: b }
        && CharLength::min(b) == CharLength { min: b, max }
        && CharLength::max(b) == CharLength { min: 0, max: b }
        && CharLength::equal(b) == CharLength { min: b, max: b }
        && CharLength::between(a, b) == CharLength { min: a, max: b }
        && GraphemeLength::min(b) == GraphemeLength { min: b, max }
        && GraphemeLength::max(b) == GraphemeLength { min: 0, max: b }
        && GraphemeLength::equal(b) == GraphemeLength { min: b, max: b }
        && GraphemeLength::between(a, b) == GraphemeLength { min: a, max: b }
        && Utf16Length::min(b) == Utf16Length { min: b, max }
        && Utf16Length::max(b) == Utf16Length { min: 0, max: b }
        && Utf16Length::equal(b) == Utf16Length { min: b, max: b }
        && Utf16Length::between(a, b) == Utf16Length { min: a, max: b }
}

#[test]
fn bounds_by_their_names(rt: HostRuntime) {
    assert!(rt; are_ranges_right(Some(-1), Some(18)) && are_lengths_right(3, 300));
}

/// Whether a login that is not valid is rejected with this text.
fn is_refused(rt: &impl Abort, alloc: Global, username: &str, password: &str, text: &str) -> bool {
    let answer = Unvalidated::new(login(rt, alloc, username, password)).validate(alloc);
    matches!(&answer, Err(IntoValidError::Report(_))) && prints_as(rt, alloc, answer, text)
}

#[test]
fn a_value_that_is_not_valid_prints_its_report(rt: HostRuntime) {
    let text =
        "username: not ascii\nusername: length is lower than 3\npassword: length is lower than 15\n";
    assert!(rt; is_refused(&rt, rt.alloc(), "é", "weak", text));
}
