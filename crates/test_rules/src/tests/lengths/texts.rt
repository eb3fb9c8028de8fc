//! Tests of the counts of texts.
use crate::tests::{OrEnd, tells};
use garde_engines::laws::units;
use garde_engines::length::bytes::{self, ByteLength};
use garde_engines::length::chars::{self, CharLength};
use garde_engines::length::graphemes::{self, GraphemeLength};
use garde_engines::length::simple::Length;
use garde_engines::length::utf16::{self, Utf16Length};
use garde_engines::length::{HasBytes, HasChars, HasGraphemes, HasSimpleLength, HasUtf16CodeUnits};
use garde_engines::{OutOfBounds, Rule};
use garde_i18n::DefaultI18n;
use std::alloc::Global;
use std::borrow::CowStr;
use std::boxed::BoxedStr;
use std::rc::RcStr;

/// A face (U+1F602), and an `e` with a mark of its own (U+0301).
const FACE: &str = "😂";

const MARKED: &str = "e\u{301}";

/// The five lengths, in the order of the modules' names: bytes, characters, clusters, simple, code
/// units.
pub fn counts<T: HasBytes + HasChars + HasGraphemes + HasSimpleLength + HasUtf16CodeUnits>(
    text: &T,
) -> [usize; 5] {
    [
        text.num_bytes(),
        text.num_chars(),
        text.num_graphemes(),
        text.length(),
        text.num_code_units(),
    ]
}

/// The lengths of the face.
const OF_THE_FACE: [usize; 5] = [4, 1, 1, 4, 2];

#[test]
fn counts_a_text_by_each_unit(rt: HostRuntime) {
    let alloc = rt.alloc();
    let owned = String::from_str(alloc, FACE).or_end(&rt);
    let view = CowStr::Owned(String::from_str(alloc, FACE).or_end(&rt));
    let shared = RcStr::from_str(alloc, FACE).or_end(&rt);
    let boxed = BoxedStr::from_str(alloc, FACE).or_end(&rt);
    assert!(rt;
        counts(&FACE) == OF_THE_FACE
            && counts(&MARKED) == [3, 2, 1, 3, 2]
            && counts(&"") == [0; 5]
            && counts(&owned) == OF_THE_FACE
            && counts(&&owned) == OF_THE_FACE
            && counts(&view) == OF_THE_FACE
            && counts(&shared) == OF_THE_FACE
            && counts(&boxed) == OF_THE_FACE
    );
    units();
}

/// Bounds, and what is found in the blocks by characters and by code units.
static BOUNDED: [((usize, usize), Checked, Checked); 5] = [
    ((0, 0), Err(OutOfBounds::Upper), Err(OutOfBounds::Upper)),
    ((0, 1000), Ok(()), Ok(())),
    ((400, 400), Ok(()), Err(OutOfBounds::Upper)),
    ((500, 500), Err(OutOfBounds::Lower), Ok(())),
    ((1001, 9), Err(OutOfBounds::Lower), Err(OutOfBounds::Lower)),
];

type Checked = Result<(), OutOfBounds>;

#[test]
fn counts_a_text_of_many_blocks(rt: HostRuntime) {
    // Each block has characters of one, two, three and four bytes.
    let text = "aé日😂".repeat(rt.alloc(), 100).or_end(&rt);
    assert!(rt; counts(&text) == [1000, 400, 400, 1000, 500]);
    for ((min, max), chars, units) in &BOUNDED {
        assert!(rt;
            text.check_num_chars(*min, *max) == *chars
                && text.check_num_code_units(*min, *max) == *units
        );
    }
}

#[test]
fn holds_each_count_against_its_bounds(rt: HostRuntime) {
    let alloc = rt.alloc();
    let h = DefaultI18n;
    let low = Some("length is lower than 3");
    let none = Some("length is greater than 0");
    assert!(rt;
        tells(bytes::apply(alloc, &"", (0, 0), &h), None)
            && tells(bytes::apply(alloc, &MARKED, (0, 0), &h), none)
            && tells(bytes::apply(alloc, &MARKED, (3, 3), &h), None)
            && tells(chars::apply(alloc, &MARKED, (3, 3), &h), low)
            && tells(graphemes::apply(alloc, &MARKED, (1, 1), &h), None)
            && tells(graphemes::apply(alloc, &MARKED, (3, 3), &h), low)
            && tells(utf16::apply(alloc, &FACE, (2, 2), &h), None)
            && tells(utf16::apply(alloc, &FACE, (3, 3), &h), low)
    );
}

/// Whether this is found in the face by a rule as a value.
fn is_found<R: Rule<&'static str>>(alloc: Global, rule: &R, fault: Option<&str>) -> bool {
    rule.holds(&FACE) == fault.is_none() && tells(rule.find(alloc, &FACE, &DefaultI18n), fault)
}

#[test]
fn finds_the_same_by_rules_as_values(rt: HostRuntime) {
    let alloc = rt.alloc();
    let high = Some("length is greater than 3");
    let low = Some("length is lower than 2");
    let more = Some("length is greater than 1");
    assert!(rt;
        is_found(alloc, &Length { min: 0, max: 3 }, high)
            && is_found(alloc, &ByteLength { min: 4, max: 4 }, None)
            && is_found(alloc, &CharLength { min: 2, max: 4 }, low)
            && is_found(alloc, &GraphemeLength { min: 1, max: 1 }, None)
            && is_found(alloc, &Utf16Length { min: 0, max: 1 }, more)
    );
}
