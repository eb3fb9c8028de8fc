//! Rules whose bounds are written as the derive of the Rust crate reads them.
use garde::fields::{ByteLength, CharLength, GraphemeLength, Length, Range, Utf16Length};
use garde::{length, range};

/// Whether each length has the bounds that it is written with. `most` is computed where they are
/// made.
fn are_lengths_right(most: usize) -> bool {
    length!(min = 3) == Length::min(3)
        && length!(max = most) == Length::max(300)
        && length!(equal = most) == Length::equal(300)
        && length!(min = 3, max = most) == Length::between(3, 300)
        && length!(simple, min = 3) == Length::min(3)
        && length!(bytes, min = 3) == ByteLength::min(3)
        && length!(chars, max = 25) == CharLength::max(25)
        && length!(graphemes, equal = 5) == GraphemeLength::equal(5)
        && length!(utf16, min = 3, max = 25) == Utf16Length::between(3, 25)
}

const TOP: i32 = 120;

/// Whether each range has the bounds that it is written with.
fn are_ranges_right() -> bool {
    range!(min = -18) == Range::min(-18)
        && range!(max = TOP) == Range::max(120)
        && range!(equal = TOP + 1) == Range::equal(121)
        && range!(min = 18, max = TOP) == Range::between(18, 120)
}

#[test]
fn rules_by_their_bounds(rt: HostRuntime) {
    assert!(rt; are_lengths_right(300) && are_ranges_right());
}
