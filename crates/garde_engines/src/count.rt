//! The counts of a text.
ghost use Rattle.std.specs.Prelude.{◌≡◌, ◌≤◌, ◌*◌, ◌<◌, ℕ, IsTrue, length, count_by};
ghost use Rattle.garde_engines.specs.Bounds.{bounds_answer};
ghost use Rattle.garde_engines.specs.Counts.{char_count, unit_count, grapheme_count, is_outside};

use crate::bounds::{OutOfBounds, check_bounds};
use unicode_segmentation::UnicodeSegmentation;

// The most bytes whose count fits into one byte.
const BLOCK: usize = 255;

// How many bytes of a block are below `low` or not below `high`. Counted in one byte, many are added
// at once.
#[inline(always)]
fn count_in_block(block: &[u8], low: u8, high: u8) -> u8
    requires { length block.now < 256 }
    ensures { result ≡ count_by (is_outside low high) block.now }
{
    let mut count = 0;
    for byte in block {
        count += u8::from(*byte < low || *byte >= high);
    }
    count
}

// How many of the bytes are below `low` or not below `high`.
#[inline(always)]
fn count_outside(bytes: &[u8], low: u8, high: u8) -> usize
    ensures { result ≡ count_by (is_outside low high) bytes.now }
{
    let mut count = 0;
    for block in bytes.chunks(BLOCK) {
        count += usize::from(count_in_block(block, low, high));
    }
    count
}

// How many characters a text has: as many as bytes that begin one. The others are 0x80 to 0xBF.
pub(crate) fn count_chars(text: &str) -> usize
    ensures { result ≡ char_count text.now }
{
    count_outside(text.as_bytes(), 0x80, 0xC0)
}

// How many code units a text has in UTF-16: two for a character of four bytes, which begins with
// 0xF0 or more, and one for each other.
pub(crate) fn count_units(text: &str) -> usize
    ensures { result ≡ unit_count text.now }
{
    let all = count_outside(text.as_bytes(), 0x80, 0xC0);
    let astral = count_outside(text.as_bytes(), 0, 0xF0);
    all + astral
}

// How many extended grapheme clusters the text has.
pub(crate) fn count_graphemes(text: &str) -> usize
    ensures { result ≡ grapheme_count text.now }
{
    text.graphemes(true).count()
}

// Whether a text of so many bytes has at least `min` characters and at most `max`, whatever they are:
// each has 1 to 4 bytes.
#[inline]
fn is_surely_within(bytes: usize, min: usize, max: usize) -> bool
    ensures { IsTrue result → (chars : ℕ) → chars ≤ bytes → bytes ≤ 4 * chars
        → (min ≤ chars) × (chars ≤ max) }
{
    bytes <= max && min <= bytes.div_ceil(4)
}

// Holds the number of characters against bounds. They are counted only where the number of bytes
// leaves the answer open.
#[inline]
pub(crate) fn check_chars(text: &str, min: usize, max: usize) -> Result<(), OutOfBounds>
    ensures { result ≡ bounds_answer min max (char_count text.now) }
{
    if is_surely_within(text.len(), min, max) {
        return Ok(());
    }
    check_bounds(count_chars(text), min, max)
}

// Holds the number of code units of UTF-16 against bounds, likewise: there are no fewer of them than
// characters, and no more than bytes.
#[inline]
pub(crate) fn check_units(text: &str, min: usize, max: usize) -> Result<(), OutOfBounds>
    ensures { result ≡ bounds_answer min max (unit_count text.now) }
{
    if is_surely_within(text.len(), min, max) {
        return Ok(());
    }
    check_bounds(count_units(text), min, max)
}
