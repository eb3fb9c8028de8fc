//! Runs of bytes that belong to a cell wherever they stand.
ghost use Rattle.std.specs.Prelude.{◌≡◌, ◌<◌, ◌≤◌, ℕ, length, false, slice_index};
ghost use Rattle.garde_csv.specs.Quotes.{may_follow};

// Whether this byte is a quote, a comma, or the end of a line.
#[inline(always)]
fn is_mark(byte: u8) -> bool
    ensures { result ≡ may_follow byte }
{
    byte <= b',' && (byte == b',' || byte == b'"' || byte == b'\r' || byte == b'\n')
}

// Where the run ends, by four bytes at a time, and `true`; or where fewer than four bytes are left.
#[inline(always)]
fn end_by_fours(text: &[u8]) -> (usize, bool)
    ensures bound { result.0 ≤ length text.now }
    ensures plain { (k : ℕ) → k < result.0 → may_follow (slice_index text.now k) ≡ false }
{
    let mut at = 0;
    'fours: while text.len() - at >= 4 {
        if is_mark(text[at]) {
            return (at, true);
        }
        if is_mark(text[at + 1]) {
            return (at + 1, true);
        }
        if is_mark(text[at + 2]) {
            return (at + 2, true);
        }
        if is_mark(text[at + 3]) {
            return (at + 3, true);
        }
        at += 4;
    }
    (at, false)
}

/// Where the run ends that begins a text: at the first quote, comma or end of a line, or at the end
/// of the text.
#[inline(always)]
pub(crate) fn run_end(text: &[u8]) -> usize
    ensures bound { result ≤ length text.now }
    ensures plain { (k : ℕ) → k < result → may_follow (slice_index text.now k) ≡ false }
{
    let (at, is_found) = end_by_fours(text);
    if is_found {
        return at;
    }
    'ones: for i in at..text.len() {
        if is_mark(text[i]) {
            return i;
        }
    }
    text.len()
}
