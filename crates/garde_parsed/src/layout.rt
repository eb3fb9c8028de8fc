//! How a text has to be laid out.
ghost use Rattle.std.specs.Prelude.{◌≡◌, option_map};
ghost use Rattle.garde_parsed.specs.Layouts.{behind, behind_digits, behind_fraction, ends_in_fraction, ends_in_offset, fits_byte, has_shape, is_digit, is_laid_out, is_offset};

/// How a text has to be laid out, beside what its parser reads. The texts of the last four are those
/// of RFC 3339 that `chrono` and `time` read as the toolchain's `jiff` does: the digits of a date and
/// of a time are all there, a fraction stands behind a point, no second is 60, and an offset is `Z`
/// or less than a day.
#[derive(Clone, Copy, Debug, Drop, PartialEq, Eq)]
pub enum Layout {
    /// Any.
    Any,
    /// `2026-11-25`.
    Date,
    /// `22:15`, `22:15:30` or `22:15:30.5`.
    Time,
    /// `2026-11-25T22:15:30` or `2026-11-25T22:15:30.5`.
    DateTime,
    /// A `DateTime` and then `Z`, or an offset as `+01:00`.
    Timestamp,
}

// Whether a byte is a decimal digit.
fn is_digit(byte: u8) -> bool
    ensures { result ≡ is_digit byte }
{
    48 <= byte && byte <= 57
}

// Whether a byte has the place of a byte of a shape.
fn fits_byte(part: u8, byte: u8) -> bool
    ensures { result ≡ fits_byte part byte }
{
    if is_digit(part) {
        48 <= byte && byte <= part
    } else {
        byte == part || (part == 43 && byte == 45)
    }
}

// What stands behind a shape, where a text begins with it.
fn behind<'t>(shape: &[u8], text: &'t [u8]) -> Option<&'t [u8]>
    ensures { option_map (λ rest. rest.now) result ≡ behind shape.now text.now }
{
    let mut at = 0;
    while at < shape.len() {
        if at >= text.len() {
            return None;
        }
        if !fits_byte(shape[at], text[at]) {
            return None;
        }
        at += 1;
    }
    Some(&text[at..])
}

// What stands behind the digits with which a text begins.
fn behind_digits(text: &[u8]) -> &[u8]
    ensures { result.now ≡ behind_digits text.now }
{
    let mut at = 0;
    while at < text.len() {
        if !is_digit(text[at]) {
            return &text[at..];
        }
        at += 1;
    }
    &text[at..]
}

// What stands behind a point and digits, where a text begins so.
fn behind_fraction(text: &[u8]) -> &[u8]
    ensures { result.now ≡ behind_fraction text.now }
{
    if !text.is_empty() && text[0] == 46 {
        behind_digits(&text[1..])
    } else {
        text
    }
}

// Whether a text has this shape.
fn has_shape(shape: &[u8], text: &[u8]) -> bool
    ensures { result ≡ has_shape shape.now text.now }
{
    match behind(shape, text) {
        Some(rest) => rest.is_empty(),
        None => false,
    }
}

// Whether a text is an offset from UTC.
fn is_offset(text: &[u8]) -> bool
    ensures { result ≡ is_offset text.now }
{
    has_shape(b"Z", text) || has_shape(b"+19:59", text) || has_shape(b"+23:59", text)
}

// Whether a text has this shape and then perhaps a fraction.
fn has_fraction(shape: &[u8], text: &[u8]) -> bool
    ensures { result ≡ ends_in_fraction (behind shape.now text.now) }
{
    match behind(shape, text) {
        Some(rest) => behind_fraction(rest).is_empty(),
        None => false,
    }
}

// Whether a text has this shape, then perhaps a fraction, and then an offset.
fn has_offset(shape: &[u8], text: &[u8]) -> bool
    ensures { result ≡ ends_in_offset (behind shape.now text.now) }
{
    match behind(shape, text) {
        Some(rest) => is_offset(behind_fraction(rest)),
        None => false,
    }
}

impl Layout {
    // Whether a text is laid out so.
    pub(crate) fn is_of(self, text: &str) -> bool
        ensures { result ≡ is_laid_out self text.now }
    {
        let text = text.as_bytes();
        match self {
            Layout::Any => true,
            Layout::Date => has_shape(b"9999-19-39", text),
            Layout::Time => has_shape(b"29:59", text) || has_fraction(b"29:59:59", text),
            Layout::DateTime => has_fraction(b"9999-19-39T29:59:59", text),
            Layout::Timestamp => has_offset(b"9999-19-39T29:59:59", text),
        }
    }
}
