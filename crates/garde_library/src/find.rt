//! Where a text lies in a body.
ghost use Rattle.std.specs.Prelude.{◌≡◌, ◌+◌, ◌≤◌, length, take, drop, IsTrue, IfSome};
ghost use Rattle.garde_library.specs.Nodes.{LiesAt};

/// Whether a text lies at this offset.
#[inline(always)]
fn lies_at(body: &[u8], at: usize, text: &[u8]) -> bool
    ensures { IsTrue result → LiesAt body.now at text.now }
{
    if at > body.len() || body.len() - at < text.len() {
        return false;
    }
    &body[at..at + text.len()] == text
}

/// The offset of the first such byte from there on, or that of the end.
#[inline(always)]
fn next(body: &[u8], from: usize, byte: u8) -> usize {
    let mut at = from;
    while at < body.len() && body[at] != byte {
        at += 1;
    }
    at
}

/// The offset behind the text that begins there, by its closing quote.
fn behind(body: &[u8], from: usize) -> usize {
    let mut at = from;
    while at < body.len() && body[at] != b'"' {
        at = at.saturating_add(if body[at] == b'\\' { 2 } else { 1 });
    }
    at.saturating_add(1)
}

/// Goes past the text between quotes that comes next, which is `text` once its escapes are read: where
/// the body has it with no escape.
#[inline(always)]
pub(crate) fn find_text(body: &[u8], from: &mut usize, text: &[u8]) -> Option<usize>
    ensures { IfSome result (λ at. LiesAt body.now at text.now) }
{
    let at = next(body, *from, b'"').saturating_add(1);
    let end = at.saturating_add(text.len());
    if lies_at(body, at, text) && end < body.len() && body[end] == b'"' {
        *from = end + 1;
        Some(at)
    } else {
        *from = behind(body, at);
        None
    }
}

/// Goes past the number that comes next.
pub(crate) fn find_number(body: &[u8], from: &mut usize, text: &[u8]) -> Option<usize>
    ensures { IfSome result (λ at. LiesAt body.now at text.now) }
{
    let mut at = *from;
    while at < body.len() {
        if lies_at(body, at, text) {
            *from = at.saturating_add(text.len());
            return Some(at);
        }
        at += 1;
    }
    None
}
