//! An input, and the text that is read of it.
ghost use Rattle.std.specs.Prelude.{◌≡◌, Some};
ghost use Rattle.json.specs.Json.{Json, document};
ghost use Rattle.garde_tape.specs.Input.{without_mark};

/// The bytes behind a byte order mark (RFC 8259, section 8.1), where the input begins with one.
pub fn without_mark(input: &[u8]) -> &[u8]
    ensures { result.now ≡ without_mark input.now }
{
    match input {
        [0xEF, 0xBB, 0xBF, rest @ ..] => rest,
        _ => input,
    }
}

/// A law: a JSON text (RFC 8259) begins with no byte order mark. So what a writer gives is read as it
/// is, by `parse_bytes` too.
pub fn json_has_no_mark(_text: &[u8])
    ensures { (j : Json) → document _text.now ≡ Some j → without_mark _text.now ≡ _text.now }
{}
