//! Tokens that are taken where they are the next ones.
ghost use Rattle.std.specs.Prelude.{◌≡◌, ◌≢◌, ◌∷◌, ℕ, List, false, MatchOption};
ghost use Rattle.json.specs.Token.{Token as AToken, begin_array, end_array, begin_object, end_object, key, string};
ghost use Rattle.garde_json.specs.Next.{Ends, Takes};

use json::{Reader, Token};

/// Takes the bracket that opens a list, or ends the reading.
pub(crate) fn opens_list(reader: &mut Reader<'_>) -> bool
    ensures { Takes begin_array reader.old reader.new result }
{
    matches!(reader.next(), Some(Token::BeginArray))
}

/// Takes the bracket that closes a list, if it is next.
pub(crate) fn ends_list(reader: &mut Reader<'_>) -> bool
    ensures taken { Takes end_array reader.old reader.new result }
    ensures kept { result ≡ false → reader.new ≡ reader.old }
{
    reader.take_end_array()
}

/// Takes the brace that opens an object, or ends the reading.
pub(crate) fn opens_object(reader: &mut Reader<'_>) -> bool
    ensures { Takes begin_object reader.old reader.new result }
{
    matches!(reader.next(), Some(Token::BeginObject))
}

/// Takes the brace that closes an object, or ends the reading.
pub(crate) fn ends_object(reader: &mut Reader<'_>) -> bool
    ensures { Takes end_object reader.old reader.new result }
{
    matches!(reader.next(), Some(Token::EndObject))
}

/// Takes the name of a member, if it is this one, or ends the reading.
pub(crate) fn has_key(reader: &mut Reader<'_>, name: &str) -> bool
    ensures { Takes (key name.now) reader.old reader.new result }
{
    matches!(reader.next(), Some(Token::Key(key)) if key == name)
}

/// Takes a text, or ends the reading.
pub(crate) fn next_text<'a>(reader: &mut Reader<'a>) -> Option<&'a str>
    ensures { MatchOption result ((text : List ℕ) (rest : List AToken) → reader.old ≢ string text ∷ rest)
        (λ text. reader.old ≡ string text.now ∷ reader.new) }
{
    match reader.next() {
        Some(Token::String(text)) => Some(text),
        _ => None,
    }
}

/// Whether no token is left. If one is, the reading ends.
pub(crate) fn is_at_end(reader: &mut Reader<'_>) -> bool
    ensures { Ends reader.old result }
{
    reader.next().is_none()
}
