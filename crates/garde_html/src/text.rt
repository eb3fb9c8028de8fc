//! Texts within HTML.
ghost use Rattle.std.specs.Prelude.{Some};
ghost use Rattle.std.specs.Char.{encode_utf8};
ghost use Rattle.std.specs.Fmt.{WritesOnOk};
ghost use Rattle.garde_html.specs.Html.{html_text};

use std::fmt;

/// A text as it stands within HTML, between tags or in the value of an attribute in quotes: `&`, `<`,
/// `>`, `"` and `'` print as `&amp;`, `&lt;`, `&gt;`, `&quot;` and `&#39;`, and any other character as
/// it is. So no text of a visitor ends the text or the attribute in which it stands.
///
/// `to_string(alloc)` makes a `String` of it.
#[derive(Clone, Copy, Debug)]
pub struct HtmlText<'a>(pub &'a str);

impl fmt::Display for HtmlText<'_> {
    ghost output = { λ html. Some (html_text html.0.now) };

    fn fmt<W: fmt::Write>(&self, f: &mut fmt::Formatter<W>) -> fmt::Result {
        write_text(self.0, f)
    }
}

// Writes a text character by character.
fn write_text<W: fmt::Write>(text: &str, f: &mut fmt::Formatter<W>) -> fmt::Result
    ensures { WritesOnOk W.write_str_gives f.old result (html_text text.now) f.new }
{
    for c in text.chars() {
        write_char(c, f)?;
    }
    Ok(())
}

// Writes a character, or the entity that stands for it.
#[tactic(auto, using(crate::proofs::Entities::plain_char))]
fn write_char<W: fmt::Write>(c: char, f: &mut fmt::Formatter<W>) -> fmt::Result
    ensures { WritesOnOk W.write_str_gives f.old result (html_text (encode_utf8 c)) f.new }
{
    match c {
        '&' => f.write_str("&amp;"),
        '<' => f.write_str("&lt;"),
        '>' => f.write_str("&gt;"),
        '"' => f.write_str("&quot;"),
        '\'' => f.write_str("&#39;"),
        _ => f.write_char(c),
    }
}
