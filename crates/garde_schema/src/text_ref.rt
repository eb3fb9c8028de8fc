//! A text that stands in a tree, and what the rules of texts ask of it.
ghost use Rattle.std.specs.Prelude.{◌≡◌, bytes_eq};
ghost use Rattle.std.specs.Cmp.{partial_equiv_from_equiv};
ghost use Rattle.std.specs.Cmp.Lexicographic.{nat_list_eq_equiv};
ghost use Rattle.garde_rules.specs.{byte_count, char_count, unit_count, grapheme_count};

use garde::rules::AsStr;
use garde::rules::length::{HasBytes, HasChars, HasGraphemes, HasSimpleLength, HasUtf16CodeUnits};
use garde::rules::range::OutOfBounds;
use std::marker::Model;

/// A text that stands in a tree. A contract sees its bytes. It lends the text to each rule of texts.
#[derive(Debug, Drop)]
pub struct TextRef<'a>(&'a str);

impl<'a> Model for TextRef<'a> {
    ghost use Rattle.std.specs.Prelude.{ℕ, List};

    ghost Value = { List ℕ };

    ghost view = { λ text. text.0.now };
}

impl<'a> TextRef<'a> {
    /// This text.
    pub fn new(text: &'a str) -> TextRef<'a>
        ensures { result ≡ text.entry.now }
    {
        TextRef(text)
    }

    /// The text.
    pub fn text(&self) -> &'a str
        ensures { result.now ≡ self.now }
    {
        self.0
    }
}

impl AsStr for TextRef<'_> {
    ghost text = { λ text. text };

    fn as_str(&self) -> &str {
        self.0
    }
}

impl HasSimpleLength for TextRef<'_> {
    ghost simple_len = { byte_count };

    fn length(&self) -> usize {
        self.0.len()
    }
}

impl HasBytes for TextRef<'_> {
    ghost byte_len = { byte_count };

    fn num_bytes(&self) -> usize {
        self.0.len()
    }
}

impl HasChars for TextRef<'_> {
    ghost char_len = { char_count };

    fn num_chars(&self) -> usize {
        self.0.num_chars()
    }

    fn check_num_chars(&self, min: usize, max: usize) -> Result<(), OutOfBounds> {
        self.0.check_num_chars(min, max)
    }
}

impl HasGraphemes for TextRef<'_> {
    ghost grapheme_len = { grapheme_count };

    fn num_graphemes(&self) -> usize {
        self.0.num_graphemes()
    }
}

impl HasUtf16CodeUnits for TextRef<'_> {
    ghost unit_len = { unit_count };

    fn num_code_units(&self) -> usize {
        self.0.num_code_units()
    }

    fn check_num_code_units(&self, min: usize, max: usize) -> Result<(), OutOfBounds> {
        self.0.check_num_code_units(min, max)
    }
}

/// By the bytes of the texts.
impl<'a> PartialEq for TextRef<'a> {
    ghost eq = { bytes_eq };

    ghost laws = { partial_equiv_from_equiv nat_list_eq_equiv };

    fn eq(&self, other: &TextRef<'a>) -> bool {
        self.0 == other.0
    }
}

impl<'a> Eq for TextRef<'a> {
    ghost laws = { nat_list_eq_equiv };
}
