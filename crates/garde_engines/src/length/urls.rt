//! The lengths of a URL: those of its text, as it is serialised.
ghost use Rattle.url.specs.Parts.{serialize};
ghost use Rattle.garde_engines.specs.Counts.{byte_count, char_count, grapheme_count, unit_count};

use super::{HasBytes, HasChars, HasGraphemes, HasSimpleLength, HasUtf16CodeUnits};
use crate::count::{count_chars, count_graphemes, count_units};
use url::Url;

impl HasSimpleLength for Url {
    ghost simple_len = { λ v. byte_count (serialize v) };

    fn length(&self) -> usize {
        self.as_str().len()
    }
}

impl HasBytes for Url {
    ghost byte_len = { λ v. byte_count (serialize v) };

    fn num_bytes(&self) -> usize {
        self.as_str().len()
    }
}

impl HasChars for Url {
    ghost char_len = { λ v. char_count (serialize v) };

    fn num_chars(&self) -> usize {
        count_chars(self.as_str())
    }
}

impl HasGraphemes for Url {
    ghost grapheme_len = { λ v. grapheme_count (serialize v) };

    fn num_graphemes(&self) -> usize {
        count_graphemes(self.as_str())
    }
}

impl HasUtf16CodeUnits for Url {
    ghost unit_len = { λ v. unit_count (serialize v) };

    fn num_code_units(&self) -> usize {
        count_units(self.as_str())
    }
}
