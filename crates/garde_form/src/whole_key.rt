//! Names of a map that are whole numbers.
ghost use Rattle.std.specs.Prelude.{◌≡◌, ◌&&◌, is_some};
ghost use Rattle.garde.specs.Fields.{asks_text};
ghost use Rattle.garde_form.specs.Keys.{is_plain};

use crate::parse::Parse;
use garde::fields::{Asks, Rule};
use garde::{I18n, RuleError};
use garde_schema::TextRef;
use std::alloc::Global;

/// The rule that a text is a whole number of this type, as serde reads the name of a member: it has no
/// plus, and no zero in front. So two names of a map are two numbers. Of another text this message is
/// reported, which no handler changes: `Keys(map, Is(WholeKey("not a whole number from 0 to 255", U8)))`.
#[derive(Clone, Copy, Debug)]
pub struct WholeKey<'m, P>(pub &'m str, pub P);

// Whether a text begins as JSON writes whole numbers.
fn is_plain(text: &[u8]) -> bool
    ensures { result ≡ is_plain text.now }
{
    text.len() < 2 || !(text[0] == 43 || text[0] == 48 || (text[0] == 45 && text[1] == 48))
}

impl<'a, P: Parse> Rule<TextRef<'a>> for WholeKey<'_, P> {
    ghost finds = { λ rule text.
        asks_text rule.0.now (is_plain text && is_some (P.parsed rule.1 text)) };

    fn find<H: I18n>(&self, alloc: Global, value: &TextRef<'a>, h: &H) -> Result<(), RuleError> {
        let text = value.text();
        let holds = is_plain(text.as_bytes()) && self.1.parse(text).is_some();
        Asks(self.0, holds).find(alloc, value, h)
    }
}
