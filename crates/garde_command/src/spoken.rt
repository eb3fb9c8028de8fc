//! The language that the words of a command line ask for.
ghost use Rattle.std.specs.Prelude.{◌≡◌, IfErr, IfOk, IsSome, None, OnErr, codes, true};
ghost use Rattle.garde_command.specs.Spoken.{IsTaken, is_option};

use crate::word::Word;

/// The tag behind `--language` among the words of a command line. A program hands over its words one
/// after the other, and does itself with those that are not taken.
#[derive(Clone, Copy, Debug, Drop)]
pub struct Spoken<'w> {
    /// The tag. It is empty, and so that of no language, where `--language` is the last word.
    pub tag: Option<&'w str>,
}

impl<'w> Spoken<'w> {
    /// What no word asks for.
    pub fn new() -> Spoken<'w>
        ensures { result.tag ≡ None }
    {
        Spoken { tag: None }
    }

    /// Takes a word: `--language` with its tag. Returns whether it took the word.
    ///
    /// # Errors
    ///
    /// `--language` stands a second time.
    pub fn take(&mut self, word: &'w Word) -> Result<bool, &'static str>
        ensures taken { IfOk result (λ is_taken. IsTaken is_taken self.old word.now self.new) }
        ensures twice { OnErr result ((is_option word.now ≡ true) × IsSome self.old.tag) }
        ensures unchanged { OnErr result (self.new ≡ self.old) }
        ensures why { IfErr result (λ why. why.now ≡ codes "--language must stand once at most") }
    {
        if word.name.as_str() != "--language" {
            return Ok(false);
        }
        if self.tag.is_some() {
            return Err("--language must stand once at most");
        }
        self.tag = Some(word.value_or_empty());
        Ok(true)
    }
}
