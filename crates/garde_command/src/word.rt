//! The words of a command line, each option with its value.
ghost use Rattle.std.specs.Prelude.{◌≡◌, IfOk, None, map, string_bytes};
ghost use Rattle.garde_command.specs.Word.{is_one_of, parted, spelled, value_or_empty};

use std::alloc::{AllocError, Global};

/// A word of a command line, and the word behind it where it is an option with a value.
#[derive(Debug, Drop)]
pub struct Word {
    /// The word itself.
    pub name: String,
    /// The value of an option. It is none of a word without one, and of an option that is the last word.
    pub value: Option<String>,
}

impl Word {
    /// The value, which is empty where there is none.
    pub fn value_or_empty(&self) -> &str
        ensures { result.now ≡ value_or_empty self.now }
    {
        match &self.value {
            Some(value) => value.as_str(),
            None => "",
        }
    }
}

// Whether a word is one of these options.
fn is_one_of(options: &[&str], word: &str) -> bool
    ensures { result ≡ is_one_of options.now word.now }
{
    for option in options {
        if *option == word {
            return true;
        }
    }
    false
}

/// The words of a command line in their order, where each of these options has the word behind it as its
/// value, whatever that is.
#[tactic(auto, using(crate::proofs::Parting::pushed))]
pub fn parted(alloc: Global, texts: Vec<String>, options: &[&str]) -> Result<Vec<Word>, AllocError>
    ensures { IfOk result (λ words. map spelled words.items ≡ parted options.now None (map string_bytes texts.items)) }
{
    let mut words = Vec::new(alloc);
    let mut open = None;
    for text in texts {
        match open.take() {
            Some(name) => words.push(Word {
                name,
                value: Some(text),
            })?,
            None if is_one_of(options, text.as_str()) => open = Some(text),
            None => words.push(Word {
                name: text,
                value: None,
            })?,
        }
    }
    if let Some(name) = open {
        words.push(Word { name, value: None })?;
    }
    Ok(words)
}
