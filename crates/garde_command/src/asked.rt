//! What the words of a command line ask for: which input is read, and how its faults are printed.
ghost use Rattle.std.specs.Prelude.{◌≡◌, ◌⊎◌, IfErr, IfOk, IsSome, MatchOption, None, OnErr, Some, false, option_map, true};
ghost use Rattle.std.specs.Str.{all_ascii_digits};
ghost use Rattle.garde_command.specs.Asked.{IsTaken, IsWrong, TakesFormat, file_asked, format_asked, format_behind, input_word, is_input, name_asked, named_format, why_no_format, why_wrong};

use crate::word::Word;
use garde_places::{Format, Printed};

/// Which input the words of a command line ask for, and how its faults are to be printed. A program
/// hands over its words one after the other, and does itself with those that are not taken.
#[derive(Clone, Copy, Debug, Drop)]
pub struct Asked<'w> {
    /// The word that names the input: a file, or `-` for standard input.
    pub input: Option<&'w str>,
    /// The format of the name behind `--format`. It is `Some(None)` for `plain`, where faults are printed
    /// without places.
    pub format: Option<Option<Format>>,
}

/// Whether these bytes are decimal digits.
fn is_numeral(bytes: &[u8]) -> bool
    ensures { result ≡ all_ascii_digits bytes.now }
{
    for byte in bytes {
        if !byte.is_ascii_digit() {
            return false;
        }
    }
    true
}

/// Whether a word names an input.
fn is_input(word: &str) -> bool
    ensures { result ≡ is_input word.now }
{
    let bytes = word.as_bytes();
    match bytes.split_first() {
        None => false,
        Some((b'-', rest)) => rest.is_empty(),
        Some(_) => !is_numeral(bytes),
    }
}

/// The format of a name, none for `plain`.
fn named_format(name: &str) -> Option<Option<Format>>
    ensures { result ≡ named_format name.now }
{
    if name == "plain" {
        return Some(None);
    }
    match Format::of(name) {
        Some(format) => Some(Some(format)),
        None => None,
    }
}

/// The format behind an option, none where it is missing or of no format.
fn format_behind(word: &Word) -> Option<Option<Format>>
    ensures { result ≡ format_behind word.now }
{
    match &word.value {
        Some(name) => named_format(name.as_str()),
        None => None,
    }
}

impl<'w> Asked<'w> {
    /// What no word asks for.
    pub fn new() -> Asked<'w>
        ensures input { result.input ≡ None }
        ensures format { result.format ≡ None }
    {
        Asked {
            input: None,
            format: None,
        }
    }

    /// Takes a word: `--format` with the name of a format, or the name of an input. That is `-`, or a word
    /// that neither begins with `-` nor has digits alone: the file `20` is written `./20`. Returns whether
    /// it took the word.
    ///
    /// # Errors
    ///
    /// Why the word cannot be followed: no format has this name, or it is a second format or a second
    /// input.
    pub fn take(&mut self, word: &'w Word) -> Result<bool, &'static str>
        ensures taken { IfOk result (λ is_taken. IsTaken is_taken self.old word.now self.new) }
        ensures wrong { OnErr result (IsWrong self.old word.now) }
        ensures unchanged { OnErr result (self.new ≡ self.old) }
        ensures why { IfErr result (λ why. why.now ≡ why_wrong self.old word.now) }
    {
        let name = word.name.as_str();
        if name == "--format" {
            return self.take_format(word);
        }
        if !is_input(name) {
            return Ok(false);
        }
        if self.input.is_some() {
            return Err(TWO_INPUTS);
        }
        self.input = Some(name);
        Ok(true)
    }

    // Takes `--format` with its value.
    fn take_format(&mut self, word: &Word) -> Result<bool, &'static str>
        ensures taken { IfOk result (λ is_taken. (is_taken ≡ true) × TakesFormat self.old word.now self.new) }
        ensures wrong { OnErr result (IsSome self.old.format ⊎ (format_behind word.now ≡ None)) }
        ensures unchanged { OnErr result (self.new ≡ self.old) }
        ensures why { IfErr result (λ why. why.now ≡ why_no_format self.old.format) }
    {
        if self.format.is_some() {
            return Err(TWO_FORMATS);
        }
        let Some(format) = format_behind(word) else {
            return Err(NO_FORMAT);
        };
        self.format = Some(format);
        Ok(true)
    }

    /// The name of the file to be read, none for standard input.
    pub fn file(&self) -> Option<&'w str>
        ensures { option_map (λ name. name.now) result ≡ file_asked (input_word self.now) }
    {
        match self.input {
            Some(name) if name != "-" => Some(name),
            _ => None,
        }
    }

    /// How faults are to be printed, under the name of the file, or under `<stdin>` for standard input. It
    /// is none where they are printed without places: that is asked for, or neither an input nor a format
    /// is. An input alone is printed as `short`.
    pub fn printed(&self) -> Option<Printed<'w>>
        ensures { MatchOption result (format_asked self.now ≡ None)
            (λ it. (format_asked self.now ≡ Some it.format) × (it.file.now ≡ name_asked (input_word self.now))) }
    {
        let format = self.format_or_short()?;
        let file = self.file().unwrap_or("<stdin>");
        Some(Printed { format, file })
    }

    // The format that is named, or `short` where an input is.
    fn format_or_short(&self) -> Option<Format>
        ensures { result ≡ format_asked self.now }
    {
        match (self.format, self.input) {
            (Some(format), _) => format,
            (None, Some(_)) => Some(Format::Short),
            (None, None) => None,
        }
    }
}

const TWO_INPUTS: &str = "there must be one file at most";

const TWO_FORMATS: &str = "--format must stand once at most";

const NO_FORMAT: &str = "--format must be followed by short, json, github or plain";
