//! Compiled patterns.
ghost use Rattle.std.specs.Prelude.{◌≡◌, IfOk, IfErr, OnOk, IsTrue};
ghost use Rattle.regex.specs.Strings.{regex_source};
ghost use Rattle.garde_engines.specs.Patterns.{IsPattern, IsNoPattern, matches_source};

use std::alloc::{AllocError, Global};
use std::cell::RefCell;
use std::fmt;
use std::marker::Model;

/// Why a pattern was not compiled.
#[derive(Debug, Clone, Copy, PartialEq, Eq)]
pub enum PatternRefused {
    /// The text is no pattern of the syntax of `regex`, or one that is nested deeper than it
    /// allows.
    Syntax,
    /// Any other reason: the compiled pattern would be too big, or there is no memory for it.
    Other,
}

/// Why the pattern was not compiled, in words.
impl fmt::Display for PatternRefused {
    ghost use Rattle.std.specs.Prelude.{Some};
    ghost use Rattle.garde_engines.specs.Refusals.{pattern_refused_text};

    ghost output = { λ refused. Some (pattern_refused_text refused) };

    fn fmt<W: fmt::Write>(&self, f: &mut fmt::Formatter<W>) -> fmt::Result {
        f.write_str(match self {
            PatternRefused::Syntax => "the text is not a pattern",
            PatternRefused::Other => "the pattern is too big, or out of memory",
        })
    }
}

impl std::error::Error for PatternRefused {}

/// A compiled pattern, which keeps the text that it was compiled from.
#[derive(Drop)]
pub struct Regex {
    compiled: regex::Regex,
}

/// The text that the pattern was compiled from, as `Regex("a+")`.
impl fmt::Debug for Regex {
    fn fmt<W: fmt::Write>(&self, f: &mut fmt::Formatter<W>) -> fmt::Result {
        f.debug_tuple("Regex").field(&self.as_str()).finish()
    }
}

// Contracts see a pattern as its text, since that decides what the pattern matches.
impl Model for Regex {
    ghost use Rattle.std.specs.Prelude.{ℕ, List};
    ghost use Rattle.regex.specs.Strings.{regex_source};
    ghost use Rattle.garde_engines.specs.Compiled.{IsCompiled};

    ghost Value = { List ℕ };

    ghost view = { λ regex. regex_source regex.compiled };

    ghost invariant = { λ regex. IsCompiled regex.compiled };
}

impl Regex {
    ghost use Rattle.garde_engines.specs.declared.patterns.PatternRefused.TheVariants.{Syntax};

    /// Compiles a pattern of the syntax of `regex`, under its default options.
    ///
    /// `PatternRefused::Syntax` is returned only where the syntax does not allow the text. A text
    /// that it allows may still give `PatternRefused::Other`.
    pub fn new(alloc: Global, source: &str) -> Result<Regex, PatternRefused>
        ensures source { IfOk result (λ regex. regex ≡ source.now) }
        ensures pattern { OnOk result (IsPattern source.now) }
        ensures refused { IfErr result (λ reason. reason ≡ Syntax → IsNoPattern source.now) }
    {
        match regex::Regex::new(alloc, source) {
            Ok(compiled) => Ok(Regex { compiled }),
            Err(regex::Error::Syntax(_)) => Err(PatternRefused::Syntax),
            Err(_) => Err(PatternRefused::Other),
        }
    }

    /// The text that the pattern was compiled from.
    pub fn as_str(&self) -> &str
        ensures { result.now ≡ self.now }
    {
        self.compiled.as_str()
    }

    /// Whether the pattern matches anywhere in the text.
    ///
    /// `AllocError` is returned where there is no memory for the search.
    pub fn is_match(&self, alloc: Global, text: &str) -> Result<bool, AllocError>
        ensures { IfOk result (λ found. found ≡ matches_source self.now text.now) }
    {
        let mut matcher = self.compiled.matcher(alloc)?;
        Ok(matcher.is_match(text))
    }

    /// The pattern with the memory that its searches write to, which is allocated once.
    ///
    /// `AllocError` is returned where there is no such memory.
    pub fn searcher(&self, alloc: Global) -> Result<Searcher<'_>, AllocError>
        ensures { IfOk result (λ searcher. searcher ≡ self.now) }
    {
        let compiled = &self.compiled;
        let matcher = compiled.matcher(alloc)?;
        Ok(Searcher {
            regex: self,
            ready: RefCell::new(Ready { compiled, matcher }),
        })
    }
}

/// A compiled pattern with the memory that its searches write to, so that a search allocates
/// nothing.
#[derive(Drop)]
pub struct Searcher<'r> {
    regex: &'r Regex,
    ready: RefCell<Ready<'r>>,
}

/// The pattern, as `Searcher("a+")`.
impl fmt::Debug for Searcher<'_> {
    fn fmt<W: fmt::Write>(&self, f: &mut fmt::Formatter<W>) -> fmt::Result {
        f.debug_tuple("Searcher").field(&self.as_str()).finish()
    }
}

// Contracts see a searcher as the text of its pattern.
impl<'r> Model for Searcher<'r> {
    ghost use Rattle.std.specs.Prelude.{ℕ, List};

    ghost Value = { List ℕ };

    ghost view = { λ searcher. searcher.regex.now };
}

impl<'r> Searcher<'r> {
    /// The text that the pattern was compiled from.
    pub fn as_str(&self) -> &str
        ensures { result.now ≡ self.now }
    {
        self.regex.as_str()
    }

    /// Whether the pattern matches anywhere in the text.
    ///
    /// A search allocates only if it begins while another one of the same searcher runs; then
    /// `AllocError` may be returned.
    pub fn is_match(&self, alloc: Global, text: &str) -> Result<bool, AllocError>
        ensures { IfOk result (λ found. found ≡ matches_source self.now text.now) }
    {
        if let Ok(mut ready) = self.ready.try_borrow_mut() {
            let ready = &mut *ready;
            if has_source(ready.compiled, self.regex) {
                return Ok(ready.matcher.is_match(text));
            }
        }
        self.regex.is_match(alloc, text)
    }
}

// A matcher, and the pattern that it was made for.
#[derive(Drop)]
struct Ready<'r> {
    compiled: &'r regex::Regex,
    matcher: regex::Matcher<'r>,
}

impl<'r> Model for Ready<'r> {
    ghost use Rattle.std.specs.Prelude.{◌≡◌, ℕ, List};
    ghost use Rattle.regex.specs.Strings.{matcher_pattern, regex_pattern, regex_source};
    ghost use Rattle.garde_engines.specs.Compiled.{IsCompiled};

    ghost Value = { List ℕ };

    ghost view = { λ ready. regex_source ready.compiled.now };

    ghost invariant = { λ ready. record {
      made : matcher_pattern ready.matcher ≡ regex_pattern ready.compiled.now;
      compiled : IsCompiled ready.compiled.now;
    } };
}

// Whether the pattern was compiled from the text of the other. Of what lies in a cell only that is
// known which holds of each value of its type.
fn has_source(compiled: &regex::Regex, regex: &Regex) -> bool
    ensures { IsTrue result → regex_source compiled.now ≡ regex.now }
{
    compiled.as_str() == regex.as_str()
}
