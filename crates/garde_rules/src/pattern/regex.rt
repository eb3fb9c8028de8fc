//! Patterns of the syntax of the crate `regex`.
ghost use Rattle.garde_engines.specs.Patterns.{matches_source};

use crate::as_str::AsStr;
use crate::pattern::Matcher;
pub use garde_engines::patterns::{PatternRefused, Regex, Searcher};
use std::alloc::{AllocError, Global};

impl AsStr for Regex {
    ghost text = { λ regex. regex };

    fn as_str(&self) -> &str {
        Regex::as_str(self)
    }
}

impl Matcher for Regex {
    ghost matches = { matches_source };

    fn is_match(&self, alloc: Global, text: &str) -> Result<bool, AllocError> {
        Regex::is_match(self, alloc, text)
    }
}

impl AsStr for Searcher<'_> {
    ghost text = { λ searcher. searcher };

    fn as_str(&self) -> &str {
        Searcher::as_str(self)
    }
}

impl Matcher for Searcher<'_> {
    ghost matches = { matches_source };

    fn is_match(&self, alloc: Global, text: &str) -> Result<bool, AllocError> {
        Searcher::is_match(self, alloc, text)
    }
}
