//! A walk along selected errors.
ghost use Rattle.std.specs.Prelude.{◌≡◌, map};
ghost use Rattle.std.specs.Iterator.{YieldsFirstRef, item_count};
ghost use Rattle.garde_report.specs.Report.{messages_under};

use super::report::ReportIter;
use super::rule_error::Error;
use std::marker::Model;

/// The errors that `select` gives, in order. A contract sees the list of the messages that are
/// left.
#[derive(Debug, Drop)]
pub struct Select<'a> {
    errors: ReportIter<'a>,
    way: &'a [&'a str],
}

impl<'a> Model for Select<'a> {
    ghost use Rattle.std.specs.Prelude.{List, ℕ, map};
    ghost use Rattle.garde_report.specs.Report.{messages_under};

    ghost Value = { List (List ℕ) };

    ghost view = { λ s. messages_under (map (λ text. text.now) s.way.now) s.errors };
}

impl<'a> Select<'a> {
    pub(super) fn new(errors: ReportIter<'a>, way: &'a [&'a str]) -> Self
        ensures { result ≡ messages_under (map (λ text. text.now) way.now) errors.entry }
    {
        Select { errors, way }
    }
}

impl<'a> Iterator for Select<'a> {
    type Item = &'a Error;

    ghost next_gives = { YieldsFirstRef (λ rest. rest) };

    ghost remaining = { item_count (λ rest. rest) };

    fn next(&mut self) -> Option<&'a Error> {
        while let Some((path, error)) = self.errors.next() {
            if path.begins_with(self.way) {
                return Some(error);
            }
        }
        None
    }
}
