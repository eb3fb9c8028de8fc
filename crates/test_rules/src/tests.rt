//! Tests of the rules, and of reports: each holds the answers on a table of values against texts that
//! are written out.
mod addresses;
mod conditions;
mod engines;
mod inner;
mod laws;
mod lengths;
mod numbers;
mod options;
mod ranges;
mod report;
mod rules;
mod texts;
mod urls;
mod values;

use garde_i18n::DefaultI18n;
use garde_report::{RuleError, Trail};
use garde_rules::Rule;
use std::alloc::Global;
use std::fmt::{Debug, Display};
use std::process::Abort;

/// The value of an Ok, where a test asks nothing of the error.
trait OrEnd<T> {
    /// The value, or the end of the test.
    fn or_end(self, rt: &impl Abort) -> T;
}

impl<T: Drop, E: Drop> OrEnd<T> for Result<T, E> {
    fn or_end(self, rt: &impl Abort) -> T {
        match self {
            Ok(value) => value,
            Err(_) => rt.abort(),
        }
    }
}

/// Whether an answer prints this: nothing where it is Ok, and else the text of its fault.
fn tells(answer: Result<(), RuleError>, wanted: Option<&str>) -> bool {
    match answer {
        Ok(()) => wanted.is_none(),
        Err(RuleError::Fault(error)) => wanted == Some(error.message()),
        Err(RuleError::Memory) => wanted == Some("out of memory"),
    }
}

/// Whether a rule as a value finds this.
fn finds<T, R: Rule<T>>(alloc: Global, rule: &R, value: &T, fault: Option<&str>) -> bool {
    tells(rule.find(alloc, value, &DefaultI18n), fault)
}

/// Whether a text was made, and is this one.
fn is_text<E: Drop>(made: Result<String, E>, text: &str) -> bool {
    match made {
        Ok(made) => made.as_str() == text,
        Err(_) => false,
    }
}

/// The text of a value.
fn printed<T: Display>(rt: &impl Abort, alloc: Global, value: &T) -> String {
    format!(in alloc; "{value}").or_end(rt)
}

/// Whether a value prints this text.
fn has_text<T: Display>(rt: &impl Abort, alloc: Global, value: &T, text: &str) -> bool {
    printed(rt, alloc, value).as_str() == text
}

/// The text of a value for a programmer.
fn shown<T: Debug>(rt: &impl Abort, alloc: Global, value: &T) -> String {
    format!(in alloc; "{value:?}").or_end(rt)
}

/// Whether a value shows a programmer this text.
fn shows<T: Debug>(rt: &impl Abort, alloc: Global, value: &T, text: &str) -> bool {
    shown(rt, alloc, value).as_str() == text
}

/// Whether the path of a trail prints this text.
fn is_at(rt: &impl Abort, trail: &mut Trail<'_>, text: &str) -> bool {
    let alloc = trail.alloc();
    has_text(rt, alloc, &trail.path().or_end(rt), text)
}
