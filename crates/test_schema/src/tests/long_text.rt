//! Long texts, which are made of short ones.

use super::is_text;
use std::alloc::{AllocError, Global};
use std::fmt::Write;

/// How a long text is made.
pub enum Long {
    /// It is this one.
    Text(&'static str),
    /// A text, another one so many times, a third one, a fourth one so many times, and a last one.
    Repeated(
        &'static str,
        (usize, &'static str),
        &'static str,
        (usize, &'static str),
        &'static str,
    ),
    /// A text, each number from the first one up to the second one behind another text, and again behind
    /// a third text if there is one, and a last text.
    Numbered(&'static str, (usize, usize), (&'static str, &'static str), &'static str),
}

// Writes a text, and another one so many times.
fn push_repeated(
    out: &mut String,
    before: &str,
    (count, piece): (usize, &str),
) -> Result<(), AllocError> {
    out.push_str(before)?;
    for _ in 0..count {
        out.push_str(piece)?;
    }
    Ok(())
}

// Writes two texts, each so many times, and others before, between and behind them.
fn push_both(
    out: &mut String,
    (start, between, end): (&str, &str, &str),
    first: (usize, &str),
    second: (usize, &str),
) -> Result<(), AllocError> {
    push_repeated(out, start, first)?;
    push_repeated(out, between, second)?;
    out.push_str(end)
}

// Writes a number behind a text.
fn push_number(out: &mut String, before: &str, number: usize) -> Result<(), AllocError> {
    write!(out, "{before}{number}")
}

// Writes each of these numbers behind a text, and again behind another one if there is one.
fn push_numbers(
    out: &mut String,
    (from, to): (usize, usize),
    (before, between): (&str, &str),
) -> Result<(), AllocError> {
    for number in from..to {
        push_number(out, before, number)?;
        if !between.is_empty() {
            push_number(out, between, number)?;
        }
    }
    Ok(())
}

// Writes each of these numbers behind a text, and again behind another one if there is one, between two texts.
fn push_numbered(
    out: &mut String,
    (start, end): (&str, &str),
    numbers: (usize, usize),
    pieces: (&str, &str),
) -> Result<(), AllocError> {
    out.push_str(start)?;
    push_numbers(out, numbers, pieces)?;
    out.push_str(end)
}

impl Long {
    // Writes the text.
    fn push_onto(&self, out: &mut String) -> Result<(), AllocError> {
        match self {
            Long::Text(text) => out.push_str(text),
            Long::Repeated(start, first, between, second, end) => {
                push_both(out, (start, between, end), *first, *second)
            }
            Long::Numbered(start, numbers, pieces, end) => {
                push_numbered(out, (start, end), *numbers, *pieces)
            }
        }
    }

    /// The text.
    pub fn text(&self, alloc: Global) -> Result<String, AllocError> {
        let mut out = String::new(alloc);
        self.push_onto(&mut out)?;
        Ok(out)
    }

    /// Whether a text was made, and is this one.
    pub fn is<E: Drop>(&self, alloc: Global, made: Result<String, E>) -> bool {
        match self.text(alloc) {
            Ok(text) => is_text(made, text.as_str()),
            Err(_) => false,
        }
    }
}
