//! A walk along a TOML text that finds where its keys and values stand, by the readers of
//! `toml_parser`.

use crate::cursor::Cursor;
use crate::spots::{ROOT, Shape, Spots};
use garde_tape::Place;
use std::alloc::Global;
use toml_parser::bytes::is_bare;
use toml_parser::text::{byte_at, first, skip, skip_blank, skip_ws};
use toml_parser::{
    ErrorKind, ParseError, RECURSION_LIMIT, Scalar, quoted, starts_string, unquoted,
};

/// How deep the JSON text nests that is read.
const DEEPEST: usize = 128;

/// A text without a byte order mark in front, and what was found in it.
#[derive(Drop)]
struct Walk<'t> {
    alloc: Global,
    cursor: Cursor<'t>,
    spots: Spots,
}

/// The place of each token of the JSON text that `toml_to_json` writes of a TOML text, in its order.
pub(crate) fn token_places(alloc: Global, text: &str) -> Result<Vec<Place>, ParseError> {
    let text = text.strip_prefix('\u{feff}').unwrap_or(text);
    let mut walk = Walk {
        alloc,
        cursor: Cursor::new(text),
        spots: Spots::new(alloc),
    };
    let start = Place { line: 1, column: 1 };
    walk.spots.add(start, start, Shape::Table)?;
    walk.lines(text)?;
    let mut places = Vec::new(alloc);
    walk.spots.list(ROOT, DEEPEST, &mut places)?;
    Ok(places)
}

// After a comma, or at the closing bracket.
fn after_element(s: &str, closing: u8) -> Result<&str, ParseError> {
    let rest = skip_blank(s, true);
    if first(rest) == b',' {
        Ok(skip(rest, 1))
    } else if first(rest) == closing {
        Ok(rest)
    } else {
        Err(ParseError::at(ErrorKind::Array, rest))
    }
}

// Behind a bracket that closes a header, if one stands here.
fn past_bracket(s: &str) -> &str {
    if first(s) == b']' { skip(s, 1) } else { s }
}

// Behind a bracket that opens one.
fn past_opening(s: &str) -> &str {
    if first(s) == b'[' { skip(s, 1) } else { s }
}

// One part of a key, and what stands behind it.
fn part<'t>(alloc: Global, s: &'t str) -> Result<(String, &'t str), ParseError> {
    if starts_string(s) {
        return quoted(alloc, s);
    }
    let length = s
        .as_bytes()
        .iter()
        .take_while(|byte| is_bare(**byte))
        .count();
    match s.split_at_checked(length) {
        Some((name, rest)) => Ok((String::from_str(alloc, name)?, rest)),
        None => Err(ParseError::at(ErrorKind::Key, s)),
    }
}

// What an atom is written as, and what stands behind it.
fn atom<'t>(alloc: Global, s: &'t str) -> Result<(Shape, &'t str), ParseError> {
    if starts_string(s) {
        let (_, rest) = quoted(alloc, s)?;
        return Ok((Shape::Plain, rest));
    }
    let (scalar, rest) = unquoted(alloc, s)?;
    let shape = match scalar {
        Scalar::Datetime(_) => Shape::Bare,
        Scalar::Float(number) if !number.is_finite() => Shape::Bare,
        _ => Shape::Plain,
    };
    Ok((shape, rest))
}

impl<'t> Walk<'t> {
    // The lines of a document.
    fn lines(&mut self, text: &'t str) -> Result<(), ParseError> {
        let mut section = ROOT;
        let mut rest = text;
        for _ in 0..=text.len() {
            let start = skip_blank(rest, true);
            if start.is_empty() {
                return Ok(());
            }
            if first(start) == b'[' {
                let (table, after) = self.header(start)?;
                section = table;
                rest = after;
            } else {
                rest = self.pair(start, section, RECURSION_LIMIT)?;
            }
        }
        Err(ParseError::at(ErrorKind::Content, rest))
    }

    // The table that a header begins, and what stands behind the header.
    fn header(&mut self, s: &'t str) -> Result<(usize, &'t str), ParseError> {
        let place = self.cursor.place(s);
        if first(s) == b'[' && byte_at(s, 1) == b'[' {
            let (array, rest) = self.key(skip_ws(skip(s, 2)), ROOT)?;
            self.spots.put_array(array, place);
            let item = self.spots.add_item(array, place)?;
            self.spots.put(item, place, Shape::Table);
            return Ok((item, past_bracket(past_bracket(rest))));
        }
        let (table, rest) = self.key(skip_ws(past_opening(s)), ROOT)?;
        self.spots.put(table, place, Shape::Table);
        Ok((table, past_bracket(rest)))
    }

    // What a key below a table leads to, and what stands behind the key.
    fn key(&mut self, s: &'t str, table: usize) -> Result<(usize, &'t str), ParseError> {
        let mut number = table;
        let mut rest = s;
        for _ in 0..RECURSION_LIMIT {
            let place = self.cursor.place(rest);
            let (name, after) = part(self.alloc, rest)?;
            number = self
                .spots
                .member(self.spots.last_item(number), name, place)?;
            let after = skip_ws(after);
            if first(after) != b'.' {
                return Ok((number, after));
            }
            rest = skip_ws(skip(after, 1));
        }
        Err(ParseError::at(ErrorKind::Recursion, s))
    }

    // A key, `=` and a value below a table, and what stands behind them.
    #[cycle(value)]
    fn pair(&mut self, s: &'t str, table: usize, depth: usize) -> Result<&'t str, ParseError> {
        let (number, rest) = self.key(s, table)?;
        if first(rest) != b'=' {
            return Err(ParseError::at(ErrorKind::MissingEquals, rest));
        }
        self.value(skip_ws(skip(rest, 1)), number, depth)
    }

    // A value with arrays and inline tables at most so deep, and what stands behind it.
    #[cycle(value)]
    fn value(&mut self, s: &'t str, number: usize, depth: usize) -> Result<&'t str, ParseError> {
        let place = self.cursor.place(s);
        let byte = first(s);
        if byte != b'[' && byte != b'{' {
            let (shape, rest) = atom(self.alloc, s)?;
            self.spots.put(number, place, shape);
            return Ok(rest);
        }
        if depth == 0 {
            return Err(ParseError::at(ErrorKind::Recursion, s));
        }
        if byte == b'[' {
            self.spots.put(number, place, Shape::Array);
            self.array(skip(s, 1), number, depth - 1)
        } else {
            self.spots.put(number, place, Shape::Table);
            self.inline_table(skip(s, 1), number, depth - 1)
        }
    }

    #[cycle(value)]
    fn array(&mut self, s: &'t str, array: usize, depth: usize) -> Result<&'t str, ParseError> {
        let mut rest = s;
        for _ in 0..=s.len() {
            let start = skip_blank(rest, true);
            if first(start) == b']' {
                return Ok(skip(start, 1));
            }
            let place = self.cursor.place(start);
            let item = self.spots.add_item(array, place)?;
            let after = self.value(start, item, depth)?;
            rest = after_element(after, b']')?;
        }
        Err(ParseError::at(ErrorKind::Array, rest))
    }

    #[cycle(value)]
    fn inline_table(
        &mut self,
        s: &'t str,
        table: usize,
        depth: usize,
    ) -> Result<&'t str, ParseError> {
        let mut rest = s;
        for _ in 0..=s.len() {
            let start = skip_blank(rest, true);
            if first(start) == b'}' {
                return Ok(skip(start, 1));
            }
            let after = self.pair(start, table, depth)?;
            rest = after_element(after, b'}')?;
        }
        Err(ParseError::at(ErrorKind::InlineTable, rest))
    }
}
