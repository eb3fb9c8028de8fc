//! The field `Accept-Language` of a request (RFC 9110, section 12.5.4).
ghost use Rattle.std.specs.Prelude.{◌≡◌, ◌++◌, IfOk, OnOk, map, option_copied};
ghost use Rattle.garde_catalog.specs.Field.{want_of, wants_in, want_in, want_from, is_space, skip_space, trim, split_once, digit, thousandths, behind_point, weight_of, named_weight, parameter_weight, is_of_subtag, is_range};
ghost use Rattle.garde_catalog.specs.Lookup.{IsAskedBy, IsBestWith, IsThere};
ghost use Rattle.std.specs.Prelude.{reverse};

use crate::language::Language;
use crate::lookup::{Best, Range};
use std::alloc::{AllocError, Global};

/// The weight of a range that names none, in thousandths.
const FULL: u16 = 1000;

/// A subtag has no more bytes (RFC 4647, section 2.1).
const MOST_OF_SUBTAG: usize = 8;

// A space or a tab.
fn is_space(byte: u8) -> bool
    ensures { result ≡ is_space byte }
{
    byte == b' ' || byte == b'\t'
}

fn trim_start(mut bytes: &[u8]) -> &[u8]
    ensures { result.now ≡ skip_space bytes.now }
{
    while let [first, rest @ ..] = bytes
        && is_space(*first)
    {
        bytes = rest;
    }
    bytes
}

fn trim_end(mut bytes: &[u8]) -> &[u8]
    ensures { result.now ≡ reverse (skip_space (reverse bytes.now)) }
{
    while let [rest @ .., last] = bytes
        && is_space(*last)
    {
        bytes = rest;
    }
    bytes
}

// The bytes without the spaces and tabs at both ends.
fn trim(bytes: &[u8]) -> &[u8]
    ensures { result.now ≡ trim bytes.now }
{
    trim_end(trim_start(bytes))
}

// The bytes before the first separator, and those after it if there is one.
fn split_once(bytes: &[u8], separator: u8) -> (&[u8], Option<&[u8]>)
    ensures before { result.0.now ≡ (split_once separator bytes.now).0 }
    ensures after { option_copied result.1 ≡ (split_once separator bytes.now).1 }
{
    match bytes.iter().position(|&byte| byte == separator) {
        Some(i) => (&bytes[..i], Some(&bytes[i + 1..])),
        None => (bytes, None),
    }
}

// The value of a digit.
fn digit(byte: u8) -> Option<u16>
    ensures { result ≡ digit byte }
{
    if b'0' <= byte && byte <= b'9' {
        Some(u16::from(byte - b'0'))
    } else {
        None
    }
}

// The number of thousandths that has these digits, which are 1000 at most.
fn thousandths(whole: u8, a: u8, b: u8, c: u8) -> Option<u16>
    ensures { result ≡ thousandths whole a b c }
{
    let (whole, a, b, c) = (digit(whole)?, digit(a)?, digit(b)?, digit(c)?);
    let weight = whole * 1000 + (a * 100 + (b * 10 + c));
    if weight <= FULL { Some(weight) } else { None }
}

// A weight, of its digit before the point and of those behind it.
fn behind_point(whole: u8, digits: &[u8]) -> Option<u16>
    ensures { result ≡ behind_point whole digits.now }
{
    match digits {
        [] => thousandths(whole, b'0', b'0', b'0'),
        [a] => thousandths(whole, *a, b'0', b'0'),
        [a, b] => thousandths(whole, *a, *b, b'0'),
        [a, b, c] => thousandths(whole, *a, *b, *c),
        [_, _, _, _, ..] => None,
    }
}

// A weight in thousandths: `0` or `1`, and perhaps a point and up to three digits.
fn weight_of(text: &[u8]) -> Option<u16>
    ensures { result ≡ weight_of text.now }
{
    match text {
        [] => None,
        [whole] => thousandths(*whole, b'0', b'0', b'0'),
        [whole, point, digits @ ..] => {
            if *point == b'.' {
                behind_point(*whole, digits)
            } else {
                None
            }
        }
    }
}

// The weight of a parameter `q=`, and of no other one.
fn named_weight(parameter: &[u8]) -> Option<u16>
    ensures { result ≡ named_weight parameter.now }
{
    match parameter {
        [] | [_] => None,
        [name, equals, value @ ..] => {
            if (*name == b'q' || *name == b'Q') && *equals == b'=' {
                weight_of(value)
            } else {
                None
            }
        }
    }
}

// The weight of a range that has this parameter, or none.
fn parameter_weight(parameter: Option<&[u8]>) -> Option<u16>
    ensures { result ≡ parameter_weight (option_copied parameter.entry) }
{
    match parameter {
        None => Some(FULL),
        Some(parameter) => named_weight(trim(parameter)),
    }
}

// Whether a byte may stand in a subtag: of the first one, it is a letter.
fn is_of_subtag(is_first: bool, byte: u8) -> bool
    ensures { result ≡ is_of_subtag is_first byte }
{
    matches!(byte, b'A'..=b'Z' | b'a'..=b'z') || (matches!(byte, b'0'..=b'9') && !is_first)
}

// Whether a tag is a range that names a language: subtags of one to eight letters or digits, with
// `-` between them.
pub(crate) fn is_range(tag: &[u8]) -> bool
    ensures { result ≡ is_range tag.now }
{
    let (mut rest, mut is_first, mut len) = (tag, true, 0);
    while let [byte, more @ ..] = rest {
        if *byte == b'-' {
            if len == 0 {
                return false;
            }
            is_first = false;
            len = 0;
        } else {
            if len >= MOST_OF_SUBTAG || !is_of_subtag(is_first, *byte) {
                return false;
            }
            len += 1;
        }
        rest = more;
    }
    len > 0
}

// The range of an element of the field, if the element is of the grammar.
#[tactic(auto, unfolding(crate::specs::Field::want_in))]
fn range_of(element: &[u8]) -> Option<Range<'_>>
    ensures { want_from result ≡ want_in element.now }
{
    let (tag, parameter) = split_once(element, b';');
    let weight = parameter_weight(parameter)?;
    let tag = trim(tag);
    if is_range(tag) {
        Some(Range { tag, weight })
    } else {
        None
    }
}

// Appends the range of an element of the field, if the element is of the grammar.
fn add<'a>(element: &'a [u8], ranges: &mut Vec<Range<'a>>) -> Result<(), AllocError>
    ensures { OnOk result (map want_of ranges.new.items
        ≡ map want_of ranges.old.items ++ want_in element.entry.now) }
{
    if let Some(range) = range_of(element) {
        ranges.push(range)?;
    }
    Ok(())
}

/// The ranges of the field `Accept-Language` (RFC 9110, section 12.5.4) that name a language, with
/// their weights. An element that is not of the grammar is passed over, and so is `*`, which names
/// none.
pub fn ranges_of(alloc: Global, field: &[u8]) -> Result<Vec<Range<'_>>, AllocError>
    ensures { IfOk result (λ ranges. map want_of ranges.items ≡ wants_in field.now) }
{
    let mut ranges = Vec::new(alloc);
    let mut rest = Some(field);
    while let Some(text) = rest {
        let (element, after) = split_once(text, b',');
        add(element, &mut ranges)?;
        rest = after;
    }
    Ok(ranges)
}

// The best of some ranges and that of an element of the field, if the element is of the grammar.
fn with_element(best: Best, element: &[u8], offered: &[Language]) -> Best
    ensures { IsBestWith offered.now (want_in element.now) best result }
{
    match range_of(element) {
        Some(range) => best.with_range(&range, offered),
        None => best,
    }
}

impl Language {
    // The place of the language that the field asks for.
    pub(crate) fn place_asked(field: &[u8], offered: &[Language]) -> Option<usize>
        ensures { IsAskedBy field.now offered.now result }
    {
        let mut best = Best {
            place: None,
            weight: 0,
        };
        let mut rest = Some(field);
        while let Some(text) = rest {
            let (element, after) = split_once(text, b',');
            best = with_element(best, element, offered);
            rest = after;
        }
        best.place
    }

    /// The language that the field `Accept-Language` of a request asks for: of the range of the
    /// greatest weight that fits an offered tag, by the look-up of RFC 4647, section 3.4. `None`
    /// means that it asks for none that is offered. It allocates nothing, however long the field is.
    pub fn asked(field: &[u8], offered: &[Language]) -> Option<Language>
        ensures { IsThere offered.now (IsAskedBy field.now offered.now) result }
    {
        match Language::place_asked(field, offered) {
            Some(place) => match offered.get(place) {
                Some(language) => Some(*language),
                None => None,
            },
            None => None,
        }
    }
}
