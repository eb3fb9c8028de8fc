//! Templates: texts with places for what was found.
ghost use Rattle.std.specs.Prelude.{◌≡◌, ◌++◌, ◌&&◌, ◌||◌, [], true, bytes_eq, IfOk, IsErr, OnOk, MatchOption, string_bytes};
ghost use Rattle.std.specs.Cow.{cow_str_bytes};
ghost use Rattle.garde_i18n.specs.DatumOf.{named_of, value_text};
ghost use Rattle.garde_catalog.specs.Template.{fault_code, fault_datum, fault_words, filled, is_param, pieces_of, template_fault, value_at, HasPlaces, IsAllSeen, IsCut, IsPlain, IsRefused, IsTemplate};

use garde_i18n::{Code, Named, Value};
use std::alloc::{AllocError, Global};
use std::borrow::CowStr;

/// Why a text is no template.
#[derive(Clone, Copy, Debug, Drop, PartialEq, Eq)]
pub enum TemplateFault {
    /// A place has a name that no parameter of the text has.
    UnknownPlace,
    /// A parameter has no place.
    MissingPlace,
    /// A brace opens and does not close, or closes and does not open.
    StrayBrace,
}

impl TemplateFault {
    // The code of the fault.
    fn code(self) -> &'static str
        ensures { result.now ≡ fault_code self }
    {
        match self {
            TemplateFault::UnknownPlace => "template_place_unknown",
            TemplateFault::MissingPlace => "template_place_missing",
            TemplateFault::StrayBrace => "template_brace_stray",
        }
    }

    // The fault in English.
    fn words(self) -> &'static str
        ensures { result.now ≡ fault_words self }
    {
        match self {
            TemplateFault::UnknownPlace => "has a name in braces that is no parameter of this text",
            TemplateFault::MissingPlace => "lacks a parameter in braces",
            TemplateFault::StrayBrace => "has a brace that does not close or does not open",
        }
    }

    // What a handler is asked for the text of: the code of the fault, and its words in English.
    pub(crate) fn as_named(self) -> Named<'static>
        ensures { named_of result ≡ fault_datum self }
    {
        let code = Code {
            name: self.code(),
            param: None,
        };
        Named {
            code,
            english: self.words(),
        }
    }
}

// The first place of a text: the words before it, its name, and the text behind it.
fn first_place(text: &str) -> Result<Option<(&str, &str, &str)>, TemplateFault>
    ensures ok { IfOk result (λ found. MatchOption found (IsPlain text.now) (λ it. IsCut text.now
        it.0.now it.1.now it.2.now)) }
    ensures err { IsErr result → ¬ (HasPlaces text.now) }
{
    let Some((words, tail)) = text.split_once('{') else {
        return if text.contains('}') {
            Err(TemplateFault::StrayBrace)
        } else {
            Ok(None)
        };
    };
    if words.contains('}') {
        return Err(TemplateFault::StrayBrace);
    }
    let Some((name, after)) = tail.split_once('}') else {
        return Err(TemplateFault::StrayBrace);
    };
    if name.contains('{') {
        return Err(TemplateFault::StrayBrace);
    }
    Ok(Some((words, name, after)))
}

/// What was seen of the places of a text.
#[derive(Clone, Copy, Debug)]
pub struct Seen {
    all_known: bool,
    has_first: bool,
    has_second: bool,
}

impl Seen {
    // This with one more place, of this name.
    fn with(self, name: &str, first: &str, second: &str) -> Seen
        ensures known { result.all_known
            ≡ (self.all_known && is_param first.now second.now name.now) }
        ensures first { result.has_first ≡ (self.has_first || bytes_eq name.now first.now) }
        ensures second { result.has_second ≡ (self.has_second || bytes_eq name.now second.now) }
    {
        let (is_first, is_second) = (name == first, name == second);
        Seen {
            all_known: self.all_known && name != "" && (is_first || is_second),
            has_first: self.has_first || is_first,
            has_second: self.has_second || is_second,
        }
    }

    // Nothing, where each parameter that has no name has no need of a place.
    fn nothing(first: &str, second: &str) -> Seen
        ensures known { result.all_known ≡ true }
        ensures first { result.has_first ≡ bytes_eq first.now [] }
        ensures second { result.has_second ≡ bytes_eq second.now [] }
    {
        Seen {
            all_known: true,
            has_first: first == "",
            has_second: second == "",
        }
    }
}

// What is seen of the places of a text.
fn see(text: &str, first: &str, second: &str) -> Result<Seen, TemplateFault>
    ensures ok { IfOk result (λ seen. HasPlaces text.now
        × IsAllSeen first.now second.now text.now seen) }
    ensures err { IsErr result → ¬ (HasPlaces text.now) }
{
    let mut seen = Seen::nothing(first, second);
    let mut rest = text;
    'places: loop {
        let Some((_, name, after)) = first_place(rest)? else {
            break;
        };
        seen = seen.with(name, first, second);
        rest = after;
    }
    Ok(seen)
}

// Why a text is no template, if it is none. The names are those of the parameters that the text has:
// an empty one is none. A text that has other braces, an unknown place or a parameter without one is a
// fault.
pub(crate) fn template_fault(text: &str, first: &str, second: &str) -> Option<TemplateFault>
    ensures { result ≡ template_fault first.now second.now text.now }
{
    let Ok(seen) = see(text, first, second) else {
        return Some(TemplateFault::StrayBrace);
    };
    if !seen.all_known {
        return Some(TemplateFault::UnknownPlace);
    }
    if !seen.has_first || !seen.has_second {
        return Some(TemplateFault::MissingPlace);
    }
    None
}

// Whether a text is a template.
pub(crate) fn check_template(text: &str, first: &str, second: &str) -> Result<(), TemplateFault>
    ensures ok { OnOk result (IsTemplate text.now first.now second.now (pieces_of text.now)) }
    ensures err { IsErr result → IsRefused text.now first.now second.now }
{
    match template_fault(text, first, second) {
        None => Ok(()),
        Some(fault) => Err(fault),
    }
}

// Appends a value.
fn push_value(whole: &mut String, value: Value<'_>) -> Result<(), AllocError>
    ensures { OnOk result (string_bytes whole.new ≡ string_bytes whole.old ++ value_text value.entry) }
{
    match value {
        Value::Text(text) => whole.push_str(text)?,
        Value::Number(number) => write!(whole, "{number}")?,
    }
    Ok(())
}

/// What is put in the places of a template.
#[derive(Clone, Copy, Debug)]
pub enum Put<'v, 'o> {
    /// This, in each place.
    One(Value<'v>),
    /// The first value in the places of this name, and the other one elsewhere.
    Two(&'static str, Value<'v>, Value<'o>),
}

// Appends what stands in the place of this name.
fn push_place(whole: &mut String, name: &str, put: Put<'_, '_>) -> Result<(), AllocError>
    ensures { OnOk result (string_bytes whole.new
        ≡ string_bytes whole.old ++ value_at put.entry name.now) }
{
    match put {
        Put::Two(first, _, other) if name != first => push_value(whole, other),
        Put::Two(_, value, _) | Put::One(value) => push_value(whole, value),
    }
}

// How many digits a number has at the most.
const DIGITS: usize = 20;

// How many bytes a value takes at the most.
fn room_of(value: Value<'_>) -> usize {
    match value {
        Value::Text(text) => text.len(),
        Value::Number(_) => DIGITS,
    }
}

// How many bytes the values take at the most, each in one place.
fn room_of_all(put: Put<'_, '_>) -> usize {
    match put {
        Put::One(value) => room_of(value),
        Put::Two(_, value, other) => room_of(value).saturating_add(room_of(other)),
    }
}

// A template with these values in its places.
pub(crate) fn fill(
    alloc: Global,
    text: &str,
    put: Put<'_, '_>,
) -> Result<CowStr<'static>, AllocError>
    ensures { IfOk result (λ s. cow_str_bytes s ≡ filled (value_at put.entry) (pieces_of text.now)) }
{
    let room = text.len().saturating_add(room_of_all(put));
    let mut whole = String::with_capacity(alloc, room)?;
    let mut rest = text;
    'places: while !rest.is_empty() {
        let Some((words, tail)) = rest.split_once('{') else {
            whole.push_str(rest)?;
            break;
        };
        whole.push_str(words)?;
        let Some((name, after)) = tail.split_once('}') else {
            break;
        };
        push_place(&mut whole, name, put)?;
        rest = after;
    }
    Ok(CowStr::Owned(whole))
}

// A template with this value in each place.
pub(crate) fn fill_one(
    alloc: Global,
    text: &str,
    value: Value<'_>,
) -> Result<CowStr<'static>, AllocError>
    ensures { IfOk result (λ s. cow_str_bytes s ≡ filled (λ _. value_text value.entry) (pieces_of text.now)) }
{
    fill(alloc, text, Put::One(value))
}
