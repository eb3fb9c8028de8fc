//! Paths, and the parameters that they have by a pattern, as `/orders/{id}`.
ghost use Rattle.std.specs.Prelude.{◌≡◌, IfOk, OnOk, ◌++◌, ◌∷◌, [], option_map};
ghost use Rattle.garde_form.specs.WebForm.{field_texts};
ghost use Rattle.garde_service.specs.Paths.{IsCut, fits, parameter_in, parameters, segment_fits, segments};

use garde_form::FormField;
use percent_encoding::percent_decode;
use std::alloc::{AllocError, Global};
use std::borrow::CowStr;

/// The first segment of a path, and what stands behind its slash, if there is one.
fn cut(path: &str) -> (&str, Option<&str>)
    ensures { IsCut path.now result.0.now (option_map (λ rest. rest.now) result.1) }
{
    match path.split_once('/') {
        Some((segment, rest)) => (segment, Some(rest)),
        None => (path, None),
    }
}

/// The name of the parameter that a segment of a pattern is.
fn parameter_in(segment: &str) -> Option<&str>
    ensures { option_map (λ name. name.now) result ≡ parameter_in segment.now }
{
    segment.strip_prefix('{')?.strip_suffix('}')
}

/// Whether a segment of a path fits one of a pattern: as a parameter, which is not empty, or since they
/// are the same.
fn segment_fits(wanted: &str, segment: &str) -> bool
    ensures { result ≡ segment_fits wanted.now segment.now }
{
    match parameter_in(wanted) {
        Some(_) => !segment.is_empty(),
        None => wanted == segment,
    }
}

/// Whether a path fits a pattern, segment by segment.
pub fn fits(pattern: &str, path: &str) -> bool
    ensures { result ≡ fits (segments pattern.now) (segments path.now) }
{
    let (wanted, others) = cut(pattern);
    let (segment, rest) = cut(path);
    match (others, rest) {
        (Some(others), Some(rest)) => segment_fits(wanted, segment) && fits(others, rest),
        (None, None) => segment_fits(wanted, segment),
        _ => false,
    }
}

/// Adds the parameter that a segment of a pattern is, with the text of the segment of the path.
fn add_parameter<'a>(
    alloc: Global,
    wanted: &'a str,
    segment: &'a str,
    found: &mut Vec<FormField<'a>>,
) -> Result<(), AllocError>
    ensures { OnOk result (field_texts found.new.items
        ≡ field_texts found.old.items ++ parameters (wanted.now ∷ []) (segment.now ∷ [])) }
{
    if let Some(name) = parameter_in(wanted) {
        let text = percent_decode(segment.as_bytes()).decode_utf8_lossy(alloc)?;
        found.push((CowStr::Borrowed(name), text))?;
    }
    Ok(())
}

/// Adds the parameters of a path that fits this pattern.
fn add_parameters<'a>(
    alloc: Global,
    pattern: &'a str,
    path: &'a str,
    found: &mut Vec<FormField<'a>>,
) -> Result<(), AllocError>
    ensures { OnOk result (field_texts found.new.items
        ≡ field_texts found.old.items ++ parameters (segments pattern.now) (segments path.now)) }
{
    let (wanted, others) = cut(pattern);
    let (segment, rest) = cut(path);
    add_parameter(alloc, wanted, segment, found)?;
    match (others, rest) {
        (Some(others), Some(rest)) => add_parameters(alloc, others, rest, found),
        _ => Ok(()),
    }
}

/// The parameters of a path that fits this pattern, by their names, in their order. Escapes are decoded,
/// and bytes that are no UTF-8 become U+FFFD.
pub fn parameters<'a>(
    alloc: Global,
    pattern: &'a str,
    path: &'a str,
) -> Result<Vec<FormField<'a>>, AllocError>
    ensures { IfOk result (λ found. field_texts found.items
        ≡ parameters (segments pattern.now) (segments path.now)) }
{
    let mut found = Vec::new(alloc);
    add_parameters(alloc, pattern, path, &mut found)?;
    Ok(found)
}
