//! What answers print, and what values print.
use garde::{DefaultI18n, I18n, RuleError, Trail, Validate, ValidateError};
use std::alloc::{AllocError, Global};
use std::fmt::{Debug, Display};

/// Whether the text of a value is this.
pub fn reads<T: Display>(alloc: Global, value: &T, text: &str) -> Result<bool, AllocError> {
    Ok(value.to_string(alloc)?.as_str() == text)
}

/// Whether a value prints this text for a programmer.
pub fn shows<T: Debug>(alloc: Global, value: &T, text: &str) -> Result<bool, AllocError> {
    Ok(format!(in alloc; "{value:?}")?.as_str() == text)
}

/// Whether an answer prints just this. That of a valid value prints nothing.
pub fn tells_all(alloc: Global, answer: Result<(), ValidateError>, text: &str) -> bool {
    match answer {
        Ok(()) => text.is_empty(),
        Err(refusal) => reads(alloc, &refusal, text) == Ok(true),
    }
}

/// Whether a walk on a new trail reports just this, and makes so many nodes.
pub fn is_told<T: Validate, H: I18n>(
    alloc: Global,
    value: &T,
    ctx: &T::Context,
    h: &H,
    (text, nodes): (&str, usize),
) -> bool {
    let mut trail = Trail::new(alloc);
    let answer = value.validate_on(ctx, &mut trail, h);
    trail.nodes() == nodes && tells_all(alloc, answer, text)
}

/// Whether a walk on a new trail, without a context and with the default texts, reports just this, and makes
/// so many nodes.
pub fn is_told_by_default<T: Validate<Context = ()>>(
    alloc: Global,
    value: &T,
    told: (&str, usize),
) -> bool {
    is_told(alloc, value, &(), &DefaultI18n, told)
}

/// Whether the answer of a rule prints this: nothing where it is Ok, and else the text of its
/// fault.
pub fn tells(answer: Result<(), RuleError>, wanted: Option<&str>) -> bool {
    match answer {
        Ok(()) => wanted.is_none(),
        Err(RuleError::Fault(error)) => wanted == Some(error.message()),
        Err(RuleError::Memory) => wanted == Some("out of memory"),
    }
}
