//! What is reported for each type: all of its report, and nothing of a valid value.
mod collections;
mod generics;
mod numbers;
mod parts;
mod rules;
mod strings;

use crate::tests::examples::prints_as;
use garde::Validate;
use std::alloc::Global;
use std::process::Abort;

/// Whether the report's text is this one. That of a valid value is empty.
fn tells<V: Validate>(
    rt: &impl Abort,
    alloc: Global,
    value: &V,
    ctx: &V::Context,
    text: &str,
) -> bool {
    prints_as(rt, alloc, value.validate_with(alloc, ctx), text)
}
