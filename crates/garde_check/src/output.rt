//! What is written for an input.
ghost use Rattle.std.specs.Prelude.{◌≡◌, ℕ, List, [], IfOk, IfErr, Err, None, Some, string_bytes};
ghost use Rattle.std.specs.Str.{IsUtf8};
ghost use Rattle.garde_check.specs.Body.{content};
ghost use Rattle.garde_check.specs.Request.{Spells, SpellsNothing};
ghost use Rattle.garde_check.specs.Tasks.{Finds, FindsFirst, Reports, BodyReports, Never, OutputFails};
ghost use Rattle.garde_check.specs.Users.{IsCut};

use crate::body::Body;
use crate::form::write_report;
use crate::lines::Lines;
use crate::mode::Command;
use crate::outcome::{Outcome, RunError};
use crate::user::User;
use garde::{DefaultI18n, FirstError, Report, Trail, Validate, ValidateError};
use garde_json::JsonRefused;
use serde_json::Value;
use std::alloc::{AllocError, Global};

/// What is written for an input, and the outcome that goes with it.
#[derive(Drop)]
pub struct Output {
    /// What the validation found.
    pub outcome: Outcome,
    /// The whole text that is written.
    pub text: String,
    /// The users that were validated, and none of a body. They are freed after the text: freeing a
    /// large piece of memory, the allocator joins the small ones that were freed before.
    pub users: Vec<Option<User>>,
}

// What a validation found: the faults that are written, their number where there are more, and the
// number of nodes where they are all.
#[derive(Drop)]
struct Found {
    outcome: Outcome,
    report: Report,
    more: Option<usize>,
    nodes: Option<usize>,
}

// Finds all faults of a value.
fn find_all<T: Validate>(alloc: Global, value: &T, ctx: &T::Context) -> Result<Found, AllocError>
    ensures { IfOk result (λ found. FindsFirst (T.visits value.now ctx.now) None
        found.outcome found.report found.more found.nodes) }
{
    let mut trail = Trail::new(alloc);
    let answer = value.validate_on(ctx, &mut trail, &DefaultI18n);
    let (outcome, report) = match answer {
        Ok(()) => (Outcome::Valid, Report::new(alloc)),
        Err(ValidateError::Report(report)) => (Outcome::Faults, report),
        Err(ValidateError::Memory) => return Err(AllocError),
    };
    let nodes = trail.nodes();
    Ok(Found {
        outcome,
        report,
        more: None,
        nodes: Some(nodes),
    })
}

// Finds at most so many faults of a value.
fn find_first<T: Validate>(
    alloc: Global,
    value: &T,
    ctx: &T::Context,
    most: usize,
) -> Result<Found, AllocError>
    ensures { IfOk result (λ found. FindsFirst (T.visits value.now ctx.now) (Some most)
        found.outcome found.report found.more found.nodes) }
{
    match value.validate_first(alloc, ctx, most, &DefaultI18n) {
        Ok(()) => Ok(Found {
            outcome: Outcome::Valid,
            report: Report::new(alloc),
            more: None,
            nodes: None,
        }),
        Err(FirstError::All(report)) => Ok(Found {
            outcome: Outcome::Faults,
            report,
            more: None,
            nodes: None,
        }),
        Err(FirstError::First(report)) => Ok(Found {
            outcome: Outcome::Faults,
            report,
            more: Some(most),
            nodes: None,
        }),
        Err(FirstError::Memory) => Err(AllocError),
    }
}

// Finds the faults of a value, all of them or at most so many.
fn find<T: Validate>(
    alloc: Global,
    value: &T,
    ctx: &T::Context,
    most: Option<usize>,
) -> Result<Found, AllocError>
    ensures { IfOk result (λ found. FindsFirst (T.visits value.now ctx.now) most
        found.outcome found.report found.more found.nodes) }
{
    match most {
        None => find_all(alloc, value, ctx),
        Some(most) => find_first(alloc, value, ctx, most),
    }
}

// Validates a value, and makes the output of a command, of all faults or of at most so many.
#[tactic(auto, using(crate::proofs::FirstFaults::written))]
fn validate<T: Validate>(
    alloc: Global,
    value: &T,
    ctx: &T::Context,
    command: Command,
    most: Option<usize>,
) -> Result<Output, AllocError>
    ensures { IfOk result (λ output. Finds (T.visits value.now ctx.now) command most
        output.outcome (string_bytes output.text)) }
{
    let found = find(alloc, value, ctx, most)?;
    let text = write_report(alloc, &found.report, found.more, found.nodes, command)?;
    let users = Vec::new(alloc);
    Ok(Output {
        outcome: found.outcome,
        text,
        users,
    })
}

/// Makes the whole output for the lines of a text.
pub fn lines_output(
    alloc: Global,
    lines: Lines,
    command: Command,
    most: Option<usize>,
) -> Result<Output, RunError>
    ensures ok { IfOk result (λ output. (text : List ℕ)
        → IsCut text [] lines.users.items lines.rest.items
        → IsUtf8 text × Reports command most text output.outcome (string_bytes output.text)) }
    ensures err { IfErr result (λ e. (text : List ℕ)
        → IsCut text [] lines.users.items lines.rest.items → OutputFails Never text e) }
{
    let users = lines.finish(alloc)?;
    let mut output = validate(alloc, &users, &(), command, most)?;
    output.users = users;
    Ok(output)
}

// The body that a text spells. `Form` is returned only where it spells none.
fn body_of(alloc: Global, input: &str) -> Result<Body, JsonRefused>
    ensures ok { IfOk result (λ body. Spells input.now (content body)) }
    ensures form { result ≡ Err JsonRefused.Form → SpellsNothing input.now }
{
    match Value::from_str(alloc, input) {
        Ok(tree) => Body::from_json(alloc, &tree),
        Err(error) if error.is_memory() => Err(JsonRefused::Memory),
        Err(_) => Err(JsonRefused::Form),
    }
}

/// Makes the whole output for the bytes of a body.
pub fn body_output(alloc: Global, bytes: Vec<u8>, most: Option<usize>) -> Result<Output, RunError>
    ensures ok { IfOk result (λ output. IsUtf8 bytes.items
        × BodyReports most bytes.items output.outcome (string_bytes output.text)) }
    ensures err { IfErr result (OutputFails SpellsNothing bytes.items) }
{
    let Ok(input) = str::from_utf8(bytes.as_slice()) else {
        return Err(RunError::NotUtf8);
    };
    match body_of(alloc, input) {
        Ok(body) => Ok(validate(alloc, &body, &(), Command::Body, most)?),
        Err(JsonRefused::Form) => Err(RunError::BadBody),
        Err(JsonRefused::Memory) => Err(RunError::Memory),
    }
}
