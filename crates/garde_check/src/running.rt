//! A run, from a reader to a writer.
ghost use Rattle.std.specs.Prelude.{◌≡◌, ℕ, List, [], false, true, IfOk, IfErr, OnOk, OnErr, IfSome, take};
ghost use Rattle.std.specs.Prelude.{string_bytes, None, if◌then◌else◌};
ghost use Rattle.garde_check.specs.declared.mode.Command.TheVariants as Command;
ghost use Rattle.std.specs.Io.KnownBytes.{Appends, IsAtEnd};
ghost use Rattle.std.specs.Str.{IsUtf8};
ghost use Rattle.garde_check.specs.Ran.{Leaves, device, TakeFails, MakeFails};
ghost use Rattle.garde_check.specs.Request.{SpellsNothing};
ghost use Rattle.garde_check.specs.Tasks.{Reports, BodyReports, Gives, Refuses, Never};
ghost use Rattle.garde_check.specs.Users.{IsCut};

use crate::lines::Lines;
use crate::mode::Command;
use crate::outcome::{Outcome, RunError};
use crate::output::{Output, body_output, lines_output};
use crate::transfer::{Failed, Sink, Source};
use std::alloc::Global;

/// How many bytes are asked for at a time.
const PART: usize = 8192;

// Takes all that is left in a reader.
fn take_all<S: Source>(alloc: Global, reader: &mut S) -> Result<Vec<u8>, RunError>
    requires { S.has_failed reader.old ≡ false }
    ensures ok { IfOk result (λ bytes. IfSome (S.remaining reader.old) (λ all. bytes.items ≡ all)) }
    ensures end { OnOk result (IsAtEnd (S.remaining reader.new)) }
    ensures sound { OnOk result (S.has_failed reader.new ≡ false) }
    ensures err { IfErr result (λ e. TakeFails (S.has_failed reader.new) e) }
{
    let mut bytes = Vec::new(alloc);
    let mut part = [0; PART];
    loop {
        match reader.take(&mut part) {
            Ok(0) => return Ok(bytes),
            Ok(n) => bytes.extend_from_slice(&part[..n])?,
            Err(Failed) => return Err(RunError::Read),
        }
    }
}

// Takes all that is left in a reader, and cuts off lines on the way.
fn take_lines<S: Source>(alloc: Global, reader: &mut S) -> Result<Lines, RunError>
    requires { S.has_failed reader.old ≡ false }
    ensures ok { IfOk result (λ lines. (text : List ℕ)
        × IfSome (S.remaining reader.old) (λ all. text ≡ all)
        × IsCut text [] lines.users.items lines.rest.items) }
    ensures end { OnOk result (IsAtEnd (S.remaining reader.new)) }
    ensures sound { OnOk result (S.has_failed reader.new ≡ false) }
    ensures err { IfErr result (λ e. TakeFails (S.has_failed reader.new) e) }
{
    let mut lines = Lines::new(alloc);
    let mut part = [0; PART];
    loop {
        match reader.take(&mut part) {
            Ok(0) => return Ok(lines),
            Ok(n) => lines.add(alloc, &part[..n])?,
            Err(Failed) => return Err(RunError::Read),
        }
    }
}

// Takes all that is left in a reader, and makes the whole output for it.
fn take_output<S: Source>(
    alloc: Global,
    reader: &mut S,
    command: Command,
    most: Option<usize>,
) -> Result<Output, RunError>
    requires { S.has_failed reader.old ≡ false }
    ensures ok { IfOk result (λ output. (bytes : List ℕ)
        × IfSome (S.remaining reader.old) (λ all. bytes ≡ all)
        × IsUtf8 bytes × Gives command most bytes output.outcome (string_bytes output.text)) }
    ensures end { OnOk result (IsAtEnd (S.remaining reader.new)) }
    ensures sound { OnOk result (S.has_failed reader.new ≡ false) }
    ensures err { IfErr result (MakeFails (Refuses command)
        (S.remaining reader.old) (S.remaining reader.new) (S.has_failed reader.new)) }
{
    if command.reads_body() {
        body_output(alloc, take_all(alloc, reader)?, most)
    } else {
        lines_output(alloc, take_lines(alloc, reader)?, command, most)
    }
}

// Gives the bytes to a writer, each once.
fn give_all<W: Sink>(writer: &mut W, bytes: &[u8]) -> Result<(), Failed>
    requires { W.has_failed writer.old ≡ false }
    ensures ok { OnOk result (Appends (W.contents writer.old) (W.contents writer.new) bytes.now) }
    ensures sound { OnOk result (W.has_failed writer.new ≡ false) }
    ensures err { OnErr result ((k : ℕ)
        × Appends (W.contents writer.old) (W.contents writer.new) (take k bytes.now)) }
    ensures failed { OnErr result (W.has_failed writer.new ≡ true) }
{
    let mut rest = bytes;
    while !rest.is_empty() {
        let n = writer.give(rest)?;
        let (_, left) = rest.split_at(n);
        rest = left;
    }
    Ok(())
}

/// Reads the reader to its end as the command says, and writes its report, of all faults or of at
/// most so many: then no more faults are held at a time than one more. Of errors it leaves what
/// `run` and `run_body` leave.
pub fn run_task<S: Source, W: Sink>(
    alloc: Global,
    reader: &mut S,
    writer: &mut W,
    command: Command,
    most: Option<usize>,
) -> Result<Outcome, RunError>
    requires fresh_reader { S.has_failed reader.old ≡ false }
    requires fresh_writer { W.has_failed writer.old ≡ false }
    ensures { Leaves (Gives command most) (Refuses command)
        (device S.remaining S.has_failed reader.old reader.new)
        (device W.contents W.has_failed writer.old writer.new) result }
{
    let output = take_output(alloc, reader, command, most)?;
    let Ok(()) = give_all(writer, output.text.as_bytes()) else {
        return Err(RunError::Write);
    };
    Ok(output.outcome)
}

/// Reads the reader to its end, validates the users of its lines and writes the report. With
/// `show_nodes` a line `nodes: n` follows, with the number of path nodes that were made.
///
/// The whole output is made in memory before its first byte is written, and each byte is written
/// once. All lines that are read are kept, so a reader that never ends leads to `RunError::Memory`.
/// After `RunError::Write` a beginning of the output was written, and after each other error
/// nothing.
pub fn run<S: Source, W: Sink>(
    alloc: Global,
    reader: &mut S,
    writer: &mut W,
    show_nodes: bool,
) -> Result<Outcome, RunError>
    requires fresh_reader { S.has_failed reader.old ≡ false }
    requires fresh_writer { W.has_failed writer.old ≡ false }
    ensures { Leaves (Reports (if show_nodes then Command.Nodes else Command.Text) None) Never
        (device S.remaining S.has_failed reader.old reader.new)
        (device W.contents W.has_failed writer.old writer.new) result }
{
    if show_nodes {
        run_task(alloc, reader, writer, Command::Nodes, None)
    } else {
        run_task(alloc, reader, writer, Command::Text, None)
    }
}

/// As `run`, but it writes the compact JSON of the report, which is empty where there is no fault,
/// and a line feed.
pub fn run_json<S: Source, W: Sink>(
    alloc: Global,
    reader: &mut S,
    writer: &mut W,
) -> Result<Outcome, RunError>
    requires fresh_reader { S.has_failed reader.old ≡ false }
    requires fresh_writer { W.has_failed writer.old ≡ false }
    ensures { Leaves (Reports Command.Json None) Never
        (device S.remaining S.has_failed reader.old reader.new)
        (device W.contents W.has_failed writer.old writer.new) result }
{
    run_task(alloc, reader, writer, Command::Json, None)
}

/// As `run_json`, but it reads the whole input as the body of a request, which it validates.
///
/// `RunError::BadBody` is returned where `serde_json` reads no tree in the input, or where
/// `Body::from_json` rejects that tree for its form. Nothing is written then.
pub fn run_body<S: Source, W: Sink>(
    alloc: Global,
    reader: &mut S,
    writer: &mut W,
) -> Result<Outcome, RunError>
    requires fresh_reader { S.has_failed reader.old ≡ false }
    requires fresh_writer { W.has_failed writer.old ≡ false }
    ensures { Leaves (BodyReports None) SpellsNothing
        (device S.remaining S.has_failed reader.old reader.new)
        (device W.contents W.has_failed writer.old writer.new) result }
{
    run_task(alloc, reader, writer, Command::Body, None)
}
