//! How a report is written.
ghost use Rattle.std.specs.Prelude.{◌≡◌, IfOk, string_bytes};
ghost use Rattle.garde_check.specs.Form.{report_lines, json_line, told_text};

use crate::mode::Command;
use garde::Report;
use garde_json::{first_to_json_text, report_to_json_text};
use std::alloc::{AllocError, Global};

// The faults as text, a line that there are more than so many, and the number of nodes.
fn write_text(
    alloc: Global,
    report: &Report,
    more: Option<usize>,
    nodes: Option<usize>,
) -> Result<String, AllocError>
    ensures { IfOk result (λ text. string_bytes text ≡ report_lines report.now more nodes) }
{
    let mut text = report.to_string(alloc)?;
    if let Some(most) = more {
        writeln!(text, "{most} faults are told; there are more")?;
    }
    if let Some(nodes) = nodes {
        writeln!(text, "nodes: {nodes}")?;
    }
    Ok(text)
}

// The report as compact JSON, or the first faults of more, and a line feed.
fn write_json(alloc: Global, report: &Report, has_more: bool) -> Result<String, AllocError>
    ensures { IfOk result (λ text. string_bytes text ≡ json_line has_more report.now) }
{
    let mut text = if has_more {
        first_to_json_text(alloc, report)?
    } else {
        report_to_json_text(alloc, report)?
    };
    text.push('\n')?;
    Ok(text)
}

/// What a command writes of these faults: `more` is their number where there are more, and `nodes`
/// the number of path nodes where they are all.
pub fn write_report(
    alloc: Global,
    report: &Report,
    more: Option<usize>,
    nodes: Option<usize>,
    command: Command,
) -> Result<String, AllocError>
    ensures { IfOk result (λ text. string_bytes text ≡ told_text command report.now more nodes) }
{
    match command {
        Command::Text => write_text(alloc, report, more, None),
        Command::Nodes => write_text(alloc, report, more, nodes),
        Command::Json | Command::Body => write_json(alloc, report, more.is_some()),
    }
}
