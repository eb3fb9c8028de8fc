//! Trees that are written token by token.
ghost use Rattle.std.specs.Prelude.{◌≡◌, IfOk, OnOk, string_bytes};
ghost use Rattle.serde_json.specs.Written.{compact_text};
ghost use Rattle.garde_json.specs.Json.{part_json, path_json, error_json, entry_json, report_json};
ghost use Rattle.garde_json.specs.First.{entries_json, first_json, told_json};
ghost use Rattle.garde_json.specs.Tokens.{IsWritten};
ghost use Rattle.garde_report.specs.Part.{part};

use crate::kind::kind_name;
use garde_report::{Error, Kind, Path, Report};
use json::Writer;
use std::alloc::{AllocError, Global};

fn write_component(kind: Kind, text: &str, out: &mut Writer) -> Result<(), AllocError>
    ensures { OnOk result (IsWritten (part_json (part kind text.now)) out.old out.new) }
{
    out.begin_array()?;
    out.string(kind_name(kind))?;
    out.string(text)?;
    out.end_array()?;
    Ok(())
}

fn write_path(alloc: Global, path: &Path, out: &mut Writer) -> Result<(), AllocError>
    ensures { OnOk result (IsWritten (path_json path.now) out.old out.new) }
{
    out.begin_array()?;
    let mut components = path.iter(alloc)?;
    while let Some((kind, text)) = components.next_back() {
        write_component(kind, text, out)?;
    }
    out.end_array()?;
    Ok(())
}

fn write_error(error: &Error, out: &mut Writer) -> Result<(), AllocError>
    ensures { OnOk result (IsWritten (error_json error.now) out.old out.new) }
{
    out.begin_object()?;
    out.key("message")?;
    out.string(error.message())?;
    out.end_object()?;
    Ok(())
}

fn write_entry(
    alloc: Global,
    path: &Path,
    error: &Error,
    out: &mut Writer,
) -> Result<(), AllocError>
    ensures { OnOk result (IsWritten (entry_json (path.now, error.now)) out.old out.new) }
{
    out.begin_array()?;
    write_path(alloc, path, out)?;
    write_error(error, out)?;
    out.end_array()?;
    Ok(())
}

fn write_entries(alloc: Global, report: &Report, out: &mut Writer) -> Result<(), AllocError>
    ensures { OnOk result (IsWritten (entries_json report.now) out.old out.new) }
{
    out.begin_array()?;
    for (path, error) in report.iter() {
        write_entry(alloc, path, error, out)?;
    }
    out.end_array()?;
    Ok(())
}

fn write_report(
    alloc: Global,
    report: &Report,
    has_more: bool,
    out: &mut Writer,
) -> Result<(), AllocError>
    ensures { OnOk result (IsWritten (told_json has_more report.now) out.old out.new) }
{
    out.begin_object()?;
    out.key("errors")?;
    write_entries(alloc, report, out)?;
    if has_more {
        out.key("more")?;
        out.boolean(true)?;
    }
    out.end_object()?;
    Ok(())
}

// The text of a report, and with `has_more` of the first faults of more.
fn to_text(alloc: Global, report: &Report, has_more: bool) -> Result<String, AllocError>
    ensures { IfOk result (λ text. string_bytes text ≡ compact_text (told_json has_more report.now)) }
{
    let mut out = Writer::new(Vec::new(alloc));
    write_report(alloc, report, has_more, &mut out)?;
    Ok(unsafe { String::from_utf8_unchecked(out.into_inner()) })
}

/// The compact text of the written form of a report: that of the tree which `report_to_json` gives,
/// byte for byte. No tree is made.
pub fn report_to_json_text(alloc: Global, report: &Report) -> Result<String, AllocError>
    ensures { IfOk result (λ text. string_bytes text ≡ compact_text (report_json report.now)) }
{
    to_text(alloc, report, false)
}

/// The compact text of the first faults of more, as `FirstError::First` has them: the member
/// `errors` as in the written form of a report, and behind it the member `more`, which is true. So
/// it is no written form of a report, and `report_from_json` rejects it.
pub fn first_to_json_text(alloc: Global, report: &Report) -> Result<String, AllocError>
    ensures { IfOk result (λ text. string_bytes text ≡ compact_text (first_json report.now)) }
{
    to_text(alloc, report, true)
}
