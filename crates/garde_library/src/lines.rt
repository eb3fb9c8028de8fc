//! The lines that say what is wrong with bytes.
ghost use Rattle.std.specs.Prelude.{◌≡◌, [], ◌∷◌, ◌++◌, IfOk, OnOk, string_bytes};
ghost use Rattle.garde_report.specs.Report.{entry_text, report_text};
ghost use Rattle.garde_schema.specs.FirstRead.{first_read_error_text};
ghost use Rattle.garde_schema.specs.declared.first_read_error.FirstReadError.TheVariants.{First, Parse};

use garde::{Error, Path, Report};
use garde_schema::ParseError;
use std::alloc::{AllocError, Global};

// Room for most lines: for a path of a few names, and a sentence.
const LINE: usize = 96;

// Writes the line of one fault at the end of a text.
fn push_entry(text: &mut String, path: &Path, error: &Error) -> Result<(), AllocError>
    ensures { OnOk result (string_bytes text.new
        ≡ string_bytes text.old ++ (entry_text path.now error.now ++ 10 ∷ [])) }
{
    if !path.is_empty() {
        write!(text, "{path}: ")?;
    }
    text.push_str(error.message())?;
    text.push_str("\n")?;
    Ok(())
}

// Writes the lines of a report at the end of a text, as it prints itself.
fn push_report(text: &mut String, report: &Report) -> Result<(), AllocError>
    ensures { OnOk result (string_bytes text.new ≡ string_bytes text.old ++ report_text report.now) }
{
    for (path, error) in report.iter() {
        push_entry(text, path, error)?;
    }
    Ok(())
}

// The lines of all faults. The text seldom has to grow.
pub(crate) fn of_all(alloc: Global, report: &Report) -> Result<String, AllocError>
    ensures { IfOk result (λ text. string_bytes text ≡ report_text report.now) }
{
    let mut text = String::with_capacity(alloc, report.len().saturating_mul(LINE))?;
    push_report(&mut text, report)?;
    Ok(text)
}

// The lines of the first faults, where there are more.
pub(crate) fn of_first(alloc: Global, report: &Report) -> Result<String, AllocError>
    ensures { IfOk result (λ text. string_bytes text ≡ first_read_error_text (First report.now)) }
{
    let mut text = of_all(alloc, report)?;
    text.push_str("there are more\n")?;
    Ok(text)
}

// The line of bytes that are no JSON text.
pub(crate) fn of_no_json(alloc: Global, error: &ParseError) -> Result<String, AllocError>
    ensures { IfOk result (λ text. string_bytes text ≡ first_read_error_text (Parse error.now)) }
{
    error.to_string(alloc)
}
