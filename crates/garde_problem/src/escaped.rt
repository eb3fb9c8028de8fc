//! Reports and paths with every character escaped that acts in place of being shown.
ghost use Rattle.std.specs.Prelude.{◌≡◌, ◌++◌, ◌∷◌, [], Some};
ghost use Rattle.std.specs.Fmt.{WritesOnOk};
ghost use Rattle.garde_report.specs.Path.{child_text, root_text};
ghost use Rattle.garde_report.specs.Report.{entry_text};
ghost use Rattle.garde_problem.specs.Escaped.{is_acting, escaped_char, escaped_text};
ghost use Rattle.garde_problem.specs.Escaped.{escaped_path, escaped_path_text, escaped_report_text};

use garde_report::{Error, Kind, Path, Report};
use std::alloc::Global;
use std::fmt;

/// A report or a path that prints as `{}` prints it, but for the characters of keys and messages
/// that are not shown but act. A control character, a separator of lines or paragraphs and a
/// character that turns the order of reading are written as `\u{1b}`, with their number in
/// hexadecimal, or as `\n`, `\r` and `\t`. A backslash is written as `\\`.
///
/// So a report prints exactly one line for each fault, and a key of a hostile body can neither
/// forge a line nor send codes to a terminal. `to_string(alloc)` makes a `String` of it. A path of
/// more than 8 components allocates while it prints.
#[derive(Clone, Copy, Debug)]
pub struct Escaped<'a, T>(pub Global, pub &'a T);

impl fmt::Display for Escaped<'_, Path> {
    ghost output = { λ escaped. Some (escaped_path_text escaped.1.now) };

    fn fmt<W: fmt::Write>(&self, f: &mut fmt::Formatter<W>) -> fmt::Result {
        write_path(self.0, self.1, f)
    }
}

impl fmt::Display for Escaped<'_, Report> {
    ghost output = { λ escaped. Some (escaped_report_text escaped.1.now) };

    fn fmt<W: fmt::Write>(&self, f: &mut fmt::Formatter<W>) -> fmt::Result {
        for (path, error) in self.1.iter() {
            write_entry(self.0, path, error, f)?;
        }
        Ok(())
    }
}

// Writes the line of one fault.
fn write_entry<W: fmt::Write>(
    alloc: Global,
    path: &Path,
    error: &Error,
    f: &mut fmt::Formatter<W>,
) -> fmt::Result
    ensures { WritesOnOk W.write_str_gives f.old result
        (entry_text (escaped_path path.now) (escaped_text error.now) ++ 10 ∷ []) f.new }
{
    if !path.is_empty() {
        write_path(alloc, path, f)?;
        f.write_str(": ")?;
    }
    write_text(error.message(), f)?;
    f.write_str("\n")
}

fn write_path<W: fmt::Write>(alloc: Global, path: &Path, f: &mut fmt::Formatter<W>) -> fmt::Result
    ensures { WritesOnOk W.write_str_gives f.old result (escaped_path_text path.now) f.new }
{
    let mut components = path.iter(alloc)?;
    let Some((kind, text)) = components.next_back() else {
        return Ok(());
    };
    write_root(kind, text, f)?;
    while let Some((kind, text)) = components.next_back() {
        write_below(kind, text, f)?;
    }
    Ok(())
}

// What a component prints under another one.
fn write_below<W: fmt::Write>(kind: Kind, text: &str, f: &mut fmt::Formatter<W>) -> fmt::Result
    ensures { WritesOnOk W.write_str_gives f.old result
        (child_text kind (escaped_text text.now)) f.new }
{
    match kind {
        Kind::Index => {
            f.write_str("[")?;
            write_text(text, f)?;
            f.write_str("]")
        }
        Kind::Key => {
            f.write_str(".")?;
            write_text(text, f)
        }
        Kind::None => write_text(text, f),
    }
}

// What it prints as the first component.
fn write_root<W: fmt::Write>(kind: Kind, text: &str, f: &mut fmt::Formatter<W>) -> fmt::Result
    ensures { WritesOnOk W.write_str_gives f.old result
        (root_text kind (escaped_text text.now)) f.new }
{
    match kind {
        Kind::Key => write_text(text, f),
        Kind::Index | Kind::None => write_below(kind, text, f),
    }
}

fn write_text<W: fmt::Write>(text: &str, f: &mut fmt::Formatter<W>) -> fmt::Result
    ensures { WritesOnOk W.write_str_gives f.old result (escaped_text text.now) f.new }
{
    for c in text.chars() {
        write_char(c, f)?;
    }
    Ok(())
}

fn write_char<W: fmt::Write>(c: char, f: &mut fmt::Formatter<W>) -> fmt::Result
    ensures { WritesOnOk W.write_str_gives f.old result (escaped_char c) f.new }
{
    match c {
        '\\' => f.write_str("\\\\"),
        '\n' => f.write_str("\\n"),
        '\r' => f.write_str("\\r"),
        '\t' => f.write_str("\\t"),
        _ if is_acting(c) => write!(f, "\\u{{{:x}}}", u32::from(c)),
        _ => f.write_char(c),
    }
}

// Whether the character is not shown but acts.
fn is_acting(c: char) -> bool
    ensures { result ≡ is_acting c }
{
    c.is_control()
        || c == '\u{61c}'
        || ('\u{200e}'..='\u{200f}').contains(&c)
        || ('\u{2028}'..='\u{202e}').contains(&c)
        || ('\u{2066}'..='\u{2069}').contains(&c)
}
