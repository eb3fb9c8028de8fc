//! Texts in which a character that means something in a line is written in another way.
ghost use Rattle.std.specs.Prelude.{◌≡◌};
ghost use Rattle.std.specs.Fmt.{WritesOnOk};
ghost use Rattle.garde_places.specs.Escape.{data_char, file_char, property_char, written_char, written_text};

use std::fmt;

/// Where a text stands.
#[derive(Clone, Copy, Drop)]
pub(crate) enum Escape {
    /// The name of a file, behind which a colon stands.
    File,
    /// The message of a workflow command of GitHub.
    Data,
    /// A property of such a command.
    Property,
}

/// Writes a text as it stands there.
pub(crate) fn write_text<W: fmt::Write>(
    escape: Escape,
    text: &str,
    f: &mut fmt::Formatter<W>,
) -> fmt::Result
    ensures { WritesOnOk W.write_str_gives f.old result (written_text escape text.now) f.new }
{
    for c in text.chars() {
        write_char(escape, c, f)?;
    }
    Ok(())
}

fn write_char<W: fmt::Write>(escape: Escape, c: char, f: &mut fmt::Formatter<W>) -> fmt::Result
    ensures { WritesOnOk W.write_str_gives f.old result (written_char escape c) f.new }
{
    match escape {
        Escape::File => write_file_char(c, f),
        Escape::Data => write_data_char(c, f),
        Escape::Property => write_property_char(c, f),
    }
}

fn write_file_char<W: fmt::Write>(c: char, f: &mut fmt::Formatter<W>) -> fmt::Result
    ensures { WritesOnOk W.write_str_gives f.old result (file_char c) f.new }
{
    match c {
        ':' => f.write_str("\\u{3a}"),
        _ => f.write_char(c),
    }
}

fn write_data_char<W: fmt::Write>(c: char, f: &mut fmt::Formatter<W>) -> fmt::Result
    ensures { WritesOnOk W.write_str_gives f.old result (data_char c) f.new }
{
    match c {
        '%' => f.write_str("%25"),
        '\r' => f.write_str("%0D"),
        '\n' => f.write_str("%0A"),
        _ => f.write_char(c),
    }
}

fn write_property_char<W: fmt::Write>(c: char, f: &mut fmt::Formatter<W>) -> fmt::Result
    ensures { WritesOnOk W.write_str_gives f.old result (property_char c) f.new }
{
    match c {
        ':' => f.write_str("%3A"),
        ',' => f.write_str("%2C"),
        _ => write_data_char(c, f),
    }
}
