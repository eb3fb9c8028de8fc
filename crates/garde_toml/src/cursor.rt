//! The line and the column of one byte after another.

use garde_tape::Place;

/// How far a text is counted. A column counts characters, and a line ends with a line feed.
#[derive(Clone, Copy, Drop)]
pub(crate) struct Cursor<'t> {
    text: &'t str,
    offset: usize,
    here: Place,
}

impl<'t> Cursor<'t> {
    pub(crate) fn new(text: &'t str) -> Cursor<'t> {
        Cursor {
            text,
            offset: 0,
            here: Place { line: 1, column: 1 },
        }
    }

    /// The place at which the rest of the text begins. It is no longer than the one before.
    pub(crate) fn place(&mut self, rest: &str) -> Place {
        let offset = self.text.len().saturating_sub(rest.len());
        let Place {
            mut line,
            mut column,
        } = self.here;
        let bytes = self.text.as_bytes();
        for byte in bytes.get(self.offset..offset).unwrap_or_default() {
            if *byte == b'\n' {
                line = line.saturating_add(1);
                column = 1;
            } else if !(128..192).contains(byte) {
                column = column.saturating_add(1);
            }
        }
        self.offset = offset;
        self.here = Place { line, column };
        self.here
    }
}
