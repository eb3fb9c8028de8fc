//! What may stand next in a JSON text (RFC 8259) nested no deeper than 128, a byte at a time.

use crate::literal::Literal;
use crate::string::Quoted;
use json::MAX_DEPTH;

/// What stands next.
#[derive(Clone, Copy, Drop)]
enum Next {
    /// A value.
    Value,
    /// A value, or the bracket that closes an empty array.
    FirstItem,
    /// A name, or the brace that closes an empty object.
    FirstName,
    /// A name.
    Name,
    /// The colon behind a name.
    Colon,
    /// What stands behind a value.
    Behind,
    /// More of a text, which is a name or not.
    Text(Quoted, bool),
    /// More of a number or a word.
    Literal(Literal),
}

/// What is open, and what stands next.
#[derive(Clone, Copy, Drop)]
pub(crate) struct Syntax {
    /// Whether it is an object, of each array or object that is open, and of those that were.
    open: [bool; MAX_DEPTH],
    /// How many are open.
    depth: usize,
    next: Next,
}

// Whether a byte is white space.
fn is_space(byte: u8) -> bool {
    matches!(byte, b' ' | b'\t' | b'\n' | b'\r')
}

impl Syntax {
    /// Before the first byte.
    pub(crate) fn new() -> Syntax {
        Syntax {
            open: [false; MAX_DEPTH],
            depth: 0,
            next: Next::Value,
        }
    }

    /// Takes bytes up to the first that may not stand where it does. Returns how many it took.
    pub(crate) fn take_all(&mut self, bytes: &[u8]) -> usize {
        for (offset, byte) in bytes.iter().enumerate() {
            if !self.take(*byte) {
                return offset;
            }
        }
        bytes.len()
    }

    // Takes a byte, if it may stand here: it is another byte of something, or the text goes on by it.
    fn take(&mut self, byte: u8) -> bool {
        match self.next {
            Next::Text(text, is_name) => self.take_text(text, is_name, byte),
            Next::Literal(literal) => self.take_literal(literal, byte),
            _ if is_space(byte) => true,
            _ => self.take_mark(byte),
        }
    }

    fn take_text(&mut self, text: Quoted, is_name: bool, byte: u8) -> bool {
        if text.ends(byte) {
            self.next = if is_name { Next::Colon } else { Next::Behind };
            return true;
        }
        match text.with(byte) {
            Some(text) => {
                self.next = Next::Text(text, is_name);
                true
            }
            None => false,
        }
    }

    fn take_literal(&mut self, literal: Literal, byte: u8) -> bool {
        match literal.with(byte) {
            Some(literal) => {
                self.next = Next::Literal(literal);
                true
            }
            None if literal.may_end() => {
                self.next = Next::Behind;
                is_space(byte) || self.take_mark(byte)
            }
            None => false,
        }
    }

    // Takes a byte that is no white space, where something new begins.
    fn take_mark(&mut self, byte: u8) -> bool {
        match (self.next, byte) {
            (Next::FirstItem, b']') | (Next::FirstName, b'}') => {
                self.close();
                true
            }
            (Next::FirstName | Next::Name, b'"') => {
                self.next = Next::Text(Quoted::START, true);
                true
            }
            (Next::Colon, b':') => {
                self.next = Next::Value;
                true
            }
            (Next::Value | Next::FirstItem, _) => self.begin(byte),
            (Next::Behind, _) => self.go_on(byte),
            _ => false,
        }
    }

    // Takes the first byte of a value.
    fn begin(&mut self, byte: u8) -> bool {
        match byte {
            b'[' => self.open(false),
            b'{' => self.open(true),
            b'"' => {
                self.next = Next::Text(Quoted::START, false);
                true
            }
            _ => match Literal::of(byte) {
                Some(literal) => {
                    self.next = Next::Literal(literal);
                    true
                }
                None => false,
            },
        }
    }

    fn open(&mut self, is_object: bool) -> bool {
        let Some(opened) = self.open.get_mut(self.depth) else {
            return false;
        };
        *opened = is_object;
        self.depth += 1;
        self.next = if is_object {
            Next::FirstName
        } else {
            Next::FirstItem
        };
        true
    }

    // Whether the innermost of those that are open is an object.
    fn innermost(&self) -> Option<bool> {
        self.open.get(self.depth.checked_sub(1)?).copied()
    }

    fn close(&mut self) {
        self.depth = self.depth.saturating_sub(1);
        self.next = Next::Behind;
    }

    // Takes a byte behind a value.
    fn go_on(&mut self, byte: u8) -> bool {
        let Some(is_object) = self.innermost() else {
            return false;
        };
        if byte == b',' {
            self.next = if is_object { Next::Name } else { Next::Value };
            return true;
        }
        let ends = byte == if is_object { b'}' } else { b']' };
        if ends {
            self.close();
        }
        ends
    }

    /// Why no other byte than this one may stand here, or why the text may not end here.
    pub(crate) fn why(&self, byte: Option<u8>) -> &'static str {
        match (self.next, byte) {
            (Next::Value | Next::FirstItem, Some(b'[' | b'{')) => "nested deeper than 128",
            (Next::Value, _) => "expected a value",
            (Next::FirstItem, _) => "expected a value or ]",
            (Next::FirstName, _) => "expected a name or }",
            (Next::Name, _) => "expected a name",
            (Next::Colon, _) => "expected : after a name",
            (Next::Behind, _) => self.why_behind(),
            (Next::Text(text, _), Some(byte)) => text.why(byte),
            (Next::Text(_, _), None) => "a text is not closed",
            (Next::Literal(literal), _) if literal.may_end() => self.why_behind(),
            (Next::Literal(literal), _) => literal.why(),
        }
    }

    /// How many bytes of the escape of half a surrogate pair stand behind, where this byte may not stand
    /// here since it would leave the half alone.
    pub(crate) fn half(&self, byte: u8) -> Option<usize> {
        match self.next {
            Next::Text(text, _) => text.half(byte),
            _ => None,
        }
    }

    fn why_behind(&self) -> &'static str {
        match self.innermost() {
            Some(true) => "expected , or } after a member",
            Some(false) => "expected , or ] after an item",
            None => "expected nothing after the value",
        }
    }
}
