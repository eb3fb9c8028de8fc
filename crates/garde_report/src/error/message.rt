//! The text of an error.
ghost use Rattle.std.specs.Prelude.{◌≡◌, ◌≤◌, length, IfOk, IsOk, string_bytes};
ghost use Rattle.garde_report.specs.Message.{IsInline, message_bytes};

use crate::short::Short;
use std::alloc::{AllocError, Global};
use std::fmt;

/// The most bytes of a message that allocates nothing.
const SHORT: usize = 30;

/// A message. One of up to 30 bytes lies in the value itself.
#[derive(Drop)]
pub(super) enum Message {
    Short(Short<SHORT>),
    Long(String),
}

impl Message {
    /// A copy of a text.
    pub(super) fn copy_of(alloc: Global, text: &str) -> Result<Message, AllocError>
        ensures text { IfOk result (λ message. message_bytes message ≡ text.now) }
        ensures inline { IfOk result (λ message. length text.now ≤ 30 → IsInline message) }
        ensures short { length text.now ≤ 30 → IsOk result }
    {
        match Short::of(text) {
            Some(short) => Ok(Message::Short(short)),
            None => Ok(Message::Long(String::from_str(alloc, text)?)),
        }
    }

    /// A text that is handed over.
    pub(super) fn of(text: String) -> Message
        ensures text { message_bytes result ≡ string_bytes text }
        ensures inline { length (string_bytes text) ≤ 30 → IsInline result }
    {
        match Short::of(text.as_str()) {
            Some(short) => Message::Short(short),
            None => Message::Long(text),
        }
    }

    pub(super) fn as_str(&self) -> &str
        ensures { result.now ≡ message_bytes self.now }
    {
        match self {
            Message::Short(short) => short.as_str(),
            Message::Long(text) => text.as_str(),
        }
    }

    /// The same message once more.
    pub(super) fn copy(&self) -> Result<Message, AllocError>
        ensures text { IfOk result (λ copy. message_bytes copy ≡ message_bytes self.now) }
        ensures inline { IfOk result (λ copy. IsInline self.now → IsInline copy) }
        ensures short { IsInline self.now → IsOk result }
    {
        match self {
            Message::Short(short) => Ok(Message::Short(short.copy())),
            Message::Long(text) => Ok(Message::Long(text.clone()?)),
        }
    }
}

impl fmt::Debug for Message {
    fn fmt<W: fmt::Write>(&self, f: &mut fmt::Formatter<W>) -> fmt::Result {
        fmt::Debug::fmt(&self.as_str(), f)
    }
}
