//! Errors, and what a rule returns.
ghost use Rattle.std.specs.Prelude.{◌≡◌, ◌==◌, ◌≤◌, Some, length, refl, IfOk, IsOk};
ghost use Rattle.std.specs.Cmp.{partial_equiv_from_equiv, partial_order_from_agreeing_total};
ghost use Rattle.std.specs.Cmp.Lexicographic.{pointwise, slice_cmp, nat_list_eq_equiv, nat_list_cmp_total, texts_ties};
ghost use Rattle.std.specs.Ordering.{nat_cmp};

use super::message::Message;
use std::alloc::{AllocError, AllocFailed, Global};
use std::borrow::CowStr;
use std::cmp::Ordering;
use std::fmt;
use std::marker::Model;

/// The message of a fault. One of up to 30 bytes allocates nothing.
#[derive(Debug, Drop)]
pub struct Error {
    message: Message,
}

impl Model for Error {
    ghost use Rattle.std.specs.Prelude.{ℕ, List, ◌≤◌, length};
    ghost use Rattle.garde_report.specs.Message.{IsInline, message_bytes};

    ghost Value = { List ℕ };

    ghost view = { λ a. message_bytes a.message };

    ghost invariant = { λ a. length (message_bytes a.message) ≤ 30 → IsInline a.message };
}

impl Error {
    /// An error with this message. One of up to 30 bytes needs no memory.
    pub fn new(alloc: Global, message: &str) -> std::result::Result<Error, AllocError>
        ensures message { IfOk result (λ error. error ≡ message.now) }
        ensures short { length message.now ≤ 30 → IsOk result }
    {
        Ok(Error {
            message: Message::copy_of(alloc, message)?,
        })
    }

    /// The message.
    pub fn message(&self) -> &str
        ensures { result.now ≡ self.now }
    {
        self.message.as_str()
    }
}

/// The clone of an error of up to 30 bytes needs no memory.
impl Clone for Error {
    ghost is_clone = { λ error copy. copy ≡ error };

    ghost is_infallible = { λ error. length error ≤ 30 };

    fn clone(&self) -> std::result::Result<Error, AllocError> {
        Ok(Error {
            message: self.message.copy()?,
        })
    }
}

impl PartialEq for Error {
    ghost eq = { pointwise ◌==◌ };

    ghost laws = { partial_equiv_from_equiv nat_list_eq_equiv };

    fn eq(&self, other: &Error) -> bool {
        self.message() == other.message()
    }
}

impl Eq for Error {
    ghost laws = { nat_list_eq_equiv };
}

/// By the bytes of the messages.
impl Ord for Error {
    ghost cmp = { slice_cmp nat_cmp };

    ghost total = { nat_list_cmp_total };

    ghost matches_partial_cmp = { λ x y. refl };

    ghost matches_eq = { texts_ties };

    fn cmp(&self, other: &Error) -> Ordering {
        self.message().cmp(other.message())
    }
}

impl PartialOrd for Error {
    ghost partial_cmp = { λ x y. Some (slice_cmp nat_cmp x y) };

    ghost laws = { partial_order_from_agreeing_total (slice_cmp nat_cmp) nat_list_cmp_total
        (λ x y. refl) texts_ties };

    fn partial_cmp(&self, other: &Error) -> Option<Ordering> {
        Some(self.cmp(other))
    }
}

/// The message.
impl fmt::Display for Error {
    ghost output = { λ error. Some error };

    fn fmt<W: fmt::Write>(&self, f: &mut fmt::Formatter<W>) -> fmt::Result {
        f.write_str(self.message())
    }
}

impl std::error::Error for Error {}

/// What a custom check returns. `map_err(RuleError::Fault)` makes of it what a trail takes.
pub type Result = std::result::Result<(), Error>;

/// Why a rule did not pass, or that memory ran out.
#[derive(Debug, Drop)]
pub enum RuleError {
    /// The rule does not hold.
    Fault(Error),
    /// There is no memory for the rule or for its message.
    Memory,
}

impl RuleError {
    ghost use Rattle.std.specs.Prelude.{◌≡◌, IsOkAnd};
    ghost use Rattle.std.specs.Cow.{cow_str_bytes};
    ghost use Rattle.garde_report.specs.Fault.{IfFault, IsFault, NeedsNoCopy};

    /// The fault with a handler's text, or `Memory` where that text or the error could not be made.
    /// An owned text of more than 30 bytes is kept as it is, and every other text is copied. So only
    /// a borrowed text of more than 30 bytes needs memory here.
    pub fn of(alloc: Global, text: std::result::Result<CowStr<'static>, AllocError>) -> RuleError
        ensures message { IfFault result
            (λ message. IsOkAnd text.entry (λ t. message ≡ cow_str_bytes t)) }
        ensures sure { NeedsNoCopy text.entry → IsFault result }
    {
        let message = match text {
            Ok(CowStr::Borrowed(text)) => Message::copy_of(alloc, text),
            Ok(CowStr::Owned(text)) => Ok(Message::of(text)),
            Err(error) => Err(error),
        };
        match message {
            Ok(message) => RuleError::Fault(Error { message }),
            Err(_) => RuleError::Memory,
        }
    }
}

impl From<AllocError> for RuleError {
    ghost use Rattle.garde_report.specs.declared.error.rule_error.RuleError.TheVariants.{Memory};

    ghost from_gives = { λ _ error. error ≡ Memory };

    fn from(_error: AllocError) -> RuleError {
        RuleError::Memory
    }
}

impl<T: Drop> From<AllocFailed<T>> for RuleError {
    ghost use Rattle.garde_report.specs.declared.error.rule_error.RuleError.TheVariants.{Memory};

    ghost from_gives = { λ _ error. error ≡ Memory };

    fn from(_error: AllocFailed<T>) -> RuleError {
        RuleError::Memory
    }
}

/// The message of the fault, or `out of memory`.
impl fmt::Display for RuleError {
    ghost use Rattle.garde_report.specs.Refusals.{rule_error_text};

    ghost output = { λ error. Some (rule_error_text error) };

    fn fmt<W: fmt::Write>(&self, f: &mut fmt::Formatter<W>) -> fmt::Result {
        match self {
            RuleError::Fault(error) => f.write_str(error.message()),
            RuleError::Memory => f.write_str("out of memory"),
        }
    }
}

impl std::error::Error for RuleError {}
