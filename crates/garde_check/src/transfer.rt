//! Where bytes come from, and where they go.
ghost use Rattle.std.specs.Prelude.{◌≡◌, ℕ, ◌<◌, ◌≤◌, List, Option, Bool, true, false, length, take, IfOk, OnOk, OnErr};
ghost use Rattle.std.specs.Io.KnownBytes.{Consumes, IsAtEnd, Keeps, WriteAppends};
ghost use Rattle.garde_check.specs.Ran.{Wrapped};

use std::fmt;
use std::io::{Read, Write};
use std::marker::Model;

/// A call of a reader or a writer failed.
#[derive(Clone, Copy, Debug)]
pub struct Failed;

impl fmt::Display for Failed {
    ghost use Rattle.std.specs.Prelude.{Some, codes};

    ghost output = { λ _. Some (codes "the device failed") };

    fn fmt<W: fmt::Write>(&self, f: &mut fmt::Formatter<W>) -> fmt::Result {
        f.write_str("the device failed")
    }
}

impl std::error::Error for Failed {}

/// What bytes are taken from.
pub trait Source {
    // The bytes that it has left, where it knows them.
    ghost remaining: { Self → Option (List ℕ) };

    // Whether a call has failed yet.
    ghost has_failed: { Self → Bool };

    /// Moves bytes to the front of `part`, which is not empty, and says how many. Where it says 0,
    /// none are left. What a call that failed has taken is lost.
    fn take(&mut self, part: &mut [u8]) -> Result<usize, Failed>
        requires { 0 < length part.old }
        ensures bound { IfOk result (λ n. n ≤ length part.new) }
        ensures bytes { IfOk result (λ n.
            Consumes (remaining self.old) (remaining self.new) (take n part.new)) }
        ensures end { IfOk result (λ n. n ≡ 0 → IsAtEnd (remaining self.new)) }
        ensures ok { OnOk result (has_failed self.new ≡ has_failed self.old) }
        ensures err { OnErr result (has_failed self.new ≡ true) };
}

/// What bytes are given to.
pub trait Sink {
    // The bytes that it holds, where it knows them.
    ghost contents: { Self → Option (List ℕ) };

    // Whether a call has failed yet.
    ghost has_failed: { Self → Bool };

    /// Takes at least one byte from the front of `part`, which is not empty, and says how many.
    /// Where it fails, it takes none.
    fn give(&mut self, part: &[u8]) -> Result<usize, Failed>
        requires { 0 < length part.now }
        ensures some { IfOk result (λ n. 0 < n) }
        ensures bound { IfOk result (λ n. n ≤ length part.now) }
        ensures bytes { WriteAppends (contents self.old) (contents self.new) result part.now }
        ensures ok { OnOk result (has_failed self.new ≡ has_failed self.old) }
        ensures err { OnErr result (has_failed self.new ≡ true) };
}

/// A reader or a writer of the standard library. Each error of it is `Failed`, and so is a write
/// that takes no byte.
#[derive(Drop)]
pub struct Plain<D> {
    device: D,
    failed: bool,
}

impl<D> Model for Plain<D> {
    ghost Value = { Wrapped D };

    ghost view = { λ p. record { device = p.device; has_failed = p.failed } };
}

impl<D> Plain<D> {
    /// The reader or the writer, of which no call has failed yet.
    pub fn new(device: D) -> Plain<D>
        ensures device { result.device ≡ device }
        ensures fresh { result.has_failed ≡ false }
    {
        Plain {
            device,
            failed: false,
        }
    }

    /// Gives the reader or the writer back.
    pub fn into_inner(self) -> D
        ensures { result ≡ self.device }
    {
        let Plain { device, failed: _ } = self;
        device
    }
}

impl<R: Read> Source for Plain<R> {
    ghost remaining = { λ p. R.remaining p.device };

    ghost has_failed = { λ p. p.has_failed };

    /// As `Source::take`. Where it fails, it took none of the bytes that the reader knows.
    fn take(&mut self, part: &mut [u8]) -> Result<usize, Failed>
        requires { 0 < length part.old }
        ensures bound { IfOk result (λ n. n ≤ length part.new) }
        ensures bytes { IfOk result (λ n.
            Consumes (R.remaining self.old.device) (R.remaining self.new.device) (take n part.new)) }
        ensures end { IfOk result (λ n. n ≡ 0 → IsAtEnd (R.remaining self.new.device)) }
        ensures ok { OnOk result (self.new.has_failed ≡ self.old.has_failed) }
        ensures err { OnErr result (self.new.has_failed ≡ true) }
        ensures kept { OnErr result (Keeps (R.remaining self.old.device) (R.remaining self.new.device)) }
    {
        match self.device.read(part) {
            Ok(n) => Ok(n),
            Err(_) => {
                self.failed = true;
                Err(Failed)
            }
        }
    }
}

impl<W: Write> Sink for Plain<W> {
    ghost contents = { λ p. W.contents p.device };

    ghost has_failed = { λ p. p.has_failed };

    fn give(&mut self, part: &[u8]) -> Result<usize, Failed> {
        match self.device.write(part) {
            Ok(n) if n > 0 => Ok(n),
            _ => {
                self.failed = true;
                Err(Failed)
            }
        }
    }
}
