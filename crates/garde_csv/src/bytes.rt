//! The bytes of a list, as many at a time as lie in a buffer.
ghost use Rattle.std.specs.Prelude.{◌≡◌, [], ◌+◌, ◌<◌, ◌≤◌, drop, length, true, false, IfErr, IfOk, OnOk, option_map};
ghost use Rattle.std.specs.Io.KnownBytes.{IsAtEnd, Keeps};
ghost use Rattle.csv.specs.Reading.{is_bom, strip_bom};
ghost use Rattle.garde_csv.specs.Lists.{buffered, is_cause, unread_of};

use crate::list_error::ListError;
use std::alloc::Global;
use std::io::Read;

/// A source, and the bytes that were read of it and not yet given.
#[derive(Debug, Drop)]
pub(crate) struct Bytes<R> {
    pub(crate) source: R,
    pub(crate) buffer: Box<[u8; 8192]>,
    pub(crate) at: usize,
    pub(crate) filled: usize,
}

// Whether three bytes are a byte order mark.
fn is_mark(a: u8, b: u8, c: u8) -> bool
    ensures { result ≡ is_bom a b c }
{
    a == 0xef && b == 0xbb && c == 0xbf
}

impl<R: Read + Drop> Bytes<R> {
    /// The bytes of a source, without a byte order mark at its beginning.
    pub(crate) fn new(alloc: Global, source: R) -> Result<Bytes<R>, ListError>
        ensures bytes { IfOk result (λ bytes. Keeps (option_map strip_bom (R.remaining source)) (unread_of R.remaining bytes)) }
        ensures why { IfErr result (λ error. is_cause error ≡ true) }
    {
        let Ok(buffer) = Box::new(alloc, [0u8; 8192]) else {
            return Err(ListError::Memory);
        };
        let mut bytes = Bytes {
            source,
            buffer,
            at: 0,
            filled: 0,
        };
        bytes.fill_head()?;
        bytes.drop_mark();
        Ok(bytes)
    }

    // Reads one byte of the beginning into the buffer, if there is one.
    fn next_head(&mut self) -> Result<bool, ListError>
        requires at { self.old.at ≡ 0 }
        requires room { self.old.filled < 3 }
        ensures keeps { OnOk result (Keeps (unread_of R.remaining self.old) (unread_of R.remaining self.new)) }
        ensures end { IfOk result (λ more. more ≡ false → IsAtEnd (R.remaining self.new.source)) }
        ensures filled { IfOk result (λ more. (more ≡ true → self.new.filled ≡ self.old.filled + 1) × (more ≡ false → self.new.filled ≡ self.old.filled)) }
        ensures at { self.new.at ≡ 0 }
        ensures why { IfErr result (λ error. is_cause error ≡ true) }
    {
        let mut one = [0u8];
        match self.source.read(&mut one)? {
            0 => Ok(false),
            _ => {
                self.buffer[self.filled] = one[0];
                self.filled += 1;
                Ok(true)
            }
        }
    }

    // Reads the first three bytes into the buffer, or all that there are.
    fn fill_head(&mut self) -> Result<(), ListError>
        requires at { self.old.at ≡ 0 }
        requires filled { self.old.filled ≡ 0 }
        ensures keeps { OnOk result (Keeps (unread_of R.remaining self.old) (unread_of R.remaining self.new)) }
        ensures end { OnOk result (self.new.filled < 3 → IsAtEnd (R.remaining self.new.source)) }
        ensures at { OnOk result (self.new.at ≡ 0) }
        ensures filled { OnOk result (self.new.filled ≤ 3) }
        ensures why { IfErr result (λ error. is_cause error ≡ true) }
    {
        if !self.next_head()? {
            return Ok(());
        }
        if !self.next_head()? {
            return Ok(());
        }
        self.next_head()?;
        Ok(())
    }

    // Takes a byte order mark off the first three bytes.
    fn drop_mark(&mut self)
        requires at { self.old.at ≡ 0 }
        requires filled { self.old.filled ≤ 3 }
        ensures bytes { buffered self.new ≡ strip_bom (buffered self.old) }
        ensures count { length (buffered self.old) ≡ self.old.filled }
        ensures source { self.new.source ≡ self.old.source }
    {
        let head = &self.buffer[..];
        if self.filled == 3 && is_mark(head[0], head[1], head[2]) {
            self.at = 3;
        }
    }

    // Reads on, where no byte is left in the buffer.
    fn refill(&mut self) -> Result<(), ListError>
        requires { buffered self.old ≡ [] }
        ensures keeps { OnOk result (Keeps (unread_of R.remaining self.old) (unread_of R.remaining self.new)) }
        ensures end { OnOk result (buffered self.new ≡ [] → IsAtEnd (unread_of R.remaining self.new)) }
        ensures why { IfErr result (λ error. is_cause error ≡ true) }
    {
        self.filled = self.source.read(&mut self.buffer[..])?;
        self.at = 0;
        Ok(())
    }

    /// Reads on, if no byte is left in the buffer. It is empty behind the last byte alone.
    #[inline]
    pub(crate) fn fill(&mut self) -> Result<(), ListError>
        ensures keeps { OnOk result (Keeps (unread_of R.remaining self.old) (unread_of R.remaining self.new)) }
        ensures end { OnOk result (buffered self.new ≡ [] → IsAtEnd (unread_of R.remaining self.new)) }
        ensures why { IfErr result (λ error. is_cause error ≡ true) }
    {
        if self.ready().is_empty() {
            self.refill()?;
        }
        Ok(())
    }

    /// The bytes of the buffer that are not yet given.
    #[inline]
    pub(crate) fn ready(&self) -> &[u8]
        ensures { result.now ≡ buffered self.now }
    {
        let buffer = &self.buffer[..];
        let end = self.filled.min(buffer.len());
        &buffer[self.at.min(end)..end]
    }

    /// Gives so many bytes of the buffer.
    #[inline]
    pub(crate) fn skip(&mut self, count: usize)
        requires { count ≤ length (buffered self.old) }
        ensures bytes { buffered self.new ≡ drop count (buffered self.old) }
        ensures source { self.new.source ≡ self.old.source }
    {
        self.at += count;
    }
}
