//! The room of a checker, as C holds it.

use garde_library::Room;
use garde_schema::Scratch;
use std::alloc::{AllocError, Global};

/// The room for reading a body and for reading a schema, kept from one check to the next. It begins with
/// all bytes 0. It is not `Drop`: `free` frees what it holds.
#[repr(C)]
pub struct Checker {
    of_body: Room,
    of_schema: Room,
}

/// The room of a check.
#[derive(Drop)]
pub struct Scratches {
    pub of_body: Box<Scratch>,
    pub of_schema: Box<Scratch>,
}

impl Checker {
    /// Takes the room out, or makes it.
    pub fn take_or_new(&mut self, alloc: Global) -> Result<Scratches, AllocError> {
        let of_body = self.of_body.take_or_new(alloc)?;
        let of_schema = self.of_schema.take_or_new(alloc)?;
        Ok(Scratches { of_body, of_schema })
    }

    /// Keeps the room.
    pub fn put(&mut self, alloc: Global, scratches: Scratches) {
        let Scratches { of_body, of_schema } = scratches;
        self.of_body.put(alloc, of_body);
        self.of_schema.put(alloc, of_schema);
    }

    /// Makes room for bodies of so many bytes.
    pub fn reserve(&mut self, alloc: Global, len: u32) -> Result<(), AllocError> {
        self.of_body.reserve(alloc, len)
    }

    /// Frees what is held. No room is left.
    pub fn free(&mut self, alloc: Global) {
        self.of_body.free(alloc);
        self.of_schema.free(alloc);
    }
}
