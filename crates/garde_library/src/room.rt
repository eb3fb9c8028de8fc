//! The room for reading, in a form that C can hold.
use crate::loose::Loose;
use garde_tape::Scratch;
use std::alloc::{AllocError, Global};
use std::marker::Model;
use std::{mem, ptr};

/// The room that reading JSON needs, kept from one check to the next. C holds it as a struct of a
/// pointer and a `bool`, which begins with all bytes 0: then there is no room yet, and the first check
/// makes it. It is not `Drop`: `free` frees what it holds.
#[repr(C)]
pub struct Room {
    at: *mut (),
    full: bool,
}

impl Model for Room {
    ghost use Rattle.garde_library.specs.Room.{room_owns};

    ghost also_owns = { λ r. room_owns r.at r.full };
}

impl Room {
    // No room.
    fn none() -> Room {
        Room {
            at: ptr::null_mut(),
            full: false,
        }
    }

    fn of(held: Loose<Scratch, Global>) -> Room {
        let Loose { at, alloc: _ } = held;
        Room {
            at: at as *mut (),
            full: true,
        }
    }

    fn into_loose(self, alloc: Global) -> Option<Loose<Scratch, Global>> {
        let Room { at, full } = self;
        if full {
            Some(Loose {
                at: at as *mut Scratch,
                alloc,
            })
        } else {
            None
        }
    }

    /// Takes the scratch out, if there is one. No room is left.
    pub fn take(&mut self, alloc: Global) -> Option<Box<Scratch>> {
        match mem::replace(self, Room::none()).into_loose(alloc) {
            Some(held) => Some(held.into_box()),
            None => None,
        }
    }

    /// Keeps a scratch, and drops the one that was kept before.
    pub fn put(&mut self, alloc: Global, scratch: Box<Scratch>) {
        let before = mem::replace(self, Room::of(Loose::of(scratch)));
        if let Some(held) = before.into_loose(alloc) {
            let _ = held.into_box();
        }
    }

    /// Takes the scratch out, or makes one.
    pub fn take_or_new(&mut self, alloc: Global) -> Result<Box<Scratch>, AllocError> {
        match self.take(alloc) {
            Some(scratch) => Ok(scratch),
            None => Ok(Box::new(alloc, Scratch::new(alloc))?),
        }
    }

    /// Makes room for bodies of so many bytes.
    pub fn reserve(&mut self, alloc: Global, len: u32) -> Result<(), AllocError> {
        let mut scratch = self.take_or_new(alloc)?;
        let reserved = scratch.reserve_tape(len);
        self.put(alloc, scratch);
        reserved
    }

    /// Frees what is held. No room is left.
    pub fn free(&mut self, alloc: Global) {
        let _ = self.take(alloc);
    }
}
