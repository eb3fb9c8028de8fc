//! The room for reading a JSON text.
ghost use Rattle.std.specs.Prelude.{◌≡◌, ◌+◌, ◌<◌, ◌≤◌, IfOk, OnErr, OnOk};
ghost use Rattle.json.specs.Scratch.{tape_room};

use bumpalo::Bump;
use json::Node;
use std::alloc::{AllocError, Global};
use std::fmt;

/// The room that reading a JSON text takes, kept from one read to the next: a text that is no longer
/// than one before it, and of no more tokens, is read without an allocation.
#[derive(Drop)]
pub struct Scratch {
    pub(crate) texts: json::Scratch,
    pub(crate) nodes: Bump,
}

/// The name alone: the room has no content of its own.
impl fmt::Debug for Scratch {
    fn fmt<W: fmt::Write>(&self, f: &mut fmt::Formatter<W>) -> fmt::Result {
        f.write_str("Scratch { .. }")
    }
}

impl Scratch {
    /// No room yet. It allocates nothing.
    pub fn new(alloc: Global) -> Scratch {
        Scratch {
            texts: json::Scratch::new(alloc),
            nodes: Bump::new(alloc),
        }
    }

    /// Room for texts of so many bytes and for their tokens: none of them takes an allocation to be read.
    pub fn with_room(alloc: Global, len: u32) -> Result<Scratch, AllocError>
        ensures { IfOk result (λ scratch. len + 64 ≤ tape_room scratch.texts) }
    {
        // A list of tokens has room for four at least.
        let tokens = (len as usize + 1).max(4);
        let mut scratch = Scratch {
            texts: json::Scratch::new(alloc),
            nodes: Bump::try_with_capacity(alloc, tokens * size_of::<Node<'static>>())?,
        };
        scratch.reserve_tape(len)?;
        Ok(scratch)
    }

    // The room for tokens, none of which is in use. An arena gives back the room of its last block where
    // it has one chunk, and else by `reset`, which fails where a tape was forgotten and not dropped.
    pub(crate) fn clear(&mut self, alloc: Global)
        ensures { self.new.texts ≡ self.old.texts }
    {
        if self.nodes.chunk_capacity() < self.nodes.allocated_bytes()
            && self.nodes.reset().is_err()
        {
            self.nodes = Bump::new(alloc);
        }
    }

    /// Makes room for texts of so many bytes, but for the tokens of their tapes.
    pub fn reserve_tape(&mut self, len: u32) -> Result<(), AllocError>
        ensures ok { OnOk result (len + 64 ≤ tape_room self.new.texts) }
        ensures full { OnErr result (tape_room self.old.texts < len + 64) }
    {
        self.texts.reserve_tape(len)
    }
}

/// The tokens of a JSON text, in the room of a scratch.
pub type Tape<'a> = json::Tape<'a, &'a Bump>;
