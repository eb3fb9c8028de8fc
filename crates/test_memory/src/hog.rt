//! Memory that runs out: a test takes all that can be had, and leaves as much as it wants.
use std::alloc::{AllocError, Global};

/// The size of the block that a rest is cut from.
const SPARE: usize = 1 << 15;

/// How many blocks of that size are there when memory is released.
const BLOCKS: usize = 32;

/// The least size of a block that is never given back.
const LARGE: usize = 1 << 26;

/// Blocks that take all memory that can be had.
#[derive(Drop)]
pub struct Hog {
    alloc: Global,
    large: Vec<Vec<u8>>,
    small: Vec<Vec<u8>>,
}

// Takes blocks of `most` bytes, then of half as many and so on, down to `least`.
fn take_blocks(alloc: Global, blocks: &mut Vec<Vec<u8>>, most: usize, least: usize) {
    let mut size = most;
    for _ in 0..400_000u32 {
        if size < least || blocks.len() == blocks.capacity() {
            return;
        }
        match Vec::with_capacity(alloc, size) {
            Ok(block) => {
                let _ = blocks.push(block);
            }
            Err(_) => size /= 2,
        }
    }
}

impl Hog {
    /// Takes all memory, but for a megabyte.
    pub fn new(alloc: Global) -> Result<Hog, AllocError> {
        let mut large = Vec::with_capacity(alloc, 200_000)?;
        let mut small = Vec::with_capacity(alloc, 10_000)?;
        for _ in 0..BLOCKS {
            small.push(Vec::with_capacity(alloc, SPARE)?)?;
        }
        // It keeps the blocks below it from going back to the system.
        large.push(Vec::with_capacity(alloc, SPARE)?)?;
        let mut hog = Hog {
            alloc,
            large,
            small,
        };
        hog.take_all();
        hog.small.clear();
        Ok(hog)
    }

    fn take_all(&mut self) {
        take_blocks(self.alloc, &mut self.large, 1 << 46, LARGE);
        take_blocks(self.alloc, &mut self.small, LARGE / 2, 8);
        // The allocator keeps pieces that were given back apart by their size, up to a kilobyte.
        for size in (0..65usize).map(|k| 8 + 16 * k) {
            take_blocks(self.alloc, &mut self.small, size, size);
        }
    }

    /// Leaves `rest` bytes in one piece, and nothing else. With 0 each allocation fails.
    pub fn leave(&mut self, rest: usize) {
        let spare = Vec::<u8>::with_capacity(self.alloc, SPARE);
        self.take_all();
        drop(spare);
        if let Ok(block) = Vec::with_capacity(self.alloc, SPARE.saturating_sub(rest)) {
            let _ = self.small.push(block);
        }
    }

    /// Gives back all but the large blocks, so that there is ample memory.
    pub fn release(&mut self) {
        self.small.clear();
    }
}
