//! Memory of which a call gets little, and what the call comes to.

use crate::hog::Hog;
use std::alloc::{AllocError, Global};

/// What a call came to.
#[derive(Clone, Copy, Debug, PartialEq, Eq)]
pub enum Met {
    /// The answer of ample memory.
    Ample,
    /// Out of memory, by the name that the call has for it.
    Want,
    /// Another answer, or an object that a failed call changed.
    Wrong,
}

impl Met {
    /// This, where the objects of the call stand as they should, and else `Wrong`.
    pub fn when(self, stands: bool) -> Met {
        if stands { self } else { Met::Wrong }
    }

    /// What this call and another came to together.
    pub fn and(self, other: Met) -> Met {
        match (self, other) {
            (Met::Wrong, _) | (_, Met::Wrong) => Met::Wrong,
            (Met::Want, _) | (_, Met::Want) => Met::Want,
            (Met::Ample, Met::Ample) => Met::Ample,
        }
    }

    /// Ok of the answer of ample memory, and else what came in its place.
    pub fn ample(self) -> Result<(), &'static str> {
        match self {
            Met::Ample => Ok(()),
            Met::Want => Err("memory was refused"),
            Met::Wrong => Err("another answer"),
        }
    }
}

/// Memory that is scarce between `begin` and `end`.
#[derive(Drop)]
pub struct Scarce {
    hog: Option<Hog>,
    rest: usize,
}

impl Scarce {
    /// Memory that is as ample as the system has it.
    pub fn ample() -> Self {
        Scarce { hog: None, rest: 0 }
    }

    /// Memory that is all taken, but for what is left to a call.
    pub fn taken(alloc: Global) -> Result<Self, AllocError> {
        Ok(Scarce {
            hog: Some(Hog::new(alloc)?),
            rest: 0,
        })
    }

    /// From here on requests are served from one piece of memory alone.
    pub fn begin(&mut self) {
        if let Some(hog) = &mut self.hog {
            hog.leave(self.rest);
        }
    }

    /// From here on memory is ample.
    pub fn end(&mut self) {
        if let Some(hog) = &mut self.hog {
            hog.release();
        }
    }
}

/// Calls whose allocations fail, with the objects that they are made on.
pub trait Calls {
    /// Makes the objects, then the calls between `begin` and `end` of `memory`, and says what the
    /// calls came to. `AllocError` is returned where the objects could not be made.
    fn meet(&self, alloc: Global, memory: &mut Scarce) -> Result<Met, AllocError>;

    /// What the calls come to where memory is as ample as the system has it.
    final fn once(&self, alloc: Global) -> Result<Met, AllocError> {
        self.meet(alloc, &mut Scarce::ample())
    }

    /// `Ample`, where the calls run out of memory if there is none, and then, with more and more of
    /// it, run out of memory or give the answers of ample memory, and at last give those.
    final fn in_turn(&self, alloc: Global, memory: &mut Scarce) -> Result<Met, AllocError> {
        for rest in (0..1024usize).map(|k| 16 * k) {
            memory.rest = rest;
            match self.meet(alloc, memory)? {
                Met::Want => {}
                other => return Ok(other.when(rest > 0)),
            }
        }
        Ok(Met::Want)
    }
}
