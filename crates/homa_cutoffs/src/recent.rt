//! The lengths of the last messages.
//! Rule: a receiver computes its cutoffs, which CUTOFFS carry, from the lengths of the last 256 messages.
ghost use Rattle.std.specs.Prelude.{◌≡◌, ◌<◌, ◌≤◌, [], length, IfOk};
ghost use Rattle.std.specs.List.{AllByRecursion};
ghost use Rattle.homa_plain.specs.Cutoffs.{noted, balanced};

use crate::bounds::level_bound;
use circular_buffer::HeapCircularBuffer;
use homa_plain::{Cutoffs, LONGEST_MESSAGE};
use std::alloc::{AllocError, Global};
use std::marker::Model;

/// How many lengths are remembered.
const MOST_LENGTHS: usize = 256;

/// The lengths, in bytes, of the last 256 messages that were opened. Contracts see a list, the oldest first.
#[derive(Drop)]
pub struct Recent {
    lengths: HeapCircularBuffer<u32>,
}

impl Model for Recent {
    ghost use Rattle.std.specs.Prelude.{◌≡◌, ◌≤◌, ℕ, List, length};
    ghost use Rattle.std.specs.List.{AllByRecursion};
    ghost use Rattle.homa_plain.specs.Limits.{longest_message};

    ghost Value = { List ℕ };

    ghost view = { λ r. r.lengths.items };

    ghost invariant = { λ r. (r.lengths.capacity ≡ 256) × (length r.lengths.items ≤ 256)
        × AllByRecursion (λ n. n ≤ longest_message) r.lengths.items };
}

impl Recent {
    /// No length. Fails only where memory runs out; nothing else here takes memory.
    pub fn new(alloc: Global) -> Result<Recent, AllocError>
        ensures { IfOk result (λ recent. recent ≡ []) }
    {
        let lengths = HeapCircularBuffer::with_capacity(alloc, MOST_LENGTHS)?;
        Ok(Recent { lengths })
    }

    /// Notes a message of `len` bytes (1 to 1,000,000), and forgets the oldest of 256.
    pub fn note(&mut self, len: u32)
        requires { len ≤ LONGEST_MESSAGE }
        ensures noted { self.new ≡ noted self.old len }
        ensures counted { 0 < length self.new }
    {
        self.lengths.push_back(len);
    }

    /// The cutoffs by which the levels from `k` (1 to 7) to 7 get equal parts of the weight of the noted
    /// messages. A message's weight is how many of its bytes need no grant: at most `unsched`.
    pub fn balance(&self, k: u32, unsched: u32, version: u16) -> Cutoffs
        requires from { 1 ≤ k }
        requires to { k ≤ 7 }
        requires counted { 0 < length self.now }
        ensures cutoffs { result ≡ balanced k unsched version self.now }
        ensures in_range { AllByRecursion (λ bound. bound ≤ LONGEST_MESSAGE) result.upto }
    {
        let mut upto = [0; 8];
        for (level, bound) in upto.iter_mut().enumerate() {
            *bound = level_bound(&self.lengths, k, unsched, level as u32);
        }
        Cutoffs { version, upto }
    }
}
