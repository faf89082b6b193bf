//! A port: eight queues, of which the highest level goes first.
ghost use Rattle.std.specs.Prelude.{◌≡◌, ◌≤◌, ◌<◌, ◌+◌, [], ◌∷◌, ◌++◌, ℕ, length, slice_set, true, false, Ok, None, IfOk, IfSome, OnErr, replicate};

use std::alloc::{AllocError, Global};
use std::collections::VecDeque;
use std::marker::Model;

/// How many levels there are.
pub const LEVELS: usize = 8;

/// A packet that waits, and how many bytes it has on the wire.
#[derive(Clone, Copy, Debug, PartialEq, Eq)]
pub struct Waiting<T> {
    pub packet: T,
    pub bytes: u32,
}

/// A queue for each level, which share a room of so many bytes.
#[derive(Drop)]
pub struct Port<T: Copy> {
    levels: Vec<VecDeque<Waiting<T>>>,
    bytes: u64,
    room: u64,
}

impl<T: Copy> Model for Port<T> {
    ghost use Rattle.network_parts.specs.Queues.{Queues, queues_code};

    ghost Value = { Queues T };

    ghost coded = { queues_code T.code };

    ghost use Rattle.std.specs.Prelude.{◌≡◌, ◌≤◌, length, map};
    ghost use Rattle.std.specs.List.{sum_by};

    ghost view = { λ p. record { queues = map (λ q. q.items) p.levels.items; room = p.room } };

    ghost invariant = { λ p. (length p.levels.items ≡ 8) × (p.bytes ≡ sum_by (λ q. sum_by (λ w. w.bytes) q.items) p.levels.items)
        × (p.bytes ≤ p.room) };
}

impl<T: Copy> Port<T> {
    ghost use Rattle.network_parts.specs.Queues.{queue_of, total, IsFirst};

    /// Nothing waits. Fails where memory runs out.
    pub fn open(alloc: Global, room: u64) -> Result<Port<T>, AllocError>
        ensures { IfOk result (λ p. p ≡ record { queues = replicate 8 []; room = room }) }
    {
        let mut levels = Vec::with_capacity(alloc, LEVELS)?;
        for _ in 0..LEVELS {
            levels.push(VecDeque::new(alloc))?;
        }
        Ok(Port {
            levels,
            bytes: 0,
            room,
        })
    }

    /// How many bytes wait.
    pub fn bytes(&self) -> u64
        ensures total { result ≡ total self.now.queues }
        ensures within { result ≤ self.now.room }
    {
        self.bytes
    }

    /// A packet comes, and waits behind all others of its level; false where there is no room for it. Then, and where memory runs
    /// out, nothing changes.
    pub fn enter(&mut self, level: usize, waiting: Waiting<T>) -> Result<bool, AllocError>
        requires { level < 8 }
        ensures waits { result ≡ Ok true → self.new.queues ≡ slice_set self.old.queues level (queue_of self.old.queues level ++ waiting ∷ []) }
        ensures full { result ≡ Ok false → self.old.room < total self.old.queues + waiting.bytes }
        ensures refused { result ≡ Ok false → self.new ≡ self.old }
        ensures err { OnErr result (self.new ≡ self.old) }
        ensures room { self.new.room ≡ self.old.room }
    {
        let bytes = u64::from(waiting.bytes);
        if self.room - self.bytes < bytes {
            return Ok(false);
        }
        self.levels[level].push_back(waiting)?;
        self.bytes += bytes;
        Ok(true)
    }

    // The highest level that has a packet.
    fn highest(&self) -> Option<usize>
        ensures none { result ≡ None → (k : ℕ) → queue_of self.now.queues k ≡ [] }
        ensures inside { IfSome result (λ level. level < 8) }
        ensures some { IfSome result (λ level. 0 < length (queue_of self.now.queues level)) }
        ensures highest { IfSome result (λ level. (k : ℕ) → level < k → queue_of self.now.queues k ≡ []) }
    {
        for level in (0..LEVELS).rev() {
            if !self.levels[level].is_empty() {
                return Some(level);
            }
        }
        None
    }

    /// The packet that goes next, with its level: the first of the highest level that has any.
    pub fn next(&mut self) -> Option<(usize, Waiting<T>)>
        ensures first { IfSome result (λ r. IsFirst self.old.queues r.0 r.1 self.new.queues) }
        ensures none { result ≡ None → (k : ℕ) → queue_of self.old.queues k ≡ [] }
        ensures same { result ≡ None → self.new ≡ self.old }
        ensures room { self.new.room ≡ self.old.room }
    {
        let level = self.highest()?;
        let waiting = self.levels[level].pop_front()?;
        self.bytes -= u64::from(waiting.bytes);
        Some((level, waiting))
    }
}
