//! What is on its way to one host.
ghost use Rattle.std.specs.Prelude.{◌≡◌, ◌<◌, IfOk, IfSome};
ghost use Rattle.generated_runs.specs.Draws.{draw};
ghost use Rattle.generated_runs.specs.Fabric.{idle, refilled, level_of, highest, drawn, first_hop, hop, next_of};
ghost use Rattle.homa_fabric.specs.Queues.{entered};

use crate::draws::draw;
use crate::queued::Queued;
use circular_buffer::HeapCircularBuffer;
use rand_pcg::Lcg64Xsh32;
use std::alloc::{AllocError, Global};
use std::marker::Model;

/// How many levels there are.
const LEVELS: usize = 8;

/// How many packets a queue holds.
const MOST_QUEUED: usize = 256;

/// How many bytes a host is handed in a round, at most.
const ROUND_BYTES: u32 = 16_000;

/// What became of the packet that came first.
#[derive(Clone, Copy)]
pub(crate) enum Hop {
    /// It stays, or there is none: the host's round ends.
    Ends,
    /// It is lost.
    Loses,
    /// It is handed over, by its number.
    Hands(u64),
}

/// What is on its way to one host: a queue for each level, how many bytes the host may still be handed in this round,
/// and the packet that is handed over a second time.
#[derive(Drop)]
pub(crate) struct Destination {
    levels: Vec<HeapCircularBuffer<Queued>>,
    budget: u32,
    again: Option<u64>,
}

impl Model for Destination {
    ghost use Rattle.std.specs.Prelude.{map};
    ghost use Rattle.generated_runs.specs.Fabric.{Destination};
    ghost use Rattle.homa_fabric.specs.Queues.{AreQueues};

    ghost Value = { Destination };

    ghost view = { λ d. record { levels = map (λ q. q.items) d.levels.items; budget = d.budget; again = d.again } };

    ghost invariant = { λ d. AreQueues d.levels.items };
}

impl Destination {
    ghost use Rattle.homa_fabric.specs.Hops.{plain_hop};

    /// Nothing is on its way. Fails where memory runs out; nothing else here takes memory.
    pub(crate) fn open(alloc: Global) -> Result<Destination, AllocError>
        ensures { IfOk result (λ d. d ≡ idle) }
    {
        let mut levels = Vec::with_capacity(alloc, LEVELS)?;
        for _ in 0..LEVELS {
            levels.push(HeapCircularBuffer::with_capacity(alloc, MOST_QUEUED)?)?;
        }
        Ok(Destination {
            levels,
            budget: 0,
            again: None,
        })
    }

    /// A packet goes to the end of its level's queue; where that is full, or there is no such level, it is lost.
    pub(crate) fn enter(&mut self, level: u8, packet: Queued)
        ensures { self.new ≡ entered self.old level packet }
    {
        if usize::from(level) < self.levels.len() {
            let queue = &mut self.levels[level as usize];
            let _ = queue.try_push_back(packet);
        }
    }

    /// A round begins: the host may be handed as many bytes as in each.
    pub(crate) fn refill(&mut self)
        ensures { self.new ≡ refilled self.old }
    {
        self.budget = ROUND_BYTES;
    }

    // The highest level that has a packet.
    fn highest(&self) -> Option<usize>
        ensures level { result ≡ highest 0 self.now.levels }
        ensures inside { IfSome result (λ level. level < 8) }
    {
        for level in (0..LEVELS).rev() {
            if !self.levels[level].is_empty() {
                return Some(level);
            }
        }
        None
    }

    // A packet that isn't too old is lost, handed over twice, or once, by a draw.
    fn drawn(&mut self, packet: Queued, random: &mut Lcg64Xsh32) -> Hop
        ensures { plain_hop result self.new random.new ≡ drawn packet self.old (draw 64 random.old) }
    {
        match draw(random, 64) {
            0 => Hop::Loses,
            1 => {
                self.again = Some(packet.number);
                Hop::Hands(packet.number)
            }
            _ => Hop::Hands(packet.number),
        }
    }

    // What becomes of the first packet of a level.
    fn first_hop(&mut self, life: u32, now: u64, random: &mut Lcg64Xsh32, level: usize) -> Hop
        requires { level < 8 }
        ensures hop { plain_hop result self.new random.new ≡ first_hop life now self.old random.old level (level_of self.old level) }
        ensures same { result ≡ Hop.Ends → (self.new ≡ self.old) × (random.new ≡ random.old) }
    {
        let queue = &mut self.levels[level];
        let Some(packet) = queue.front().copied() else {
            return Hop::Ends;
        };
        if self.budget < packet.size {
            return Hop::Ends;
        }
        queue.pop_front();
        if now.saturating_sub(packet.tick) > u64::from(life) {
            return Hop::Loses;
        }
        self.budget -= packet.size;
        self.drawn(packet, random)
    }

    // What becomes of the packet that comes first, at the tick `now`, where packets live for `life` ticks.
    fn hop(&mut self, life: u32, now: u64, random: &mut Lcg64Xsh32) -> Hop
        ensures hop { plain_hop result self.new random.new ≡ hop life now self.old random.old }
        ensures same { result ≡ Hop.Ends → (self.new ≡ self.old) × (random.new ≡ random.old) }
    {
        if let Some(number) = self.again.take() {
            return Hop::Hands(number);
        }
        match self.highest() {
            Some(level) => self.first_hop(life, now, random, level),
            None => Hop::Ends,
        }
    }

    /// The number of the packet that the host is handed next, unless its round ends. Packets that come before it are
    /// lost.
    pub(crate) fn next(&mut self, life: u32, now: u64, random: &mut Lcg64Xsh32) -> Option<u64>
        ensures number { result ≡ (next_of life now self.old random.old).number }
        ensures destination { self.new ≡ (next_of life now self.old random.old).to }
        ensures random { random.new ≡ (next_of life now self.old random.old).random }
    {
        loop {
            match self.hop(life, now, random) {
                Hop::Ends => return None,
                Hop::Loses => {}
                Hop::Hands(number) => return Some(number),
            }
        }
    }
}
