// A queue with the link that takes from it.
ghost use Rattle.std.specs.Prelude.{◌≡◌, ◌≤◌, ◌<◌, ◌+◌, ◌*◌, ◌^◌, length, nat_le, min, None, IfOk, IfSome};

use crate::packet::SimPacket;
use crate::tally::QueueTally;
use experiment::{Card, Network};
use network_parts::{LEVELS, Link, Passage, Port, Waiting};
use std::alloc::{AllocError, Global};
use std::cmp::Reverse;
use std::collections::BinaryHeap;

/// A packet by how many bytes of its message are left, and by its number.
#[derive(Clone, Copy)]
#[derive_where(PartialEq, Eq, PartialOrd, Ord)]
pub(crate) struct Ranked {
    left: u32,
    number: u64,
    #[derive_where(skip)]
    packet: SimPacket,
}

// No packet begins at a later moment.
const MOST: u64 = 1 << 62;

/// The queue of a card or an output, the link behind it, and what was measured there since counting began anew.
#[derive(Drop)]
pub(crate) struct Outlet {
    order: Card,
    pub(crate) tally: QueueTally,
    port: Port<SimPacket>,
    ranked: BinaryHeap<Reverse<Ranked>>,
    link: Link,
    // For how long the link was taken when counting began anew.
    taken: u64,
    ghost eight: { length port.queues ≡ 8 },
    ghost byte_most: { link.byte ≤ 8000000 },
    ghost delay_most: { link.delay ≤ 1000000000000 },
}

impl Outlet {
    ghost use Rattle.experiment.specs.declared.network.Card.TheVariants.{Levels};
    ghost use Rattle.packet_network.specs.Outlets.{waiting_at, HasQueued};
    ghost use Rattle.packet_network.specs.Measures.{taken_ever, taken_to};

    /// Nothing waits.
    pub(crate) fn open(
        alloc: Global,
        network: &Network,
        order: Card,
        room: u64,
    ) -> Result<Outlet, AllocError>
        ensures empty { IfOk result (λ o. waiting_at o ≡ 0) }
        ensures room { IfOk result (λ o. o.port.room ≡ room) }
        ensures order { IfOk result (λ o. o.order ≡ order) }
    {
        Ok(Outlet {
            order,
            port: Port::open(alloc, room)?,
            ranked: BinaryHeap::new(alloc),
            link: Link::new(network.byte, network.delay),
            tally: QueueTally::new(),
            taken: 0,
        })
    }

    // The level of a packet here.
    fn level_of(&self, packet: &SimPacket) -> usize
        ensures inside { result < 8 }
        ensures levels { self.now.order ≡ Levels → result ≡ min packet.now.level 7 }
    {
        match self.order {
            Card::Levels => (packet.level as usize).min(LEVELS - 1),
            Card::Fifo | Card::Srpt => LEVELS - 1,
        }
    }

    /// How many bytes wait.
    pub(crate) fn bytes(&self) -> u64
        ensures { result ≡ self.now.tally.total.waiting }
    {
        self.tally.bytes()
    }

    /// Whether its link is free.
    pub(crate) fn is_free(&self, now: u64) -> bool
        ensures { result ≡ nat_le self.now.link.free now }
    {
        self.link.is_free(now)
    }

    // A packet is queued, or not where there is no room.
    #[tactic(auto, using(crate::proofs::StandingLaws::one_enters))]
    fn queue(&mut self, level: usize, packet: SimPacket) -> Result<bool, AllocError>
        requires { level < 8 }
        ensures { HasQueued self.old self.new packet.bytes result }
    {
        match self.order {
            Card::Fifo | Card::Levels => {
                let bytes = packet.bytes;
                self.port.enter(level, Waiting { packet, bytes })
            }
            Card::Srpt => {
                self.ranked.push(Reverse(Ranked {
                    left: packet.left,
                    number: packet.number,
                    packet,
                }))?;
                Ok(true)
            }
        }
    }

    /// A packet comes; false where there is no room.
    pub(crate) fn enter(&mut self, now: u64, packet: SimPacket) -> Result<bool, AllocError>
        ensures { HasQueued self.old self.new packet.bytes result }
    {
        let level = self.level_of(&packet);
        let bytes = packet.bytes;
        let mut packet = packet;
        packet.came = now;
        let fits = self.queue(level, packet)?;
        if fits {
            self.tally.comes(now, level, bytes);
        }
        Ok(fits)
    }

    // The packet that goes next.
    #[tactic(auto, using(crate::proofs::StandingLaws::one_leaves))]
    fn next(&mut self) -> Option<SimPacket>
        ensures some { IfSome result (λ _. waiting_at self.new + 1 ≡ waiting_at self.old) }
        ensures none { result ≡ None → waiting_at self.new ≡ waiting_at self.old }
        ensures link { self.new.link ≡ self.old.link }
    {
        match self.order {
            Card::Fifo | Card::Levels => {
                let (_level, waiting) = self.port.next()?;
                Some(waiting.packet)
            }
            Card::Srpt => {
                let Reverse(ranked) = self.ranked.pop()?;
                Some(ranked.packet)
            }
        }
    }

    /// The next packet begins, if its link is free and its moment isn't too late.
    pub(crate) fn begin(&mut self, now: u64) -> Option<(SimPacket, Passage)>
        ensures some { IfSome result (λ _. waiting_at self.new + 1 ≡ waiting_at self.old) }
        ensures none { result ≡ None → waiting_at self.new ≡ waiting_at self.old }
        ensures free { IfSome result (λ _. self.old.link.free ≤ now) }
        ensures left { IfSome result (λ r. r.1.left ≡ now + self.old.link.byte * r.0.bytes) }
        ensures there { IfSome result (λ r. r.1.there < 2 ^ 63) }
        ensures taken { IfSome result (λ r. self.new.link.free ≡ r.1.left) }
    {
        if now >= MOST || !self.link.is_free(now) {
            return None;
        }
        let packet = self.next()?;
        let level = self.level_of(&packet);
        self.tally.goes(now, level, packet.bytes, packet.wait(now));
        Some((packet, self.link.pass(now, packet.bytes)))
    }

    // For how long the link was taken up to a moment.
    fn taken_to(&self, now: u64) -> u64
        ensures value { result ≡ taken_ever now self.now }
        ensures within { result ≤ now }
    {
        self.link
            .taken()
            .saturating_sub(self.link.free().saturating_sub(now))
    }

    /// For how long the link was taken up to a moment, since counting began anew.
    pub(crate) fn taken(&self, now: u64) -> u64
        ensures value { result ≡ taken_to now self.now }
        ensures within { result ≤ now }
    {
        self.taken_to(now).saturating_sub(self.taken)
    }

    /// Counting begins anew.
    pub(crate) fn restart(&mut self, now: u64)
        ensures waiting { waiting_at self.new ≡ waiting_at self.old }
        ensures link { self.new.link ≡ self.old.link }
    {
        self.taken = self.taken_to(now);
        self.tally.restart(now);
    }
}
