//! The queues of all hosts, and their generator.
ghost use Rattle.std.specs.Prelude.{◌≡◌, ◌<◌, ◌≤◌, map, length, IfOk};
ghost use Rattle.homa_plain.specs.Settings.{IsValid};
ghost use Rattle.generated_runs.specs.Draws.{seeded, next_traffic};
ghost use Rattle.generated_runs.specs.Fabric.{new_fabric, destination, sent, refilled, next_of, after_next};
ghost use Rattle.homa_fabric.specs.Draws.{plain_traffic};

use crate::draws::{Traffic, next_traffic};
use crate::inbound::Destination;
use crate::queued::Queued;
use homa_plain::{HostId, Settings};
use rand_pcg::Lcg64Xsh32;
use std::alloc::{AllocError, Global};
use std::marker::Model;

/// The stream of the generator.
const STREAM: u64 = 54;

/// What is on its way between hosts, with the generator that decides on it.
#[derive(Drop)]
pub struct Fabric {
    destinations: Vec<Destination>,
    random: Lcg64Xsh32,
    life: u32,
}

impl Model for Fabric {
    ghost use Rattle.std.specs.Prelude.{◌≤◌, length};
    ghost use Rattle.homa_fabric.specs.Seen.{Seen};

    ghost Value = { Seen };

    ghost view = { λ f. record { fabric = record { destinations = f.destinations.items; random = f.random }; life = f.life } };

    ghost invariant = { λ f. (2 ≤ length f.destinations.items) × (length f.destinations.items ≤ 32) };
}

impl Fabric {
    /// Nothing is on its way between the hosts of these settings. Fails where memory runs out; nothing else here takes
    /// memory.
    pub fn open(alloc: Global, settings: &Settings, seed: u64) -> Result<Fabric, AllocError>
        requires { IsValid settings.now }
        ensures fabric { IfOk result (λ f. f.fabric ≡ new_fabric settings.now.hosts (seeded seed)) }
        ensures life { IfOk result (λ f. f.life ≡ settings.now.life) }
        ensures hosts { IfOk result (λ f. length f.fabric.destinations ≡ settings.now.hosts) }
    {
        let mut destinations = Vec::with_capacity(alloc, settings.hosts as usize)?;
        for _ in 0..settings.hosts {
            destinations.push(Destination::open(alloc)?)?;
        }
        Ok(Fabric {
            destinations,
            random: Lcg64Xsh32::new(seed, STREAM),
            life: settings.life,
        })
    }

    /// A packet of `len` bytes is sent at a tick: it enters the queue of its receiver and level, or is lost where that
    /// is full, or isn't there.
    pub fn sent(&mut self, number: u64, to: HostId, level: u8, len: u32, tick: u64)
        ensures sent { self.new.fabric ≡ sent self.old.fabric to.0 level (record { number = number; size = len; tick = tick }) }
        ensures life { self.new.life ≡ self.old.life }
        ensures hosts { length self.new.fabric.destinations ≡ length self.old.fabric.destinations }
    {
        if usize::from(to.0) < self.destinations.len() {
            let destination = &mut self.destinations[to.0 as usize];
            destination.enter(
                level,
                Queued {
                    number,
                    size: len,
                    tick,
                },
            );
        }
    }

    /// A round begins: each host may be handed as many bytes as in each round.
    pub fn begin(&mut self)
        ensures destinations { self.new.fabric.destinations ≡ map refilled self.old.fabric.destinations }
        ensures random { self.new.fabric.random ≡ self.old.fabric.random }
        ensures life { self.new.life ≡ self.old.life }
        ensures hosts { length self.new.fabric.destinations ≡ length self.old.fabric.destinations }
    {
        for destination in self.destinations.iter_mut() {
            destination.refill();
        }
    }

    /// The number of the packet that a host is handed next, at the tick `now`; None where its round ends.
    pub fn next(&mut self, to: HostId, now: u64) -> Option<u64>
        requires { to.0 < length self.old.fabric.destinations }
        ensures number { let h = next_of self.old.life now (destination self.old.fabric to.0) self.old.fabric.random in result ≡ h.number }
        ensures fabric { let h = next_of self.old.life now (destination self.old.fabric to.0) self.old.fabric.random in self.new.fabric
            ≡ after_next self.old.fabric to.0 h }
        ensures life { self.new.life ≡ self.old.life }
        ensures hosts { length self.new.fabric.destinations ≡ length self.old.fabric.destinations }
    {
        let destination = &mut self.destinations[to.0 as usize];
        destination.next(self.life, now, &mut self.random)
    }

    /// The next call that is to be made, with a request of 1 to 100,000 bytes.
    pub fn traffic(&mut self) -> Traffic
        ensures drawn { (plain_traffic result, self.new.fabric.random) ≡ next_traffic (length self.old.fabric.destinations) self.old.fabric.random }
        ensures destinations { self.new.fabric.destinations ≡ self.old.fabric.destinations }
        ensures life { self.new.life ≡ self.old.life }
        ensures client { result.client.0 < length self.old.fabric.destinations }
        ensures server { result.server.0 < length self.old.fabric.destinations }
        ensures some { 1 ≤ result.len }
        ensures most { result.len ≤ 100000 }
    {
        next_traffic(&mut self.random, self.destinations.len() as u32)
    }
}
