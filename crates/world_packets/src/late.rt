// All packets that are late for good.
ghost use Rattle.std.specs.Prelude.{◌≡◌, ◌<◌, ◌+◌, ◌-◌, ◌++◌, ◌^◌, [], true, Some, length, replicate, slice_get, nat_le, OnOk, OnErr};
ghost use Rattle.world_packets.specs.declared.late_ticks.LateTicks.{LateTicks};
ghost use Rattle.world_packets.specs.Kept.{LatePacket};
ghost use Rattle.world_packets.specs.Firsts.{firsts_at};
ghost use Rattle.world_packets.specs.Lates.{late_of};

use crate::late_ticks::LateTicks;
use std::alloc::{AllocError, Global};
use std::mem::replace;

/// All packets that are late for good, from number 0 on.
#[derive(Drop)]
pub(crate) struct Lates {
    pub(crate) full: Vec<LateTicks>,
    pub(crate) latest: LateTicks,
    ghost firsts: { firsts_at (λ (t : LateTicks). t.first) late_of 0 full.items latest.first ≡ true },
}

impl Lates {
    ghost use Rattle.world_packets.specs.Firsts.{IsIn};
    ghost use Rattle.world_packets.specs.Past.{lates_kept};

    /// Opens an empty store of packets. Takes no memory.
    pub(crate) fn open(alloc: Global) -> Lates
        ensures { lates_kept result ≡ [] }
    {
        Lates {
            full: Vec::new(alloc),
            latest: LateTicks::open(0, 0, 0),
        }
    }

    /// How many packets there are.
    pub(crate) fn len(&self) -> u64
        ensures { result ≡ length (lates_kept self.now) }
    {
        self.latest.end()
    }

    /// Adds so many packets of this tick; after an error nothing is added.
    pub(crate) fn push(&mut self, tick: u64, count: u64) -> Result<(), AllocError>
        requires { length (lates_kept self.old) + count < 2 ^ 64 }
        ensures more { OnOk result (lates_kept self.new ≡ lates_kept self.old ++ replicate count (LatePacket tick)) }
        ensures same { OnErr result (lates_kept self.new ≡ lates_kept self.old) }
    {
        if self.latest.push(tick, count) {
            return Ok(());
        }
        self.full.reserve(1)?;
        let next = LateTicks::open(self.latest.end(), tick, count);
        let full = replace(&mut self.latest, next);
        self.full.push(full).unwrap();
        Ok(())
    }

    /// The tick of the packet with this number.
    pub(crate) fn get(&self, n: u64) -> u64
        requires { n < length (lates_kept self.now) }
        ensures { slice_get (lates_kept self.now) n ≡ Some (LatePacket result) }
    {
        if n >= self.latest.first {
            return self.latest.get(n - self.latest.first);
        }
        let ticks = self.find(n);
        ticks.get(n - ticks.first)
    }

    // The ticks in which the packet with this number was sent.
    fn find(&self, n: u64) -> &LateTicks
        requires { n < self.now.latest.first }
        ensures { IsIn (λ t. t.first) late_of self.now.full.items 0 n result.now }
    {
        let place = self.full.as_slice().partition_point(
            |ticks: &LateTicks| -> bool
                ensures { result ≡ nat_le ticks.now.first n }
            { ticks.first <= n },
        );
        &self.full[place - 1]
    }
}
