// The parts of a world, and what each event does with them.
ghost use Rattle.std.specs.Prelude.{◌≡◌, ◌≤◌, ◌<◌, ◌+◌, ◌^◌, ◌++◌, map, length, slice_index_or};
ghost use Rattle.std.specs.List.{AllByRecursion};
ghost use Rattle.homa_plain.specs.Replay.{bare};
ghost use Rattle.homa_plain.specs.declared.event.Event.TheVariants as event;
ghost use Rattle.world_packets.specs.All.{kept_all, settings_of, open_tick, HasRoomFor};
ghost use Rattle.homa_world.specs.declared.parts.Last.TheVariants as last;
ghost use Rattle.host_table.specs.Staged.{frames_of};
ghost use Rattle.homa_world.specs.Packed.{frame_kept, IsShort};
ghost use Rattle.homa_world.specs.Happened.{MayHappen, HasMadeRoom, HasHappened};

use homa_plain::{HostId, LAST_TICK, Settings, WorldFault};
use homa_service::Service;
use host_table::Stage;
use host_view::Outbox;
use std::alloc::{AllocError, Global};
use world_packets::Packets;

/// What the last event was, as far as its entries need it.
#[derive(Clone, Copy)]
pub enum Last {
    /// Nothing is told: there was none yet, or one was refused.
    Nothing,
    /// The clock went on.
    Ticked,
    /// A host restarted, in this incarnation.
    Restarted {
        host: HostId,
        inc: u32,
    },
    /// A host's own clock was set to be `n` ticks ahead.
    Shifted {
        host: HostId,
        n: u32,
    },
    /// A host did a step, whose packets have the numbers from `base` on.
    Stepped {
        host: HostId,
        first: First,
        base: u64,
    },
}

/// What stands before the entries of a host's step.
#[derive(Clone, Copy)]
pub enum First {
    /// Nothing: it was a call or a turn.
    Nothing,
    /// The delivery of the packet with this number.
    Delivered(u64),
    /// The injection of a datagram that no host sent.
    Injected,
}

/// All hosts, their clocks and the packets between them.
#[derive(Drop)]
pub struct WorldParts<S> {
    pub(crate) settings: Settings,
    pub(crate) clock: u64,
    // How far each host's own clock is ahead.
    pub(crate) leads: Vec<u32>,
    pub(crate) stage: Stage<S>,
    pub(crate) packets: Packets,
    // The datagram of the last event, if it was injected.
    pub(crate) injected: Vec<u8>,
    pub(crate) last: Last,
    // How many events were applied.
    pub(crate) applied: u64,
}

impl<S: Service> WorldParts<S> {
    // A host's own clock.
    pub(crate) fn own_clock(&self, host: HostId) -> u64
        requires clock { self.now.clock ≤ LAST_TICK }
        requires lead { host.0 < length self.now.leads.items }
        ensures { result ≡ self.now.clock + slice_index_or self.now.leads.items host.0 0 }
    {
        clock_of(self.clock, &self.leads, host)
    }

    /// The clock goes on by a tick.
    pub fn tick(&mut self) -> Result<(), WorldFault>
        requires { MayHappen S.served self.old }
        ensures { HasHappened S.served S.allows (bare event.Clock) self.old self.new result }
    {
        if self.clock == LAST_TICK {
            return Err(WorldFault::ClockEnd);
        }
        self.clock += 1;
        self.last = Last::Ticked;
        self.applied += 1;
        Ok(())
    }

    // Room for the packets of a step. Nothing is told any more of the last event.
    pub(crate) fn make_room(&mut self, alloc: Global) -> Result<(), AllocError>
        requires { MayHappen S.served self.old }
        ensures room { HasMadeRoom S.served self.old self.new result }
        ensures same { self.new ≡ record self.old { packets = self.new.packets; last = last.Nothing } }
    {
        if self.packets.is_ready(self.clock) {
            self.last = Last::Nothing;
            return Ok(());
        }
        self.take_room(alloc)
    }

    // The same, without a look at whether there is room already. It stands by itself so that `make_room` stays short.
    pub(crate) fn take_room(&mut self, alloc: Global) -> Result<(), AllocError>
        requires { MayHappen S.served self.old }
        ensures room { HasMadeRoom S.served self.old self.new result }
        ensures same { self.new ≡ record self.old { packets = self.new.packets; last = last.Nothing } }
    {
        self.last = Last::Nothing;
        self.packets.reserve(alloc, self.clock)
    }

    // The packets of a host's step are on their way.
    pub(crate) fn finish(&mut self, host: HostId, first: First)
        requires room { HasRoomFor self.old.packets 64 }
        requires short { AllByRecursion IsShort (frames_of self.old.stage) }
        requires few { self.old.applied < 2 ^ 57 }
        ensures same { self.new ≡ record self.old {
          packets = self.new.packets;
          last = last.Stepped host first
              (length (kept_all self.old.packets));
          applied = self.old.applied + 1;
        } }
        ensures sent { kept_all self.new.packets ≡ kept_all self.old.packets ++ map (frame_kept (open_tick self.old.packets)) (frames_of self.old.stage) }
        ensures settings { settings_of self.new.packets ≡ settings_of self.old.packets }
        ensures few { length (frames_of self.old.stage) ≤ 64 }
    {
        let base = self.packets.count();
        send_all(&mut self.packets, self.stage.outbox());
        self.last = Last::Stepped { host, first, base };
        self.applied += 1;
    }

    /// A turn of a host.
    pub fn turn(&mut self, alloc: Global, host: HostId) -> Result<(), WorldFault>
        requires { MayHappen S.served self.old }
        ensures { HasHappened S.served S.allows (bare (event.Turn host)) self.old self.new result }
    {
        if !self.stage.has(host) {
            return Err(WorldFault::NoSuchHost);
        }
        if self.make_room(alloc).is_err() {
            return Err(WorldFault::NoMemory);
        }
        let now = self.own_clock(host);
        self.stage.turn(host, now);
        self.finish(host, First::Nothing);
        Ok(())
    }

    /// A call of a service.
    pub fn call(
        &mut self,
        alloc: Global,
        client: HostId,
        server: HostId,
        number: u8,
        bytes: &[u8],
    ) -> Result<(), WorldFault>
        requires { MayHappen S.served self.old }
        ensures { HasHappened S.served S.allows (record { event = event.Call client server number; bytes = bytes.now }) self.old self.new result }
    {
        if !self.stage.has(server) {
            return Err(WorldFault::NoSuchHost);
        }
        if !self.stage.has(client) {
            return Err(WorldFault::NoSuchHost);
        }
        if self.make_room(alloc).is_err() {
            return Err(WorldFault::NoMemory);
        }
        let Ok(request) = Vec::from_slice(alloc, bytes) else {
            return Err(WorldFault::NoMemory);
        };
        let now = self.own_clock(client);
        if let Err(fault) = self.stage.call(client, server, number, request, now) {
            return Err(WorldFault::Start(fault));
        }
        self.finish(client, First::Nothing);
        Ok(())
    }
}

// A host's own clock.
pub(crate) fn clock_of(clock: u64, leads: &[u32], host: HostId) -> u64
    requires clock { clock ≤ LAST_TICK }
    requires lead { host.0 < length leads.now }
    ensures { result ≡ clock + slice_index_or leads.now host.0 0 }
{
    clock + u64::from(leads[host.0 as usize])
}

// Frames are sent.
fn send_all(packets: &mut Packets, outbox: &Outbox)
    requires room { HasRoomFor packets.old 64 }
    requires short { AllByRecursion IsShort outbox.now }
    ensures sent { kept_all packets.new ≡ kept_all packets.old ++ map (frame_kept (open_tick packets.old)) outbox.now }
    ensures settings { settings_of packets.new ≡ settings_of packets.old }
    ensures few { length outbox.now ≤ 64 }
{
    for i in 0..outbox.len() {
        let (from, to) = (outbox.sender(i), outbox.receiver(i));
        packets.push(from, to, outbox.bytes(i));
    }
}
