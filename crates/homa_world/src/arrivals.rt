// Events that bring a datagram to a host.
ghost use Rattle.std.specs.Prelude.{◌≡◌, ◌≤◌, ◌==◌, ℕ, Some, IfOk, IfErr, OnOk, OnErr, [], ◌∷◌, slice_get};
ghost use Rattle.homa_plain.specs.Entries.{PlainDeliver};
ghost use Rattle.homa_plain.specs.World.{stranger as plain_stranger};
ghost use Rattle.homa_plain.specs.Replay.{bare};
ghost use Rattle.homa_plain.specs.declared.event.Event.TheVariants as event;
ghost use Rattle.world_packets.specs.All.{kept_all};
ghost use Rattle.world_packets.specs.Kept.{StalePacket};
ghost use Rattle.world_packets.specs.Olds.{TellsClock};
ghost use Rattle.homa_world.specs.declared.parts.Last.TheVariants as last;
ghost use Rattle.homa_world.specs.Arrived.{HasArrived};
ghost use Rattle.homa_world.specs.Happened.{MayHappen, HasMadeRoom, NothingHappened, HasHappened};
ghost use Rattle.homa_world.specs.Standing.{Refuses};

use crate::parts::{First, WorldParts, clock_of};
use homa_plain::{Body, Frame, HostId, LAST_HOST_TICK, Packet, Role, Settings, WorldFault};
use homa_service::Service;
use homa_wire::{decode, encode};
use std::alloc::{AllocError, Global};
use world_packets::Kept;

impl<S: Service> WorldParts<S> {
    /// The packet with this number comes to its receiver.
    pub fn deliver(&mut self, alloc: Global, number: u64) -> Result<(), WorldFault>
        requires { MayHappen S.served self.old }
        ensures { HasHappened S.served S.allows (bare (event.Deliver number)) self.old self.new result }
    {
        if self.make_room(alloc).is_err() {
            return Err(WorldFault::NoMemory);
        }
        let to = self.arrive(alloc, number)?;
        self.finish(to, First::Delivered(number));
        Ok(())
    }

    // What is kept of a packet comes to its receiver, which answers; or why it can't.
    fn arrive(&mut self, alloc: Global, number: u64) -> Result<HostId, WorldFault>
        requires may { MayHappen S.served self.old }
        requires none { self.old.last ≡ last.Nothing }
        ensures came { IfOk result (λ to. HasArrived S.served S.allows (event.Deliver number) [] (PlainDeliver number ∷ []) to self.old self.new.stage) }
        ensures fault { IfErr result (Refuses self.old (bare (event.Deliver number))) }
        ensures same { self.new ≡ record self.old { stage = self.new.stage } }
        ensures none { OnErr result (NothingHappened S.served S.allows self.old self.new) }
    {
        let (to, at) = match self.packets.get(number) {
            None => return Err(WorldFault::NoSuchPacket),
            Some(Kept::Late { tick }) => {
                return Err(WorldFault::Late {
                    sent: tick,
                    now: self.clock,
                });
            }
            Some(
                Kept::Whole {
                    tick,
                    from,
                    to,
                    bytes,
                },
            ) => {
                if self.settings.is_late(tick, self.clock) {
                    return Err(WorldFault::Late {
                        sent: tick,
                        now: self.clock,
                    });
                }
                if !self.stage.has(to) {
                    return Err(WorldFault::NoSuchHost);
                }
                let now = clock_of(self.clock, &self.leads, to);
                return match self.stage.deliver(alloc, from, to, bytes, now) {
                    Ok(()) => Ok(to),
                    Err(_) => Err(WorldFault::NoMemory),
                };
            }
            Some(Kept::Stale { to, at }) => (to, at),
        };
        self.stale_comes(alloc, to, at)?;
        Ok(to)
    }

    // A packet comes of which it is known that it is stale: its receiver tells no more of it than its sender's clock.
    fn stale_comes(&mut self, alloc: Global, to: HostId, at: u64) -> Result<(), WorldFault>
        requires may { MayHappen S.served self.old }
        requires none { self.old.last ≡ last.Nothing }
        requires at { at ≤ LAST_HOST_TICK }
        ensures came { OnOk result ((n : ℕ) → slice_get (kept_all self.old.packets) n ≡ Some (StalePacket to at)
            → HasArrived S.served S.allows (event.Deliver n) [] (PlainDeliver n ∷ []) to self.old self.new.stage) }
        ensures fault { IfErr result (λ fault. (n : ℕ) → slice_get (kept_all self.old.packets) n ≡ Some (StalePacket to at)
            → Refuses self.old (bare (event.Deliver n)) fault) }
        ensures same { self.new ≡ record self.old { stage = self.new.stage } }
        ensures none { OnErr result (NothingHappened S.served S.allows self.old self.new) }
    {
        if !self.stage.has(to) {
            return Err(WorldFault::NoSuchHost);
        }
        let now = self.own_clock(to);
        let frame = stale_frame(at);
        match self
            .stage
            .deliver(alloc, stranger(to), to, frame.bytes(), now)
        {
            Ok(()) => Ok(()),
            Err(_) => Err(WorldFault::NoMemory),
        }
    }

    /// A datagram that no host sent comes to a host.
    pub fn inject(&mut self, alloc: Global, host: HostId, bytes: &[u8]) -> Result<(), WorldFault>
        requires { MayHappen S.served self.old }
        ensures { HasHappened S.served S.allows (record { event = event.Inject host; bytes = bytes.now }) self.old self.new result }
    {
        if !self.stage.has(host) {
            return Err(WorldFault::NoSuchHost);
        }
        if decode(bytes, self.settings.wire).is_some() {
            return Err(WorldFault::Decodes);
        }
        if self.keep_injected(alloc, bytes).is_err() {
            return Err(WorldFault::NoMemory);
        }
        let now = self.own_clock(host);
        let came = self
            .stage
            .deliver(alloc, stranger(host), host, &self.injected, now);
        if came.is_err() {
            return Err(WorldFault::NoMemory);
        }
        self.finish(host, First::Injected);
        Ok(())
    }

    // Room for the packets of a step, and the datagram is kept for its entry.
    fn keep_injected(&mut self, alloc: Global, bytes: &[u8]) -> Result<(), AllocError>
        requires { MayHappen S.served self.old }
        ensures room { HasMadeRoom S.served self.old self.new result }
        ensures same { self.new ≡ record self.old { packets = self.new.packets; injected = self.new.injected; last = last.Nothing } }
        ensures bytes { OnOk result (self.new.injected.items ≡ bytes.now) }
    {
        self.take_room(alloc)?;
        self.injected.clear();
        self.injected.extend_from_slice(bytes)
    }
}

// Whom a datagram that no host sent seems to come from.
fn stranger(host: HostId) -> HostId
    ensures { result ≡ plain_stranger host }
{
    if host.0 == 0 { HostId(1) } else { HostId(0) }
}

// A datagram of version 2 that tells this clock of its sender, and no more.
fn stale_frame(at: u64) -> Frame
    requires { at ≤ LAST_HOST_TICK }
    ensures { TellsClock result at }
{
    let packet = Packet {
        role: Role::Client,
        level: 7,
        sender: 1,
        inc: 1,
        seq: 0,
        at,
        body: Body::Busy,
    };
    let mut frame = Frame::empty();
    encode(&packet, 2, &[], &mut frame);
    frame
}
