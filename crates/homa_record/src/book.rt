// What is kept of a run.
ghost use Rattle.std.specs.Prelude.{◌≡◌, ◌≤◌, ◌+◌, ◌==◌, ◌++◌, ◌∷◌, [], if◌then◌else◌, OnOk};
ghost use Rattle.std.specs.Option.{option_map, ForSome};
ghost use Rattle.homa_plain.specs.Settings.{IsValid};
ghost use Rattle.homa_plain.specs.Wire.{IsWellFormed, spelling};
ghost use Rattle.homa_plain.specs.World.{last_tick};
ghost use Rattle.homa_plain.specs.Entries.{PlainSettings, PlainClock};
ghost use Rattle.node_runs.specs.Course.{Tells};
ghost use Rattle.node_runs.specs.Recorder.{no_notes, keeps, kept, kind_in};
ghost use Rattle.homa_record.specs.Store.{tick_of};
ghost use Rattle.homa_record.specs.Seen.{dated};

use crate::store::Store;
use homa_plain::{Frame, HostId, Packet, Settings};
use homa_wire::{decode, encode};
use std::alloc::{AllocError, Global};

/// What a datagram that comes is.
#[derive(Clone, Copy)]
pub(crate) enum Kind {
    /// The packet with this number, which was sent.
    Sent(u64),
    /// No packet.
    Junk,
    /// A packet that its sender, in this run, didn't send to this host within `life`.
    Strange,
}

/// The tick, the settings once they were told, and the datagrams that may still be delivered.
#[derive(Drop)]
pub(crate) struct Book {
    alloc: Global,
    settings: Option<Settings>,
    store: Store,
    ghost valid: { ForSome settings IsValid },
    ghost most: { tick_of store ≤ last_tick },
}

// The clock of a packet that is sent at this tick: version 1 has none.
fn clock_of(settings: &Settings, tick: u64) -> u64
    requires valid { IsValid settings.now }
    requires most { tick ≤ last_tick }
    ensures { result ≡ (if settings.now.wire == 1 then 0 else tick + settings.now.skew) }
{
    if settings.wire == 1 {
        return 0;
    }
    tick + u64::from(settings.skew)
}

// The datagram of a packet that is sent at this tick.
fn frame_of(settings: &Settings, tick: u64, packet: Packet, payload: &[u8]) -> Frame
    requires valid { IsValid settings.now }
    requires most { tick ≤ last_tick }
    requires formed { IsWellFormed 1 packet payload.now }
    ensures { result ≡ spelling settings.now.wire (dated settings.now tick packet) payload.now }
{
    let mut packet = packet;
    packet.at = clock_of(settings, tick);
    let mut frame = Frame::empty();
    encode(&packet, settings.wire, payload, &mut frame);
    frame
}

impl Book {
    ghost use Rattle.homa_record.specs.Notes.{noted, kind_seen};

    /// Nothing is kept. It takes no memory yet.
    pub(crate) fn new(alloc: Global) -> Book
        ensures { noted result ≡ no_notes }
    {
        Book {
            alloc,
            settings: None,
            store: Store::new(alloc),
        }
    }

    /// The tick of the clock.
    pub(crate) fn tick(&self) -> u64
        ensures { result ≡ (noted self.now).tick }
    {
        self.store.tick()
    }

    /// The settings of the run are told.
    #[tactic(auto, unfolding(node_runs::specs::Recorder::kept))]
    pub(crate) fn settle(&mut self, settings: &Settings)
        requires { IsValid settings.now }
        ensures { noted self.new ≡ kept (noted self.old) (Tells (PlainSettings settings.now)) }
    {
        self.settings = Some(*settings);
    }

    /// The clock stands at a tick. Datagrams whose life is over are given up.
    #[tactic(auto, unfolding(node_runs::specs::Recorder::kept))]
    pub(crate) fn go_on(&mut self, now: u64)
        requires { now ≤ last_tick }
        ensures { noted self.new ≡ kept (noted self.old) (Tells (PlainClock now)) }
    {
        self.store.go_on(now);
        if let Some(settings) = self.settings {
            self.store.give_up(settings.life);
        }
    }

    // A datagram is sent.
    fn put(&mut self, number: u64, from: HostId, to: HostId, bytes: &[u8]) -> Result<(), AllocError>
        ensures { OnOk result (noted self.new
            ≡ record (noted self.old) {
              datagrams = (noted self.old).datagrams
                  ++ record { number = number; from = from; to = to; tick = (noted self.old).tick; bytes = bytes.now } ∷ [];
            }) }
    {
        let bytes = Vec::from_slice(self.alloc, bytes)?;
        self.store.push(number, from, to, bytes)
    }

    /// A packet is sent, whose clock is set here.
    pub(crate) fn keep(
        &mut self,
        number: u64,
        from: HostId,
        to: HostId,
        packet: Packet,
        payload: &[u8],
    ) -> Result<(), AllocError>
        requires { IsWellFormed 1 packet payload.now }
        ensures { OnOk result (noted self.new
            ≡ keeps (noted self.old).settings number from to (λ s. spelling s.wire (dated s (noted self.old).tick packet) payload.now) (noted self.old)) }
    {
        match self.settings {
            None => Ok(()),
            Some(settings) => {
                let frame = frame_of(&settings, self.store.tick(), packet, payload);
                self.put(number, from, to, frame.bytes())
            }
        }
    }

    /// What a datagram is that comes to a host. Nothing before the settings were told.
    #[tactic(auto, unfolding(node_runs::specs::Recorder::kind_of))]
    pub(crate) fn kind(&self, host: HostId, from: HostId, bytes: &[u8]) -> Option<Kind>
        ensures { option_map kind_seen result ≡ kind_in (noted self.now) host from bytes.now }
    {
        let Some(settings) = self.settings else {
            return None;
        };
        if let Some(number) = self.store.find(host, from, bytes) {
            return Some(Kind::Sent(number));
        }
        match decode(bytes, settings.wire) {
            None => Some(Kind::Junk),
            Some(_) => Some(Kind::Strange),
        }
    }
}
