// The frames that a step sends.
ghost use Rattle.std.specs.Prelude.{◌≡◌, ◌+◌, ◌<◌, ◌≤◌, ◌++◌, ◌∷◌, [], length, IfOk, slice_get, IsTrue, ◌↔◌, IfSome};
ghost use Rattle.homa_plain.specs.Wire.{IsWellFormed, spelling};
ghost use Rattle.host_view.specs.declared.outbox.SentFrame.{SentFrame};

use homa_plain::{Frame, HostId, Packet};
use homa_wire::encode;
use std::alloc::{AllocError, Global};
use std::marker::Model;

/// The most frames of a step.
const MOST_FRAMES: u32 = 64;

/// A datagram on its way from one host to another.
#[derive(Debug, PartialEq, Eq, Drop)]
pub struct SentFrame {
    pub from: HostId,
    pub to: HostId,
    pub frame: Frame,
}

/// The frames of a host's last step, at most 64, each with its sender and its receiver. Contracts see a list.
#[derive(Drop)]
pub struct Outbox {
    // Room for 64 frames, of which the first `len` are those of the step.
    room: Vec<SentFrame>,
    len: u32,
}

impl Model for Outbox {
    ghost use Rattle.std.specs.Prelude.{◌≡◌, ◌≤◌, List, take, vec_len};
    ghost use Rattle.host_view.specs.declared.outbox.SentFrame.{SentFrame};

    ghost Value = { List SentFrame };

    ghost view = { λ o. take o.len o.room.items };

    ghost invariant = { λ o. (vec_len o.room ≡ 64) × (o.len ≤ 64) };
}

impl Outbox {
    /// An outbox without frames, with room for 64. Only this takes memory.
    pub fn new(alloc: Global) -> Result<Outbox, AllocError>
        ensures { IfOk result (λ outbox. outbox ≡ []) }
    {
        let mut room = Vec::with_capacity(alloc, MOST_FRAMES as usize)?;
        for _ in 0..MOST_FRAMES {
            room.push(SentFrame {
                from: HostId(0),
                to: HostId(0),
                frame: Frame::empty(),
            })?;
        }
        Ok(Outbox { room, len: 0 })
    }

    /// How many frames there are, at most 64.
    pub fn len(&self) -> usize
        ensures len { result ≡ length self.now }
        ensures few { result ≤ 64 }
    {
        self.len as usize
    }

    /// Whether there is no frame.
    pub fn is_empty(&self) -> bool
        ensures { IsTrue result ↔ (self.now ≡ []) }
    {
        self.len == 0
    }

    /// The bytes of the frame with this number, counted from 0.
    pub fn bytes(&self, i: usize) -> &[u8]
        requires { i < length self.now }
        ensures { IfSome (slice_get self.now i) (λ f. result.now ≡ f.frame) }
    {
        self.room[i].frame.bytes()
    }

    /// The host that sent the frame with this number.
    pub fn sender(&self, i: usize) -> HostId
        requires { i < length self.now }
        ensures { IfSome (slice_get self.now i) (λ f. result ≡ f.from) }
    {
        self.room[i].from
    }

    /// The host that the frame with this number was sent to.
    pub fn receiver(&self, i: usize) -> HostId
        requires { i < length self.now }
        ensures { IfSome (slice_get self.now i) (λ f. result ≡ f.to) }
    {
        self.room[i].to
    }

    /// Drops all frames.
    pub fn clear(&mut self)
        ensures { self.new ≡ [] }
    {
        self.len = 0;
    }

    /// Puts the datagram of a packet, in version `wire`, after the others. Its bytes are written once.
    pub fn push(&mut self, from: HostId, to: HostId, packet: &Packet, wire: u32, payload: &[u8])
        requires room { length self.old < 64 }
        requires formed { IsWellFormed wire packet.now payload.now }
        ensures { self.new ≡ self.old ++ record { from = from; to = to; frame = spelling wire packet.now payload.now } ∷ [] }
    {
        let sent = &mut self.room[self.len as usize];
        sent.from = from;
        sent.to = to;
        encode(packet, wire, payload, &mut sent.frame);
        self.len += 1;
    }
}
