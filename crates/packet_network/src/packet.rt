// A packet under way.
ghost use Rattle.std.specs.Prelude.{◌≡◌, ◌≤◌, ◌<◌, ◌+◌, ◌-◌, ◌↔◌, IsTrue, false};

use crate::event::{Begun, Place};
use experiment::PacketName;
use homa_plain::HostId;

/// Why a packet is sent.
#[derive(Clone, Copy, Debug, PartialEq, Eq)]
pub enum PacketCause {
    /// Bytes of a message for the first time.
    First,
    /// Bytes of a message that were sent before.
    Again,
    /// A packet without bytes of a message.
    Control,
}

/// Which bytes of which message a packet has: the call by its place in the list of calls, the message's length, the first byte,
/// and how many.
#[derive(Clone, Copy, Debug, PartialEq, Eq)]
pub struct Piece {
    pub call: u32,
    pub length: u32,
    pub offset: u32,
    pub len: u32,
    pub is_response: bool,
}

/// Up to which byte of which message a packet grants: the call by its place in the list of calls.
#[derive(Clone, Copy, Debug, PartialEq, Eq)]
pub struct PieceGrant {
    pub call: u32,
    pub upto: u32,
    pub is_response: bool,
}

/// A packet under way.
#[derive(Clone, Copy, Debug, PartialEq, Eq)]
pub struct SimPacket {
    /// Its number in the world: packets that were sent later have higher ones.
    pub number: u64,
    /// The tick of its sending.
    pub tick: u64,
    /// When it came to the queue in which it waits, or waited last.
    pub came: u64,
    /// How many bytes it has on the wire.
    pub bytes: u32,
    /// How many bytes of its message are left, by which a card may order it.
    pub left: u32,
    pub name: PacketName,
    pub piece: Option<Piece>,
    pub grant: Option<PieceGrant>,
    pub from: HostId,
    pub to: HostId,
    pub level: u8,
    pub cause: PacketCause,
    ghost sender: { from.0 < 32 },
    ghost receiver: { to.0 < 32 },
}

impl Piece {
    /// Whether it has the last byte of a request.
    pub(crate) fn ends_request(&self) -> bool
        ensures { IsTrue result ↔ ((self.now.is_response ≡ false) × (self.now.length ≤ self.now.offset + self.now.len)) }
    {
        !self.is_response && u64::from(self.offset) + u64::from(self.len) >= u64::from(self.length)
    }
}

impl SimPacket {
    /// Its sender's card.
    pub(crate) fn sender(&self) -> Place
        ensures { result.host ≡ self.now.from.0 }
    {
        Place { host: self.from.0 }
    }

    /// Its receiver's output.
    pub(crate) fn receiver(&self) -> Place
        ensures { result.host ≡ self.now.to.0 }
    {
        Place { host: self.to.0 }
    }

    /// For how long it has waited in its queue.
    pub(crate) fn wait(&self, now: u64) -> u64
        ensures { result ≡ now - self.now.came }
    {
        now.saturating_sub(self.came)
    }

    /// It began to leave a queue.
    pub(crate) fn begun(&self, place: Place, now: u64) -> Begun
        ensures host { result.host.0 ≡ place.host }
        ensures piece { result.piece ≡ self.now.piece }
        ensures wait { result.wait ≡ now - self.now.came }
    {
        Begun {
            host: HostId(place.host),
            piece: self.piece,
            wait: self.wait(now),
        }
    }
}
