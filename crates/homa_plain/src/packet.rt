// Packets.
ghost use Rattle.std.specs.Prelude.{◌≡◌, ◌<◌, ◌≤◌, [], ◌∷◌, ◌++◌, length};
ghost use Rattle.homa_plain.specs.Kinds.{body_kind, kind_number, kind_name};
ghost use Rattle.homa_plain.specs.Wire.{is_client};

use crate::id::{CallId, HostId};
use arrayvec::ArrayVec;
use std::marker::Model;

/// Who sent a packet: the client of its call, or the server.
#[derive(Clone, Copy, Debug, PartialEq, Eq)]
pub enum Role {
    Client,
    Server,
}

impl Role {
    /// The client of a call sent the packet.
    pub fn is_of_client(self) -> bool
        ensures { result ≡ is_client self }
    {
        match self {
            Role::Client => true,
            Role::Server => false,
        }
    }
}

/// A receiver's cutoffs: `upto[i]` is the greatest length, in bytes, of a message that goes at level `i`
/// or above it; 0 at the levels of scheduled packets. Each is at most 1,000,000.
#[derive(Clone, Copy, Debug, PartialEq, Eq)]
pub struct Cutoffs {
    pub version: u16,
    pub upto: [u32; 8],
}

/// The further calls that an ACK names, at most four: each an incarnation and a sequence number of the sender.
/// Contracts see a list.
#[derive(Debug, PartialEq, Eq, Drop)]
pub struct More {
    calls: ArrayVec<(u32, u32), 4>,
}

impl Model for More {
    ghost use Rattle.std.specs.Prelude.{ℕ, List};

    ghost Value = { List (ℕ × ℕ) };

    ghost view = { λ m. m.calls.items };

    ghost inverse = { λ xs. record { calls = record { items = xs } } };
}

impl More {
    /// No further call, as in an ACK of one call.
    pub fn empty() -> More
        ensures { result ≡ [] }
    {
        More {
            calls: ArrayVec::new(),
        }
    }

    /// Adds a call after the others.
    pub fn push(&mut self, inc: u32, seq: u32)
        requires { length self.old < 4 }
        ensures { self.new ≡ self.old ++ (inc, seq) ∷ [] }
    {
        self.calls.push((inc, seq));
    }

    /// The calls, in the order in which they were added: at most four.
    pub fn calls(&self) -> &[(u32, u32)]
        ensures calls { result.now ≡ self.now }
        ensures few { length result.now ≤ 4 }
    {
        &self.calls
    }

    /// The same calls once more. It takes no memory.
    pub fn copied(&self) -> More
        ensures { result ≡ self.now }
    {
        let mut more = More::empty();
        for (inc, seq) in self.calls() {
            more.push(*inc, *seq);
        }
        more
    }
}

/// The kind of a packet.
#[derive(Clone, Copy, Debug, PartialEq, Eq)]
pub enum Kind {
    Data,
    Grant,
    Resend,
    Busy,
    Cutoffs,
    Unknown,
    NeedAck,
    Ack,
}

impl Kind {
    /// All kinds, by their numbers.
    pub const ALL: [Kind; 8] = [
        Kind::Data,
        Kind::Grant,
        Kind::Resend,
        Kind::Busy,
        Kind::Cutoffs,
        Kind::Unknown,
        Kind::NeedAck,
        Kind::Ack,
    ];

    /// The kind's number in a datagram: 1 to 8.
    pub fn number(self) -> u8
        ensures { result ≡ kind_number self }
    {
        match self {
            Kind::Data => 1,
            Kind::Grant => 2,
            Kind::Resend => 3,
            Kind::Busy => 4,
            Kind::Cutoffs => 5,
            Kind::Unknown => 6,
            Kind::NeedAck => 7,
            Kind::Ack => 8,
        }
    }

    /// The kind's word in a trace, as `NEED_ACK`.
    pub fn word(self) -> &'static [u8]
        ensures { result.now ≡ kind_name self }
    {
        match self {
            Kind::Data => b"DATA",
            Kind::Grant => b"GRANT",
            Kind::Resend => b"RESEND",
            Kind::Busy => b"BUSY",
            Kind::Cutoffs => b"CUTOFFS",
            Kind::Unknown => b"UNKNOWN",
            Kind::NeedAck => b"NEED_ACK",
            Kind::Ack => b"ACK",
        }
    }
}

/// What a packet says, by its kind.
#[derive(Debug, PartialEq, Eq, Drop)]
pub enum Body {
    /// A piece of a message of `length` bytes (1 to 1,000,000) from byte `offset` on. `version` is that of the
    /// cutoffs by which the sender chose the level. A request's DATA may carry the acknowledgement of a call.
    Data {
        length: u32,
        offset: u32,
        version: u16,
        service: u8,
        ack: Option<(u32, u32)>,
    },
    /// Bytes below `offset` (1 to 1,000,000) may be sent, at level `prio` (0 to 7).
    Grant {
        offset: u32,
        prio: u8,
    },
    /// The bytes from `from` to `to` - 1 are missing, and are to be sent at level `prio` (0 to 7).
    Resend {
        from: u32,
        to: u32,
        prio: u8,
    },
    /// There is nothing to send now: be patient.
    Busy,
    /// The sender's cutoffs, with their version.
    Cutoffs(Cutoffs),
    /// The server has no record of the call (reason 0), or ran and forgot it (reason 1).
    Unknown {
        reason: u8,
    },
    /// The server asks whether the response has arrived.
    NeedAck,
    /// The packet's call and `more` calls of its client are finished.
    Ack {
        more: More,
    },
}

impl Body {
    /// The packet's kind.
    pub fn kind(&self) -> Kind
        ensures { result ≡ body_kind self.now }
    {
        match self {
            Body::Data { .. } => Kind::Data,
            Body::Grant { .. } => Kind::Grant,
            Body::Resend { .. } => Kind::Resend,
            Body::Busy => Kind::Busy,
            Body::Cutoffs(_) => Kind::Cutoffs,
            Body::Unknown { .. } => Kind::Unknown,
            Body::NeedAck => Kind::NeedAck,
            Body::Ack { .. } => Kind::Ack,
        }
    }

    /// The same once more. It takes no memory, so it can't fail as `Clone` may.
    pub fn copied(&self) -> Body
        ensures { result ≡ self.now }
    {
        match self {
            Body::Data {
                length,
                offset,
                version,
                service,
                ack,
            } => Body::Data {
                length: *length,
                offset: *offset,
                version: *version,
                service: *service,
                ack: *ack,
            },
            Body::Grant { offset, prio } => Body::Grant {
                offset: *offset,
                prio: *prio,
            },
            Body::Resend { from, to, prio } => Body::Resend {
                from: *from,
                to: *to,
                prio: *prio,
            },
            Body::Busy => Body::Busy,
            Body::Cutoffs(cutoffs) => Body::Cutoffs(*cutoffs),
            Body::Unknown { reason } => Body::Unknown { reason: *reason },
            Body::NeedAck => Body::NeedAck,
            Body::Ack { more } => Body::Ack {
                more: more.copied(),
            },
        }
    }
}

/// A packet without its payload. It says who sent it (`role`, and the sender's incarnation, at least 1), at which level
/// (0 to 7; 7 but for DATA) and of which call (`inc` at least 1 and `seq`). `at` is the sender's own clock at the
/// sending, and 0 in version 1.
#[derive(Debug, PartialEq, Eq, Drop)]
pub struct Packet {
    pub role: Role,
    pub level: u8,
    pub sender: u32,
    pub inc: u32,
    pub seq: u32,
    pub at: u64,
    pub body: Body,
}

impl Packet {
    /// The packet's call, where its client is this host.
    pub fn call(&self, client: HostId) -> CallId
        ensures { result ≡ record { client = client; inc = self.now.inc; seq = self.now.seq } }
    {
        CallId {
            client,
            inc: self.inc,
            seq: self.seq,
        }
    }
}
