// What is kept of a packet.
ghost use Rattle.std.specs.Prelude.{◌≡◌};
ghost use Rattle.check_call.specs.Kept.{piece_of, piece_is_data, piece_is_unknown, piece_is_forgotten, piece_has_last};

use homa_plain::{Body, CallId, HostId, Role};

/// What a packet says, as far as a later line can show it: of DATA its message's size, the number of its first byte, and
/// how many bytes it has.
#[derive(Clone, Copy, Debug, PartialEq, Eq)]
pub enum Piece {
    Data { size: u32, offset: u32, len: u64 },
    Unknown { reason: u8 },
    Other,
}

impl Piece {
    /// Of a packet with so many bytes of payload.
    pub fn of(body: &Body, len: u64) -> Piece
        ensures { result ≡ piece_of body.now len }
    {
        match body {
            Body::Data { length, offset, .. } => Piece::Data {
                size: *length,
                offset: *offset,
                len,
            },
            Body::Unknown { reason } => Piece::Unknown { reason: *reason },
            _ => Piece::Other,
        }
    }

    /// It is DATA.
    pub fn is_data(self) -> bool
        ensures { result ≡ piece_is_data self }
    {
        match self {
            Piece::Data { .. } => true,
            _ => false,
        }
    }

    /// It is UNKNOWN.
    pub fn is_unknown(self) -> bool
        ensures { result ≡ piece_is_unknown self }
    {
        match self {
            Piece::Unknown { .. } => true,
            _ => false,
        }
    }

    /// It is UNKNOWN of a call that the server ran and forgot.
    pub fn is_forgotten(self) -> bool
        ensures { result ≡ piece_is_forgotten self }
    {
        match self {
            Piece::Unknown { reason } => reason == 1,
            _ => false,
        }
    }
}

/// A packet: from whom to whom, the sender's incarnation, its call, and what it says.
#[derive(Clone, Copy, Debug, PartialEq, Eq)]
pub struct Packet {
    pub from: HostId,
    pub to: HostId,
    pub inc: u32,
    pub role: Role,
    pub id: CallId,
    pub piece: Piece,
}

impl Packet {
    /// Whether it is a piece of a request of n bytes with the last of them.
    pub fn has_last(&self, n: usize) -> bool
        ensures { result ≡ piece_has_last n self.now.role self.now.piece }
    {
        match self.piece {
            Piece::Data { offset, len, .. } => {
                self.role == Role::Client
                    && u64::from(offset) < n as u64
                    && n as u64 <= u64::from(offset).saturating_add(len)
            }
            _ => false,
        }
    }
}
