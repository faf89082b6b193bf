// What a packet says of its call.
ghost use Rattle.std.specs.Prelude.{◌≡◌, None, Some};

use experiment::PacketName;
use packet_network::{PacketCause, Piece, PieceGrant};

/// What a packet says of its call: which bytes of a message it has or which grant, how it is counted, by which name it is drawn for,
/// and how many bytes of its message are left.
#[derive(Clone, Copy, Debug, PartialEq, Eq)]
pub(crate) struct PacketMark {
    pub(crate) piece: Option<Piece>,
    pub(crate) grant: Option<PieceGrant>,
    pub(crate) cause: PacketCause,
    pub(crate) name: PacketName,
    pub(crate) left: u32,
}

// The kinds of names, beside 0 and 1: a piece of a request and of a response that is sent for the first time.
const AGAIN: u32 = 2;

const CONTROL: u32 = 4;

impl PacketMark {
    /// That of a packet without a piece, of a call by the order in which calls were drawn.
    pub(crate) fn control(drawn: u32, times: u32, grant: Option<PieceGrant>) -> PacketMark
        ensures piece { result.piece ≡ None }
        ensures grant { result.grant ≡ grant }
    {
        PacketMark {
            piece: None,
            grant,
            cause: PacketCause::Control,
            name: PacketName {
                call: drawn,
                kind: CONTROL,
                offset: 0,
                times,
            },
            left: 0,
        }
    }

    /// That of a piece. Where it was sent before, so many packets of its message were.
    pub(crate) fn piece(drawn: u32, times: Option<u32>, piece: Piece) -> PacketMark
        ensures piece { result.piece ≡ Some piece }
        ensures grant { result.grant ≡ None }
    {
        let side = u32::from(piece.is_response);
        let (cause, kind) = match times {
            None => (PacketCause::First, side),
            Some(_) => (PacketCause::Again, AGAIN + side),
        };
        PacketMark {
            piece: Some(piece),
            grant: None,
            cause,
            name: PacketName {
                call: drawn,
                kind,
                offset: piece.offset,
                times: times.unwrap_or(0),
            },
            left: piece.length.saturating_sub(piece.offset),
        }
    }
}
