// Datagrams of version 1, put together by hand, each in the room of the one before.
use crate::kind::Kind;

const TO_SERVER: u8 = 0;

const TO_CLIENT: u8 = 1;

// A datagram of a call of incarnation 1: its header, and what stands behind it.
fn datagram(frame: &mut Vec<u8>, kind: u8, role: u8, seq: u32, rest: &[u8]) -> Option<()> {
    frame.clear();
    frame
        .extend_from_slice(&[1, kind, role, 7, 0, 0, 0, 1, 0, 0, 0, 1])
        .ok()?;
    frame.extend_from_slice(&seq.to_be_bytes()).ok()?;
    frame.extend_from_slice(rest).ok()
}

// One byte of a message, for service 0, with version 0 of the cutoffs and no acknowledgement.
fn piece(frame: &mut Vec<u8>, role: u8, seq: u32, size: u32, offset: u32) -> Option<()> {
    datagram(frame, 1, role, seq, &size.to_be_bytes())?;
    frame.extend_from_slice(&offset.to_be_bytes()).ok()?;
    frame
        .extend_from_slice(&[0, 0, 0, 0, 0, 0, 0, 0, 0, 0, 0, 0, 7])
        .ok()
}

/// The first byte of a request of `size` bytes.
pub(crate) fn put_first(frame: &mut Vec<u8>, seq: u32, size: u32) -> Option<()> {
    piece(frame, TO_SERVER, seq, size, 0)
}

/// A datagram of this kind for the call with this sequence number. Messages have `size` bytes, of which a piece has that
/// with this number.
pub(crate) fn put(frame: &mut Vec<u8>, kind: Kind, seq: u32, size: u32, number: u32) -> Option<()> {
    match kind {
        Kind::Request => piece(frame, TO_SERVER, seq, size, number),
        Kind::Response => piece(frame, TO_CLIENT, seq, size, number),
        Kind::Repeat => piece(frame, TO_SERVER, seq, size, 0),
        Kind::Done => piece(frame, TO_CLIENT, seq, 1, 0),
        Kind::Grant => put_grant(frame, seq, number),
        Kind::Cutoffs => put_cutoffs(frame, seq),
        Kind::Resend => datagram(frame, 3, TO_CLIENT, seq, &[0, 0, 0, 0, 0, 0, 0, 1, 3]),
        Kind::Busy => datagram(frame, 4, TO_CLIENT, seq, &[]),
        Kind::Unknown => datagram(frame, 6, TO_CLIENT, seq, &[0]),
        Kind::NeedAck => datagram(frame, 7, TO_CLIENT, seq, &[]),
        Kind::Ack => datagram(frame, 8, TO_SERVER, seq, &[1]),
        Kind::Junk => datagram(frame, 9, TO_SERVER, seq, &[]),
    }
}

// A GRANT of the byte with this number and of those before it, at priority 3.
fn put_grant(frame: &mut Vec<u8>, seq: u32, number: u32) -> Option<()> {
    let end = number.checked_add(1)?;
    datagram(frame, 2, TO_CLIENT, seq, &end.to_be_bytes())?;
    frame.extend_from_slice(&[3]).ok()
}

// CUTOFFS of version 1, all bounds 0.
fn put_cutoffs(frame: &mut Vec<u8>, seq: u32) -> Option<()> {
    let mut rest = [0; 34];
    rest[1] = 1;
    datagram(frame, 5, TO_CLIENT, seq, &rest)
}
