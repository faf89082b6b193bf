// Bytes read as a packet.
ghost use Rattle.std.specs.Prelude.{◌≡◌, ◌≤◌, List, ℕ, IfSome, IfNone, None, Some, length};
ghost use Rattle.std.specs.Option.{option_map};
ghost use Rattle.homa_plain.specs.declared.packet.Packet.{Packet};
ghost use Rattle.homa_plain.specs.Wire.{Between, Spells, packet_in};
ghost use Rattle.homa_wire.specs.Checked.{made};
ghost use Rattle.homa_wire.specs.Part.{part};

use crate::bodies::{
    read_acks, read_busy, read_cutoffs, read_data, read_grant, read_need_ack, read_resend,
    read_unknown,
};
use crate::header::{Header, read_header};
use homa_plain::{Body, Packet};

/// Where a payload stands in its datagram: the bytes from `from` to `to` - 1.
#[derive(Clone, Copy, Debug, PartialEq, Eq)]
pub struct Span {
    pub from: usize,
    pub to: usize,
}

/// The packet with this header and with what was read of its kind, and the place of its payload. `_wire` is for the
/// contract alone.
fn whole(_wire: u32, bytes: &[u8], header: Header, read: (Body, &[u8])) -> (Packet, Span)
    requires { Some (made header read.0, read.1.now) ≡ packet_in _wire bytes.now }
    ensures read { Some (result.0, part bytes.now result.1) ≡ packet_in _wire bytes.now }
    ensures span { (result.1.from ≤ result.1.to) × (result.1.to ≡ length bytes.now) }
    ensures spelled { Spells _wire bytes.now result.0 (part bytes.now result.1) }
{
    let (body, payload) = read;
    let packet = Packet {
        role: header.role,
        level: header.level,
        sender: header.sender,
        inc: header.inc,
        seq: header.seq,
        at: header.at,
        body,
    };
    let span = Span {
        from: bytes.len() - payload.len(),
        to: bytes.len(),
    };
    (packet, span)
}

/// Reads the bytes as a packet of version `wire`, 1 or 2, and returns it with the place of its payload, which
/// ends where the bytes end. `None` exactly if the bytes spell no packet of this version.
pub fn decode(bytes: &[u8], wire: u32) -> Option<(Packet, Span)>
    requires { Between 1 2 wire }
    ensures read { option_map (λ r. (r.0, part bytes.now r.1)) result ≡ packet_in wire bytes.now }
    ensures span { IfSome result (λ r. (r.1.from ≤ r.1.to) × (r.1.to ≡ length bytes.now)) }
    ensures spelled { IfSome result (λ r. Spells wire bytes.now r.0 (part bytes.now r.1)) }
    ensures none { IfNone result ((p : Packet) (payload : List ℕ) → Spells wire bytes.now p payload → ⊥) }
{
    let (header, rest) = read_header(wire, bytes)?;
    // Each kind returns by itself, so that its fields go straight from the bytes into the result.
    match header.kind {
        1 => return Some(whole(wire, bytes, header, read_data(header, rest)?)),
        2 => return Some(whole(wire, bytes, header, read_grant(header, rest)?)),
        3 => return Some(whole(wire, bytes, header, read_resend(header, rest)?)),
        4 => return Some(whole(wire, bytes, header, read_busy(header, rest)?)),
        5 => return Some(whole(wire, bytes, header, read_cutoffs(header, rest)?)),
        6 => return Some(whole(wire, bytes, header, read_unknown(header, rest)?)),
        7 => return Some(whole(wire, bytes, header, read_need_ack(header, rest)?)),
        8 => return Some(whole(wire, bytes, header, read_acks(header, rest)?)),
        _ => None,
    }
}
