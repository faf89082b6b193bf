// Readers of a packet's header.
ghost use Rattle.std.specs.Prelude.{◌≡◌};
ghost use Rattle.std.specs.Option.{option_map};
ghost use Rattle.homa_plain.specs.Wire.{Between, packet_of, packet_in};
ghost use Rattle.homa_wire.specs.Checked.{is_header, checked, packet_behind};

use crate::fields::{read_clock, read_two, read_u32, role_from};
use crate::fits::{is_call, latest};
use homa_plain::Role;

/// A packet's header, but for its version, and the number of its kind.
#[derive(Clone, Copy)]
pub struct Header {
    pub kind: u8,
    pub role: Role,
    pub level: u8,
    pub sender: u32,
    pub inc: u32,
    pub seq: u32,
    pub at: u64,
}

/// Whether a header's numbers are those of a well-formed packet.
fn is_header(wire: u32, sender: u32, call: (u32, u32), at: u64) -> bool
    requires { Between 1 2 wire }
    ensures { result ≡ is_header wire sender call at }
{
    at <= latest(wire) && 1 <= sender && is_call(call)
}

/// What follows version, kind, role and level.
#[tactic(auto, unfolding(homa_plain::specs::Wire::packet_of))]
fn read_fields(wire: u32, kind: u8, role: u8, level: u8, bytes: &[u8]) -> Option<(Header, &[u8])>
    requires { Between 1 2 wire }
    ensures { packet_behind (option_map (λ x. (x.0, x.1.now)) result)
        ≡ checked wire (packet_of wire kind role level bytes.now) }
{
    let role = role_from(role)?;
    let (sender, rest) = read_u32(bytes)?;
    let ((inc, seq), rest) = read_two(rest)?;
    let (at, rest) = read_clock(wire, rest)?;
    if !is_header(wire, sender, (inc, seq), at) {
        return None;
    }
    let header = Header {
        kind,
        role,
        level,
        sender,
        inc,
        seq,
        at,
    };
    Some((header, rest))
}

/// Reads the header of a packet. What the bytes spell has this header, and is read on from what follows it.
#[tactic(auto, unfolding(homa_plain::specs::Wire::packet_in, homa_plain::specs::Wire::packet_at))]
pub fn read_header(wire: u32, bytes: &[u8]) -> Option<(Header, &[u8])>
    requires { Between 1 2 wire }
    ensures { packet_behind (option_map (λ x. (x.0, x.1.now)) result) ≡ packet_in wire bytes.now }
{
    match bytes {
        [version, kind, role, level, rest @ ..] => {
            if u32::from(*version) == wire {
                read_fields(wire, *kind, *role, *level, rest)
            } else {
                None
            }
        }
        _ => None,
    }
}
