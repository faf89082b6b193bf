// Packets written as bytes.
ghost use Rattle.std.specs.Prelude.{◌≡◌, ◌+◌, ◌≤◌, ◌<◌, ◌++◌, length};
ghost use Rattle.std.specs.Int.{w32, to_be_bytes};
ghost use Rattle.std.specs.List.{flat_map};
ghost use Rattle.homa_plain.specs.Bytes.{two};
ghost use Rattle.homa_plain.specs.Wire.{Between, IsWellFormed, spelling, header_bytes, body_bytes, body_len, ack_bytes};
ghost use Rattle.homa_plain.specs.Wire.{role_byte};

use homa_plain::{Body, Cutoffs, Frame, More, Packet, Role};

// The role in a header: 0 for the client, 1 for the server.
fn role_byte(role: Role) -> u8
    ensures { result ≡ role_byte role }
{
    match role {
        Role::Client => 0,
        Role::Server => 1,
    }
}

// Adds two numbers of 4 bytes each: a call, or the ends of a range.
fn write_two(first: u32, second: u32, frame: &mut Frame)
    requires { length frame.old ≤ 1000 }
    ensures { frame.new ≡ frame.old ++ two (first, second) }
{
    frame.extend(&first.to_be_bytes());
    frame.extend(&second.to_be_bytes());
}

// Adds the call that a piece acknowledges, in 9 bytes: a flag, and the call or two zeros.
fn write_ack(ack: Option<(u32, u32)>, frame: &mut Frame)
    requires { length frame.old ≤ 500 }
    ensures { frame.new ≡ frame.old ++ ack_bytes ack }
{
    match ack {
        None => {
            frame.extend(&[0]);
            write_two(0, 0, frame);
        }
        Some((inc, seq)) => {
            frame.extend(&[1]);
            write_two(inc, seq, frame);
        }
    }
}

// Adds the bounds of the eight levels, 32 bytes.
fn write_bounds(upto: &[u32; 8], frame: &mut Frame)
    requires { length frame.old ≤ 100 }
    ensures { frame.new ≡ frame.old ++ flat_map (to_be_bytes w32) upto.now }
{
    for bound in upto {
        frame.extend(&bound.to_be_bytes());
    }
}

// Adds the further calls of an ACK, 8 bytes each.
fn write_calls(calls: &[(u32, u32)], frame: &mut Frame)
    requires room { length frame.old ≤ 100 }
    requires few { length calls.now ≤ 4 }
    ensures { frame.new ≡ frame.old ++ flat_map two calls.now }
{
    for (inc, seq) in calls {
        write_two(*inc, *seq, frame);
    }
}

// Makes the frame the header, of 16 bytes in version 1 and 24 in version 2.
fn write_header(wire: u32, packet: &Packet, frame: &mut Frame)
    requires { Between 1 2 wire }
    ensures { frame.new ≡ header_bytes wire packet.now }
{
    let kind = packet.body.kind().number();
    let role = role_byte(packet.role);
    frame.set(&[wire as u8, kind, role, packet.level]);
    frame.extend(&packet.sender.to_be_bytes());
    write_two(packet.inc, packet.seq, frame);
    if wire == 2 {
        frame.extend(&packet.at.to_be_bytes());
    }
}

// Adds the fields of the packet's kind, at most 34 bytes more.
fn write_body(body: &Body, frame: &mut Frame)
    requires room { length frame.old ≤ 24 }
    requires few { body_len body.now ≤ 34 }
    ensures { frame.new ≡ frame.old ++ body_bytes body.now }
{
    match body {
        Body::Data {
            length,
            offset,
            version,
            service,
            ack,
        } => {
            write_two(*length, *offset, frame);
            frame.extend(&version.to_be_bytes());
            frame.extend(&[*service]);
            write_ack(*ack, frame);
        }
        Body::Grant { offset, prio } => {
            frame.extend(&offset.to_be_bytes());
            frame.extend(&[*prio]);
        }
        Body::Resend { from, to, prio } => {
            write_two(*from, *to, frame);
            frame.extend(&[*prio]);
        }
        Body::Busy | Body::NeedAck => {}
        Body::Cutoffs(cutoffs) => {
            frame.extend(&cutoffs.version.to_be_bytes());
            write_bounds(&cutoffs.upto, frame);
        }
        Body::Unknown { reason } => frame.extend(&[*reason]),
        Body::Ack { more } => {
            let calls = more.calls();
            frame.extend(&[calls.len() as u8 + 1]);
            write_calls(calls, frame);
        }
    }
}

/// Makes `frame` the datagram of version `wire`, 1 or 2, that spells the packet with this payload. What the
/// frame held is gone.
pub fn encode(packet: &Packet, wire: u32, payload: &[u8], frame: &mut Frame)
    requires { IsWellFormed wire packet.now payload.now }
    ensures { frame.new ≡ spelling wire packet.now payload.now }
{
    write_header(wire, packet, frame);
    write_body(&packet.body, frame);
    frame.extend(payload);
}
