ghost use Rattle.std.specs.Prelude.{◌≡◌};
ghost use Rattle.homa_plain.specs.Wire.{Between};

use homa_plain::{Body, Cutoffs, Frame, More, Role};
use homa_wire::{Span, decode, encode};
use std::alloc::Global;
use std::process::Abort;
use std::test::Fail;

// A datagram in hex and what it says, worked out by hand. Every packet of the table goes at level 7, from
// incarnation 1, about a call of incarnation 1. `shorter` is the length of its one prefix that is a packet too.
#[derive(Drop)]
struct Row {
    wire: u32,
    text: &'static str,
    role: Role,
    seq: u32,
    body: Body,
    payload: &'static [u8],
    shorter: Option<usize>,
}

fn make_row(wire: u32, text: &'static str, role: Role, seq: u32, body: Body) -> Row
    ensures { result.wire ≡ wire }
{
    Row {
        wire,
        text,
        role,
        seq,
        body,
        payload: b"",
        shorter: None,
    }
}

// A request of this many bytes, from its first byte on.
fn request(length: u32) -> Body {
    Body::Data {
        length,
        offset: 0,
        version: 0,
        service: 0,
        ack: None,
    }
}

fn four_calls() -> Body {
    let mut more = More::empty();
    more.push(1, 1);
    more.push(1, 2);
    more.push(1, 3);
    more.push(1, 4);
    Body::Ack { more }
}

// The bytes are read as what the row says, and written again as they are.
fn says(rt: &impl Abort, bytes: &[u8], row: &Row)
    requires { Between 1 2 row.now.wire }
{
    let Some((packet, span)) = decode(bytes, row.wire) else {
        assert!(rt; false, "no packet: {}", row.text);
        return;
    };
    let payload = &bytes[span.from..span.to];
    assert!(rt; payload == row.payload, "payload of {}", row.text);
    let mut frame = Frame::empty();
    frame.set(b"what it held before");
    encode(&packet, row.wire, payload, &mut frame);
    assert!(rt; frame.bytes() == bytes, "written again: {}", row.text);
    let numbers = (
        packet.level,
        packet.sender,
        packet.inc,
        packet.seq,
        packet.at,
    );
    assert!(rt; numbers == (7, 1, 1, row.seq, 0), "{}", row.text);
    assert!(rt;
        packet.role == row.role && packet.body == row.body,
        "{}",
        row.text
    );
}

// Of the bytes that stand before others, only the row's shorter ones are a packet.
fn has_prefixes(rt: &impl Abort, bytes: &[u8], row: &Row)
    requires { Between 1 2 row.now.wire }
{
    for len in 0..bytes.len() {
        let is_packet = decode(&bytes[..len], row.wire).is_some();
        let is_wanted = row.shorter == Some(len);
        assert!(rt; is_packet == is_wanted, "{len} bytes of {}", row.text);
    }
}

fn check_row(rt: &impl Abort, alloc: Global, row: Row) -> Result<(), Fail>
    requires { Between 1 2 row.wire }
{
    let mut bytes = hex::decode(alloc, row.text)?;
    says(rt, &bytes, &row);
    has_prefixes(rt, &bytes, &row);
    bytes.push(0)?;
    let is_packet = decode(&bytes, row.wire).is_some();
    assert!(rt; !is_packet, "one byte more: {}", row.text);
    Ok(())
}

#[test]
fn frames_and_their_packets(rt: HostRuntime) -> Result<(), Fail> {
    let cutoffs = Cutoffs {
        version: 1,
        upto: [0, 0, 0, 0, 1_000_000, 3, 3, 1],
    };
    let data_1 = "0101000700000001000000010000000000000002000000000000000000000000000000006869";
    let grant = "010201070000000100000001000000000000000b00";
    let resend = "01030007000000010000000100000000000000000000271003";
    let cutoffs_1 =
        "01050107000000010000000100000001000100000000000000000000000000000000000f4240000000030000000300000001";
    let unknown = "0106010700000001000000010000000001";
    let need_ack = "01070107000000010000000100000000";
    let ack =
        "01080007000000010000000100000000050000000100000001000000010000000200000001000000030000000100000004";
    let data_2 =
        "020100070000000100000001000000000000000000000000000000010000000000000000000000000000000061";
    let first = Row {
        payload: b"hi",
        shorter: Some(37),
        ..make_row(1, data_1, Role::Client, 0, request(2))
    };
    check_row(&rt, rt.alloc(), first)?;
    let bound = Body::Grant {
        offset: 11,
        prio: 0,
    };
    check_row(&rt, rt.alloc(), make_row(1, grant, Role::Server, 0, bound))?;
    let missing = Body::Resend {
        from: 0,
        to: 10_000,
        prio: 3,
    };
    check_row(
        &rt,
        rt.alloc(),
        make_row(1, resend, Role::Client, 0, missing),
    )?;
    check_row(
        &rt,
        rt.alloc(),
        make_row(1, cutoffs_1, Role::Server, 1, Body::Cutoffs(cutoffs)),
    )?;
    check_row(
        &rt,
        rt.alloc(),
        make_row(1, unknown, Role::Server, 0, Body::Unknown { reason: 1 }),
    )?;
    check_row(
        &rt,
        rt.alloc(),
        make_row(1, need_ack, Role::Server, 0, Body::NeedAck),
    )?;
    check_row(
        &rt,
        rt.alloc(),
        make_row(1, ack, Role::Client, 0, four_calls()),
    )?;
    let last = Row {
        payload: b"a",
        ..make_row(2, data_2, Role::Client, 0, request(1))
    };
    check_row(&rt, rt.alloc(), last)?;
    let prefix = hex::decode(rt.alloc(), &data_1[..74])?;
    let read = decode(&prefix, 1).map(|found| found.1);
    assert_eq!(rt; read, Some(Span { from: 36, to: 37 }));
    Ok(())
}
