// Bytes of a message that go out as they are granted, and again as they are asked for.
ghost use Rattle.std.specs.Prelude.{◌<◌, ◌≤◌};

use homa_out::{Outgoing, Resent};
use std::process::Abort;

// The next bytes go out, and then those up to `top` have.
fn sends(rt: &impl Abort, part: &mut Outgoing, seg: u32, wanted: Option<(u32, u32)>, top: u32)
    requires { 1 ≤ seg }
{
    assert_eq!(rt; part.next(seg), wanted);
    assert_eq!(rt; part.top_sent(), top);
}

// The bytes that would go out next.
fn shows(rt: &impl Abort, part: &Outgoing, seg: u32, wanted: Option<(u32, u32)>)
    requires { 1 ≤ seg }
{
    assert_eq!(rt; part.peek(seg), wanted);
}

// A grant comes, and then these bytes are granted at this priority.
fn grants(rt: &impl Abort, part: &mut Outgoing, offset: u32, prio: u8, wanted: (u32, u8)) {
    part.grant(offset, prio);
    assert_eq!(rt; (part.granted(), part.prio()), wanted);
}

// Bytes are asked for, and then these are granted at this priority.
fn resends(
    rt: &impl Abort,
    part: &mut Outgoing,
    a: u32,
    b: u32,
    prio: u8,
    answer: Resent,
    wanted: (u32, u8),
)
    requires { a < b }
{
    assert_eq!(rt; part.resend(a, b, prio), answer);
    assert_eq!(rt; (part.granted(), part.prio()), wanted);
}

#[test]
fn bytes_go_out_as_granted(rt: HostRuntime) {
    let mut part = Outgoing::open(25, 10);
    shows(&rt, &part, 4, Some((0, 4)));
    sends(&rt, &mut part, 4, Some((0, 4)), 4);
    sends(&rt, &mut part, 4, Some((4, 8)), 8);
    assert!(rt; part.waiting());
    sends(&rt, &mut part, 4, Some((8, 10)), 10);
    sends(&rt, &mut part, 4, None, 10);
    shows(&rt, &part, 4, None);
    assert!(rt; !part.waiting());
    grants(&rt, &mut part, 12, 3, (12, 3));
    sends(&rt, &mut part, 4, Some((10, 12)), 12);
    assert_eq!(rt; part.left(), 13);
    grants(&rt, &mut part, 5, 2, (12, 3));
    assert!(rt; !part.waiting());
    grants(&rt, &mut part, 40, 1, (25, 1));
    assert_eq!(rt; part.len(), 25);
}

#[test]
fn bytes_go_out_again(rt: HostRuntime) {
    let mut part = Outgoing::open(25, 10);
    grants(&rt, &mut part, 12, 3, (12, 3));
    sends(&rt, &mut part, 20, Some((0, 12)), 12);
    resends(&rt, &mut part, 2, 6, 1, Resent::Queued, (12, 1));
    resends(&rt, &mut part, 3, 5, 2, Resent::Busy, (12, 1));
    sends(&rt, &mut part, 4, Some((2, 6)), 12);
    resends(&rt, &mut part, 30, 40, 0, Resent::Busy, (12, 1));
    resends(&rt, &mut part, 20, 40, 0, Resent::Queued, (25, 0));
    shows(&rt, &part, 9, Some((20, 25)));
    part.restart();
    assert_eq!(rt; part.granted(), 10);
    sends(&rt, &mut part, 4, Some((0, 4)), 12);
}
