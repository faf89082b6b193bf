// A gauge and a receiver with values worked out by hand.
use crate::{Gauge, Receiver, Use};
use std::process::Abort;

#[test]
fn what_waits_over_time(rt: HostRuntime) {
    let mut gauge = Gauge::new();
    gauge.rise(10, 3);
    gauge.rise(20, 4);
    gauge.fall(25, 5);
    assert_eq!(&rt; (gauge.waiting, gauge.most), (2, 7));
    assert_eq!(&rt; gauge.area_at(35), 85);
    gauge.restart(40);
    assert_eq!(&rt; (gauge.most, gauge.area_at(50)), (2, 20));
}

// The link is used so, and was taken, withheld and wasted for so long.
fn spends(rt: &impl Abort, known: &Receiver, at: u64, used: Use, wanted: (u64, u64, u64)) {
    assert_eq!(rt; known.used(), used);
    let spans = known.spans_at(at);
    assert_eq!(rt; (spans.taken, spans.withheld, spans.wasted), wanted);
    assert!(rt; spans.idle() >= spans.wasted);
}

#[test]
fn a_link_is_taken_or_idle(rt: HostRuntime) {
    let mut known = Receiver::new(1);
    spends(&rt, &known, 5, Use::Empty, (0, 0, 0));
    known.begins(5, 2);
    known.opens(5);
    spends(&rt, &known, 9, Use::Unsent, (0, 0, 4));
    known.begins(9, 3);
    spends(&rt, &known, 10, Use::Withheld, (0, 1, 5));
    known.set_taken(11, true);
    spends(&rt, &known, 20, Use::Taken, (9, 2, 6));
    known.set_taken(20, false);
    known.completes(20, 3);
    known.sends(20);
    known.closes(20);
    spends(&rt, &known, 30, Use::Coming, (9, 2, 6));
    known.arrives(30);
    known.completes(30, 2);
    known.restart(30);
    spends(&rt, &known, 31, Use::Empty, (0, 0, 0));
}
