//! A pacer of four slots and ten bytes a tick, with values worked out by hand.
ghost use Rattle.std.specs.Prelude.{◌≡◌};
ghost use Rattle.homa_plain.specs.Settings.{IsValid};

use homa_pacer::Pacer;
use homa_plain::Settings;
use std::test::*;

// Settings with two rows as a client and two as a server, and ten bytes a tick.
fn settings() -> Settings
    ensures valid { IsValid result }
    ensures calls { result.calls ≡ 2 }
    ensures served { result.served ≡ 2 }
    ensures rate { result.rate ≡ 10 }
{
    Settings {
        seg: 10,
        rate: 10,
        calls: 2,
        served: 2,
        ..Settings::usual()
    }
}

// The fewest bytes left go first, and of as many the lower order.
#[test]
fn picks_by_bytes_left_and_order(rt: HostRuntime) {
    let mut pacer = Pacer::open(rt.alloc(), &settings()).expect(&rt, "memory");
    assert_eq!(&rt; pacer.pick(), None);
    pacer.ready(3, 20, 1);
    pacer.ready(1, 7, 9);
    pacer.ready(2, 7, 8);
    assert_eq!(&rt; pacer.pick(), Some(2));
    pacer.idle(2);
    assert_eq!(&rt; pacer.pick(), Some(1));
    pacer.ready(1, 30, 9);
    assert_eq!(&rt; pacer.pick(), Some(3));
    pacer.idle(0);
    assert_eq!(&rt; pacer.heap().len(), 2);
}

// What is left of a tick's credit is lost, and a tick is refilled once.
#[test]
fn credit_over_refills(rt: HostRuntime) {
    let mut pacer = Pacer::open(rt.alloc(), &settings()).expect(&rt, "memory");
    pacer.spend(4);
    pacer.refill(0);
    assert_eq!(&rt; pacer.credit(), 6);
    pacer.refill(1);
    assert_eq!(&rt; pacer.credit(), 10);
    pacer.spend(10);
    pacer.refill(1);
    assert_eq!(&rt; pacer.credit(), 0);
    pacer.refill(5);
    assert_eq!(&rt; pacer.credit(), 10);
}
