//! Timers of four slots, with values worked out by hand.
ghost use Rattle.std.specs.Prelude.{◌≡◌};
ghost use Rattle.homa_plain.specs.Settings.{IsValid};

use homa_plain::Settings;
use homa_timers::Timers;
use std::test::*;

// Settings with two rows as a client and two as a server.
fn settings() -> Settings
    ensures valid { IsValid result }
    ensures calls { result.calls ≡ 2 }
    ensures served { result.served ≡ 2 }
{
    Settings {
        calls: 2,
        served: 2,
        ..Settings::usual()
    }
}

// Ties by order, at exactly the deadline, and one tick before it.
#[test]
fn due_by_deadline_and_order(rt: HostRuntime) {
    let mut timers = Timers::open(rt.alloc(), &settings()).expect(&rt, "memory");
    assert_eq!(&rt; timers.due(u64::MAX), None);
    timers.arm(3, 7, 5);
    timers.arm(0, 9, 1);
    timers.arm(2, 7, 4);
    assert_eq!(&rt; timers.due(6), None);
    assert_eq!(&rt; timers.due(7), Some(2));
    timers.disarm(2);
    assert_eq!(&rt; timers.due(8), Some(3));
}

// A slot that is armed anew has only its new deadline.
#[test]
fn armed_anew(rt: HostRuntime) {
    let mut timers = Timers::open(rt.alloc(), &settings()).expect(&rt, "memory");
    timers.arm(1, 7, 5);
    timers.arm(1, 9, 6);
    timers.disarm(0);
    assert_eq!(&rt; timers.due(8), None);
    assert_eq!(&rt; timers.due(9), Some(1));
    assert_eq!(&rt; timers.heap().len(), 1);
}
