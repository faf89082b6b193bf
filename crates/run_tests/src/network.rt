// The network between hosts. The draws of the seeds come from another program of the generator; what follows from them was
// worked out by hand.
use homa_fabric::{Fabric, Traffic};
use homa_plain::{HostId, Settings};
use std::test::Fail;

const TO: HostId = HostId(1);

#[test]
fn calls_of_seeds(rt: HostRuntime) -> Result<(), Fail> {
    let small = Fabric::open(rt.alloc(), &Settings::usual(), 15)?.traffic();
    assert_eq!(rt;
        small,
        Traffic {
            client: HostId(0),
            server: HostId(1),
            number: 3,
            len: 44
        }
    );
    let mut settings = Settings::usual();
    settings.hosts = 32;
    let middle = Fabric::open(rt.alloc(), &settings, 4)?.traffic();
    assert_eq!(rt;
        middle,
        Traffic {
            client: HostId(31),
            server: HostId(19),
            number: 0,
            len: 1978
        }
    );
    let large = Fabric::open(rt.alloc(), &settings, 13)?.traffic();
    assert_eq!(rt;
        large,
        Traffic {
            client: HostId(15),
            server: HostId(24),
            number: 1,
            len: 92711
        }
    );
    Ok(())
}

#[test]
fn highest_level_first(rt: HostRuntime) -> Result<(), Fail> {
    let mut fabric = Fabric::open(rt.alloc(), &Settings::usual(), 1)?;
    fabric.sent(0, TO, 0, 60, 0);
    fabric.sent(1, TO, 7, 60, 0);
    fabric.sent(2, TO, 7, 60, 0);
    assert_eq!(rt; fabric.next(TO, 0), None);
    fabric.begin();
    assert_eq!(rt; fabric.next(TO, 0), Some(1));
    assert_eq!(rt; fabric.next(TO, 0), Some(2));
    assert_eq!(rt; fabric.next(TO, 0), Some(0));
    assert_eq!(rt; fabric.next(TO, 0), None);
    Ok(())
}

#[test]
fn lost_by_a_draw_of_0(rt: HostRuntime) -> Result<(), Fail> {
    let mut fabric = Fabric::open(rt.alloc(), &Settings::usual(), 39)?;
    fabric.sent(0, TO, 7, 60, 0);
    fabric.sent(1, TO, 7, 60, 0);
    fabric.begin();
    assert_eq!(rt; fabric.next(TO, 0), Some(1));
    assert_eq!(rt; fabric.next(TO, 0), None);
    Ok(())
}

#[test]
fn twice_by_a_draw_of_1(rt: HostRuntime) -> Result<(), Fail> {
    let mut fabric = Fabric::open(rt.alloc(), &Settings::usual(), 34)?;
    fabric.sent(0, TO, 7, 60, 0);
    fabric.begin();
    assert_eq!(rt; fabric.next(TO, 0), Some(0));
    assert_eq!(rt; fabric.next(TO, 0), Some(0));
    assert_eq!(rt; fabric.next(TO, 0), None);
    Ok(())
}

#[test]
fn what_exceeds_the_budget_stays(rt: HostRuntime) -> Result<(), Fail> {
    let mut fabric = Fabric::open(rt.alloc(), &Settings::usual(), 1)?;
    fabric.sent(0, TO, 7, 15_999, 0);
    fabric.sent(1, TO, 7, 2, 0);
    fabric.sent(2, TO, 6, 1, 0);
    fabric.begin();
    assert_eq!(rt; fabric.next(TO, 0), Some(0));
    assert_eq!(rt; fabric.next(TO, 0), None);
    fabric.begin();
    assert_eq!(rt; fabric.next(TO, 0), Some(1));
    assert_eq!(rt; fabric.next(TO, 0), Some(2));
    Ok(())
}

#[test]
fn too_old_costs_nothing_and_draws_nothing(rt: HostRuntime) -> Result<(), Fail> {
    let mut fabric = Fabric::open(rt.alloc(), &Settings::usual(), 39)?;
    fabric.sent(0, TO, 7, 60, 0);
    fabric.sent(1, TO, 7, 16_000, 0);
    fabric.sent(2, TO, 6, 16_000, 1);
    fabric.sent(3, TO, 5, 60, 1);
    fabric.begin();
    assert_eq!(rt; fabric.next(TO, 21), None);
    fabric.begin();
    assert_eq!(rt; fabric.next(TO, 21), Some(3));
    Ok(())
}

#[test]
fn the_257th_of_a_queue_is_lost(rt: HostRuntime) -> Result<(), Fail> {
    let mut fabric = Fabric::open(rt.alloc(), &Settings::usual(), 1)?;
    for number in 0..257 {
        fabric.sent(number, TO, 7, 1, 0);
    }
    fabric.begin();
    assert_eq!(rt; fabric.next(TO, 0), Some(0));
    let mut last = 0;
    let mut handed: u64 = 1;
    for _ in 0..512u64 {
        if let Some(number) = fabric.next(TO, 0) {
            last = number;
            handed += 1;
        }
    }
    assert_eq!(rt; last, 255);
    assert_eq!(rt; handed, 255);
    Ok(())
}
