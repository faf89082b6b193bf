// Agenda, link and port with values worked out by hand.
ghost use Rattle.std.specs.Prelude.{◌≡◌, ◌≤◌, ◌<◌, ◌+◌, ◌^◌};

use crate::{Agenda, Link, Passage, Port, Waiting};
use std::process::Abort;

// Something is due at a moment.
fn enters(rt: &impl Abort, agenda: &mut Agenda<u8>, at: u64, what: u8)
    requires { agenda.old.count < 2 ^ 32 }
    ensures { agenda.new.count ≤ agenda.old.count + 1 }
{
    assert!(rt; agenda.enter(at, what).is_ok());
}

// What is due next.
fn comes(rt: &impl Abort, agenda: &mut Agenda<u8>, wanted: Option<(u64, u8)>)
    ensures { agenda.new.count ≡ agenda.old.count }
{
    let next = agenda.next().map(|due| (due.at, due.what));
    assert_eq!(rt; next, wanted);
}

#[test]
fn the_earliest_is_next(rt: HostRuntime) {
    let mut agenda = Agenda::new(rt.alloc());
    enters(&rt, &mut agenda, 7, 1);
    enters(&rt, &mut agenda, 5, 2);
    enters(&rt, &mut agenda, 7, 3);
    assert_eq!(&rt; (agenda.len(), agenda.entered()), (3, 3));
    comes(&rt, &mut agenda, Some((5, 2)));
    enters(&rt, &mut agenda, 1, 4);
    comes(&rt, &mut agenda, Some((5, 4)));
    comes(&rt, &mut agenda, Some((7, 1)));
    comes(&rt, &mut agenda, Some((7, 3)));
    comes(&rt, &mut agenda, None);
    assert_eq!(&rt; agenda.now(), 7);
}

#[test]
fn a_link_is_taken_for_its_bytes(rt: HostRuntime) {
    let mut link = Link::new(800, 700_000);
    assert!(&rt; link.is_free(0) && link.fits(1000, 100) && !link.fits(u64::MAX - 1, 1));
    let passage = link.pass(1000, 100);
    let wanted = Passage {
        left: 81_000,
        there: 781_000,
    };
    assert_eq!(&rt; passage, wanted);
    assert!(&rt; !link.is_free(80_999) && link.is_free(81_000));
    assert_eq!(&rt; link.taken(), 80_000);
}

// A packet comes, or has no room.
fn waits(rt: &impl Abort, port: &mut Port<u8>, level: usize, packet: u8, bytes: u32, wanted: bool)
    requires { level < 8 }
{
    let waiting = Waiting { packet, bytes };
    assert!(rt;
        port.enter(level, waiting)
            .is_ok_and(|entered| entered == wanted)
    );
}

// The packet that goes next, with its level.
fn goes(rt: &impl Abort, port: &mut Port<u8>, wanted: Option<(usize, u8)>) {
    let next = port.next().map(|(level, waiting)| (level, waiting.packet));
    assert_eq!(rt; next, wanted);
}

#[test]
fn the_highest_level_goes_first(rt: HostRuntime) {
    let opened = Port::open(rt.alloc(), 100);
    assert!(&rt; opened.is_ok());
    let Ok(mut port) = opened else {
        return;
    };
    waits(&rt, &mut port, 0, 1, 40, true);
    waits(&rt, &mut port, 7, 2, 30, true);
    waits(&rt, &mut port, 7, 3, 31, false);
    waits(&rt, &mut port, 7, 4, 30, true);
    assert_eq!(&rt; port.bytes(), 100);
    goes(&rt, &mut port, Some((7, 2)));
    goes(&rt, &mut port, Some((7, 4)));
    goes(&rt, &mut port, Some((0, 1)));
    goes(&rt, &mut port, None);
}
