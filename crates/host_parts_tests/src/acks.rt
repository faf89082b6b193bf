// Batches of five, calls that ride alone, and peers apart.
ghost use Rattle.std.specs.Prelude.{◌≡◌, ◌<◌, length};

use homa_acks::AckBook;
use homa_plain::HostId;
use std::process::Abort;
use std::test::Fail;

// A finished call brings no batch.
fn finish(rt: &impl Abort, book: &mut AckBook, peer: HostId, inc: u32, seq: u32)
    requires { peer.0 < length book.old }
    ensures { length book.new ≡ length book.old }
{
    assert!(rt; book.finish(peer, inc, seq).is_none(), "{inc}.{seq}");
}

// The oldest finished call rides.
fn rides(rt: &impl Abort, book: &mut AckBook, peer: HostId, wanted: Option<(u32, u32)>)
    requires { peer.0 < length book.old }
    ensures { length book.new ≡ length book.old }
{
    assert_eq!(rt; book.ride(peer), wanted);
}

// The fifth call brings all five.
fn finish_five(rt: &impl Abort, book: &mut AckBook, peer: HostId)
    requires { peer.0 < length book.old }
    ensures { length book.new ≡ length book.old }
{
    finish(rt, book, peer, 7, 0);
    finish(rt, book, peer, 7, 1);
    finish(rt, book, peer, 7, 2);
    finish(rt, book, peer, 7, 3);
    let Some(batch) = book.finish(peer, 8, 0) else {
        assert!(rt; false, "no batch");
        return;
    };
    let five = [(7, 0), (7, 1), (7, 2), (7, 3), (8, 0)];
    assert_eq!(rt; batch.as_slice(), five.as_slice());
}

#[test]
fn the_fifth_call_brings_all_five(rt: HostRuntime) -> Result<(), Fail> {
    let mut book = AckBook::new(rt.alloc(), 2)?;
    let peer = HostId(1);
    finish_five(&rt, &mut book, peer);

    // The list is empty, and the next call is the first again.
    rides(&rt, &mut book, peer, None);
    finish(&rt, &mut book, peer, 8, 1);
    rides(&rt, &mut book, peer, Some((8, 1)));
    Ok(())
}

#[test]
fn the_oldest_rides(rt: HostRuntime) -> Result<(), Fail> {
    let mut book = AckBook::new(rt.alloc(), 1)?;
    let peer = HostId(0);
    finish(&rt, &mut book, peer, 1, 10);
    finish(&rt, &mut book, peer, 1, 11);
    rides(&rt, &mut book, peer, Some((1, 10)));
    finish(&rt, &mut book, peer, 1, 12);
    rides(&rt, &mut book, peer, Some((1, 11)));
    rides(&rt, &mut book, peer, Some((1, 12)));
    rides(&rt, &mut book, peer, None);
    Ok(())
}

#[test]
fn peers_are_apart(rt: HostRuntime) -> Result<(), Fail> {
    let mut book = AckBook::new(rt.alloc(), 2)?;
    finish(&rt, &mut book, HostId(0), 1, 4);
    finish(&rt, &mut book, HostId(1), 1, 9);
    finish(&rt, &mut book, HostId(0), 1, 5);
    rides(&rt, &mut book, HostId(1), Some((1, 9)));
    rides(&rt, &mut book, HostId(1), None);
    rides(&rt, &mut book, HostId(0), Some((1, 4)));
    Ok(())
}
