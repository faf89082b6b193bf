// Books with values worked out by hand.
ghost use Rattle.std.specs.Prelude.{◌≡◌, ◌≤◌};
ghost use Rattle.homa_plain.specs.Settings.{IsValid, usual};

use arrayvec::ArrayVec;
use homa_grants::GrantBook;
use homa_plain::{HostId, Settings};
use host_heap::first_k;
use place_heap::{Item, Key, PlaceHeap};
use std::process::Abort;
use std::test::Fail;

// The usual settings with three hosts, where so many messages are chosen.
fn settings(most: u32) -> Settings
    requires some { 1 ≤ most }
    requires few { most ≤ 7 }
    ensures settings { result ≡ record usual { hosts = 3; overcommit = most } }
    ensures valid { IsValid result }
{
    Settings {
        hosts: 3,
        overcommit: most,
        ..Settings::usual()
    }
}

// The slots that are chosen, where others stood before.
fn chooses(rt: &impl Abort, book: &GrantBook, wanted: &[u32]) {
    let mut out = ArrayVec::<u32, 8>::new();
    out.push(77);
    book.choose(&mut out);
    assert!(rt; out.as_slice() == wanted, "{wanted:?}");
}

// A slot, or a peer, under the two numbers of its key.
fn item(place: u32, first: u64, second: u64) -> Item {
    (place, Key { first, second })
}

// The items of a heap, in order.
fn holds(rt: &impl Abort, heap: &PlaceHeap, wanted: &[Item]) {
    let mut items = ArrayVec::new();
    first_k(heap, 8, &mut items);
    assert!(rt; items.as_slice() == wanted, "{wanted:?}");
}

#[test]
fn ties_go_by_order(rt: HostRuntime) -> Result<(), Fail> {
    let mut book = GrantBook::open(rt.alloc(), &settings(1))?;
    chooses(&rt, &book, &[]);
    book.enter(5, HostId(0), 300, 2);
    chooses(&rt, &book, &[5]);
    book.enter(3, HostId(1), 500, 0);
    chooses(&rt, &book, &[5]);
    book.enter(9, HostId(2), 300, 1);
    chooses(&rt, &book, &[9]);
    book.enter(7, HostId(0), 299, 3);
    chooses(&rt, &book, &[7]);
    Ok(())
}

#[test]
fn one_message_of_a_sender(rt: HostRuntime) -> Result<(), Fail> {
    let mut book = GrantBook::open(rt.alloc(), &settings(4))?;
    book.enter(0, HostId(0), 12, 0);
    chooses(&rt, &book, &[0]);
    book.enter(1, HostId(0), 8, 1);
    chooses(&rt, &book, &[1]);
    book.enter(2, HostId(0), 16, 2);
    chooses(&rt, &book, &[1]);
    book.enter(3, HostId(1), 20, 3);
    chooses(&rt, &book, &[1, 3]);
    Ok(())
}

#[test]
fn messages_change_and_leave(rt: HostRuntime) -> Result<(), Fail> {
    let mut book = GrantBook::open(rt.alloc(), &settings(4))?;
    book.enter(0, HostId(0), 12, 0);
    book.enter(1, HostId(0), 8, 1);
    book.enter(3, HostId(1), 20, 3);
    book.enter(1, HostId(1), 8, 1);
    chooses(&rt, &book, &[1, 0]);
    book.change(0, 7);
    chooses(&rt, &book, &[0, 1]);
    book.change(1, 21);
    chooses(&rt, &book, &[0, 3]);
    book.leave(0);
    chooses(&rt, &book, &[3]);
    book.leave(0);
    book.leave(3);
    chooses(&rt, &book, &[1]);
    book.leave(1);
    chooses(&rt, &book, &[]);
    Ok(())
}

#[test]
fn heaps_hold_the_messages(rt: HostRuntime) -> Result<(), Fail> {
    let mut book = GrantBook::open(rt.alloc(), &settings(2))?;
    book.enter(4, HostId(2), 30, 0);
    book.enter(6, HostId(2), 10, 1);
    book.enter(2, HostId(0), 20, 2);
    holds(&rt, book.heap(HostId(2)), &[item(6, 10, 1), item(4, 30, 0)]);
    holds(&rt, book.heap(HostId(1)), &[]);
    holds(&rt, book.peers(), &[item(2, 10, 1), item(0, 20, 2)]);
    book.enter(6, HostId(0), 25, 1);
    holds(&rt, book.heap(HostId(2)), &[item(4, 30, 0)]);
    holds(&rt, book.heap(HostId(0)), &[item(2, 20, 2), item(6, 25, 1)]);
    holds(&rt, book.peers(), &[item(0, 20, 2), item(2, 30, 0)]);
    book.leave(2);
    holds(&rt, book.peers(), &[item(0, 25, 1), item(2, 30, 0)]);
    book.enter(6, HostId(0), 35, 1);
    holds(&rt, book.peers(), &[item(2, 30, 0), item(0, 35, 1)]);
    Ok(())
}
