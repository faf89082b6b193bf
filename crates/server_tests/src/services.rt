// The five kinds of numbers, want of memory, and boxes that move.
ghost use Rattle.std.specs.Prelude.{◌≡◌, ◌+◌, ◌<◌, ◌^◌, OnOk, IfOk};

use homa_plain::HostId;
use homa_service::{NoSpare, Reply, Seat, Service, ServiceTable, Suite};
use std::alloc::{AllocError, Global};
use std::process::Abort;
use std::test::Fail;
use test_services::{Fickle, Letter};

fn is_answer(reply: &Reply, bytes: &[u8], hold: u32) -> bool {
    reply.bytes() == bytes && reply.hold() == hold
}

/// Calls any service twice.
fn ask_twice<V: Service>(
    alloc: Global,
    service: &mut V,
    request: &[u8],
) -> Result<(Reply, Reply), AllocError>
    requires { V.served service.old + 2 < 2 ^ 63 }
    ensures served { OnOk result (V.served service.new ≡ V.served service.old + 2) }
    ensures second { IfOk result (λ both.
        V.allows service.old (V.served service.old + 1) 1 request.now both.1.bytes both.1.hold) }
{
    let first = service.serve(alloc, 0, request)?;
    let second = service.serve(alloc, 1, request)?;
    Ok((first, second))
}

// A suite answers these bytes, with this hold.
fn answers(
    rt: &impl Abort,
    alloc: Global,
    suite: &mut Suite,
    number: u8,
    request: &[u8],
    bytes: &[u8],
    hold: u32,
) -> Result<(), AllocError>
    requires { suite.old < 2 ^ 63 }
    ensures { OnOk result (suite.new ≡ suite.old + 1) }
{
    let reply = suite.serve(alloc, number, request)?;
    assert!(rt; is_answer(&reply, bytes, hold), "{number}");
    Ok(())
}

#[test]
fn each_number_answers_its_own(rt: HostRuntime) -> Result<(), Fail> {
    let alloc = rt.alloc();
    let mut suite = Suite::new();
    answers(&rt, alloc, &mut suite, 0, b"abc", b"abc", 0)?;
    answers(
        &rt,
        alloc,
        &mut suite,
        1,
        b"abc",
        &[0, 0, 0, 0, 0, 0, 0, 2],
        0,
    )?;
    answers(&rt, alloc, &mut suite, 2, b"abc", b"cba", 0)?;
    answers(&rt, alloc, &mut suite, 3, b"abc", b"abc", 10)?;
    answers(&rt, alloc, &mut suite, 4, b"abc", &[0], 0)?;
    let last = suite.serve(alloc, 255, b"abc")?;
    assert_eq!(rt; last.into_bytes().as_slice(), [0].as_slice());

    // No bytes are no message, and the count goes on.
    answers(&rt, alloc, &mut suite, 3, b"", &[0], 0)?;
    answers(
        &rt,
        alloc,
        &mut suite,
        1,
        b"abc",
        &[0, 0, 0, 0, 0, 0, 0, 8],
        0,
    )?;
    Ok(())
}

#[test]
fn want_of_memory_is_no_answer(rt: HostRuntime) -> Result<(), Fail> {
    let mut fickle = Fickle::over(Letter::new(b'f'));
    assert!(rt; fickle.serve(rt.alloc(), 1, b"abc").is_err());
    assert_eq!(rt; fickle.then.served, 0);
    let (first, second) = ask_twice(rt.alloc(), &mut fickle, b"abc")?;
    assert!(rt; is_answer(&first, b"f", 0));
    assert!(rt; is_answer(&second, b"f", 0));
    assert_eq!(rt; fickle.then.served, 2);
    Ok(())
}

/// A box that answers this letter.
fn letter_box(alloc: Global, letter: u8) -> Result<Box<dyn Service>, AllocError>
    ensures { IfOk result (λ b. served b ≡ 0) }
{
    Ok(Box::new(alloc, Letter::new(letter))?)
}

// A service that answered nothing yet sends a request back, and counts two.
fn echoes<V: Service>(rt: &impl Abort, alloc: Global, service: &mut V) -> Result<(), Fail>
    requires { V.served service.old + 2 < 2 ^ 63 }
{
    let (echo, count) = ask_twice(alloc, service, b"xyz")?;
    assert!(rt; is_answer(&echo, b"xyz", 0));
    assert!(rt; is_answer(&count, &[0, 0, 0, 0, 0, 0, 0, 2], 0));
    Ok(())
}

// A service that is called once answers its letter.
fn says<V: Service>(rt: &impl Abort, alloc: Global, service: &mut V, letter: u8) -> Result<(), Fail>
    requires { V.served service.old < 2 ^ 63 }
{
    let reply = service.serve(alloc, 0, b"xyz")?;
    assert!(rt; is_answer(&reply, &[letter], 0));
    Ok(())
}

#[test]
fn a_seat_is_taken_and_put_back(rt: HostRuntime) -> Result<(), Fail> {
    let mut boxes: Vec<Box<dyn Service>> = Vec::new(rt.alloc());
    boxes.push(letter_box(rt.alloc(), b'a')?)?;
    boxes.push(Box::new(rt.alloc(), Suite::new())?)?;
    boxes.push(letter_box(rt.alloc(), b'b')?)?;
    let mut table = ServiceTable::open(rt.alloc(), Seat::each(rt.alloc(), boxes)?, 2)?;

    let other = table.take(HostId(0));
    let seat = table.take(HostId(1));
    table.put_back(HostId(1), seat);
    table.put_back(HostId(0), other);
    let mut seat = table.take(HostId(1));
    echoes(&rt, rt.alloc(), &mut seat)
}

#[test]
fn the_last_spare_is_seated(rt: HostRuntime) -> Result<(), Fail> {
    let mut boxes: Vec<Box<dyn Service>> = Vec::new(rt.alloc());
    boxes.push(letter_box(rt.alloc(), b'a')?)?;
    boxes.push(letter_box(rt.alloc(), b'b')?)?;
    boxes.push(letter_box(rt.alloc(), b'c')?)?;
    let mut table = ServiceTable::open(rt.alloc(), Seat::each(rt.alloc(), boxes)?, 2)?;
    assert_eq!(rt; table.replace(HostId(0)), Ok(()));
    assert_eq!(rt; table.replace(HostId(0)), Err(NoSpare));
    let mut seat = table.take(HostId(0));
    let mut other = table.take(HostId(1));
    says(&rt, rt.alloc(), &mut seat, b'c')?;
    says(&rt, rt.alloc(), &mut other, b'b')
}

#[test]
fn each_box_is_in_the_table(rt: HostRuntime) -> Result<(), Fail> {
    let mut boxes: Vec<Box<dyn Service>> = Vec::new(rt.alloc());
    for _made in 0..96u32 {
        boxes.push(Box::new(rt.alloc(), Suite::new())?)?;
    }
    let mut table = ServiceTable::open(rt.alloc(), Seat::each(rt.alloc(), boxes)?, 2)?;
    for _left in 0..94u32 {
        assert_eq!(rt; table.replace(HostId(1)), Ok(()));
    }
    assert_eq!(rt; table.replace(HostId(1)), Err(NoSpare));
    Ok(())
}
