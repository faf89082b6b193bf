// A pool of a few pages, and the room for one message.
ghost use Rattle.std.specs.Prelude.{◌≡◌, IfOk};
ghost use Rattle.msg_pool.specs.Pool.{IsLeaseOf};

use msg_pool::{Lease, MsgPool, PoolFull, Scratch};
use std::process::Abort;
use std::test::Fail;

// Leases and writes the first of three pages.
fn take_first(rt: &impl Abort, pool: &mut MsgPool) -> Result<Lease, PoolFull>
    ensures { IfOk result (λ first. IsLeaseOf pool.new first) }
{
    assert_eq!(rt; pool.free(), 3);
    let first = pool.take(4096)?;
    assert_eq!(rt; pool.free(), 2);
    pool.write(&first, 0, b"old");
    Ok(first)
}

// Leases the other two, and there are no more.
fn take_others(rt: &impl Abort, pool: &mut MsgPool, first: &Lease) -> Result<Lease, PoolFull>
    requires { IsLeaseOf pool.old first.now }
    ensures { IsLeaseOf pool.new first.now }
{
    assert_eq!(rt; pool.check_room(8192), Ok(()));
    assert_eq!(rt; pool.check_room(8193), Err(PoolFull { need: 3, free: 2 }));
    let second = pool.take(4097)?;
    assert_eq!(rt; pool.free(), 0);
    assert_eq!(rt; pool.take(1).err(), Some(PoolFull { need: 1, free: 0 }));
    Ok(second)
}

// Gives the first page back and leases it again: it is zero.
fn take_again(rt: &impl Abort, pool: &mut MsgPool, first: Lease) -> Result<(), PoolFull>
    requires { IsLeaseOf pool.old first }
{
    pool.give(first);
    let third = pool.take(1)?;
    assert_eq!(rt; pool.free(), 0);
    let mut byte = [7];
    pool.copy_out(&third, &mut byte);
    assert_eq!(rt; byte, [0]);
    Ok(())
}

fn take_three(rt: &impl Abort, pool: &mut MsgPool) -> Result<(), PoolFull> {
    let first = take_first(rt, pool)?;
    let _second = take_others(rt, pool, &first)?;
    take_again(rt, pool, first)
}

#[test]
fn three_pages(rt: HostRuntime) -> Result<(), Fail> {
    let mut pool = MsgPool::new(rt.alloc(), 3)?;
    take_three(&rt, &mut pool)?;
    Ok(())
}

// A lease of four bytes, of which the middle ones are written.
fn write_short(pool: &mut MsgPool) -> Result<Lease, PoolFull>
    ensures lease { IfOk result (λ left. IsLeaseOf pool.new left) }
    ensures len { IfOk result (λ left. left.len ≡ 4) }
{
    let left = pool.take(4)?;
    pool.write(&left, 1, b"ab");
    Ok(left)
}

// A lease over two pages, written across their border, beside another lease.
fn write_long(pool: &mut MsgPool, left: &Lease) -> Result<Lease, PoolFull>
    requires { IsLeaseOf pool.old left.now }
    ensures left { IsLeaseOf pool.new left.now }
    ensures lease { IfOk result (λ right. IsLeaseOf pool.new right) }
    ensures len { IfOk result (λ right. right.len ≡ 4104) }
{
    let right = pool.take(4104)?;
    pool.write(&right, 4090, b"0123456789xy");
    Ok(right)
}

fn reads_long(rt: &impl Abort, pool: &MsgPool, right: &Lease)
    requires lease { IsLeaseOf pool.now right.now }
    requires len { right.now.len ≡ 4104 }
{
    let mut long = [1; 4104];
    pool.copy_out(right, &mut long);
    assert!(rt; &long[4088..] == b"\x00\x000123456789xy\x00\x00".as_slice());
    assert!(rt; long[0] == 0);
}

fn reads_short(rt: &impl Abort, pool: &MsgPool, left: &Lease)
    requires lease { IsLeaseOf pool.now left.now }
    requires len { left.now.len ≡ 4 }
{
    let mut short = [1; 4];
    pool.copy_out(left, &mut short);
    assert_eq!(rt; short, [0, b'a', b'b', 0]);
}

fn write_and_read(rt: &impl Abort, pool: &mut MsgPool) -> Result<(), PoolFull> {
    let left = write_short(pool)?;
    let right = write_long(pool, &left)?;
    reads_long(rt, pool, &right);
    reads_short(rt, pool, &left);
    Ok(())
}

#[test]
fn a_write_over_two_pages(rt: HostRuntime) -> Result<(), Fail> {
    let mut pool = MsgPool::new(rt.alloc(), 4)?;
    write_and_read(&rt, &mut pool)?;
    Ok(())
}

// A message is set, and a part of it changed.
fn hold(rt: &impl Abort, scratch: &mut Scratch) {
    assert!(rt; scratch.bytes().is_empty());
    scratch.set(b"message");
    scratch.put(2, b"ts");
    assert!(rt; scratch.bytes() == b"metsage".as_slice());
}

// The bytes of a lease are put in its place.
fn fill(rt: &impl Abort, scratch: &mut Scratch, pool: &mut MsgPool) -> Result<(), PoolFull> {
    let lease = pool.take(3)?;
    pool.write(&lease, 1, b"p");
    scratch.fill(pool, &lease);
    assert!(rt; scratch.bytes() == [0, b'p', 0].as_slice());
    Ok(())
}

#[test]
fn one_message(rt: HostRuntime) -> Result<(), Fail> {
    let mut scratch = Scratch::new(rt.alloc())?;
    let mut pool = MsgPool::new(rt.alloc(), 1)?;
    hold(&rt, &mut scratch);
    fill(&rt, &mut scratch, &mut pool)?;
    Ok(())
}
