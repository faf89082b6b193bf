// A message of ten bytes that comes in pieces.
ghost use Rattle.std.specs.Prelude.{◌≡◌};
ghost use Rattle.homa_in.specs.Part.{IsIn};

use homa_in::{Accepted, Incoming};
use homa_plain::HostId;
use msg_pool::{MsgPool, Scratch};
use std::process::Abort;
use std::test::Fail;

// Two pieces arrive, and bytes that arrived before are repeated.
fn put_two(rt: &impl Abort, part: &mut Incoming, pool: &mut MsgPool)
    requires pool { IsIn pool.old part.old }
    requires length { part.old.length ≡ 10 }
    ensures pool { IsIn pool.new part.new }
    ensures length { part.new.length ≡ 10 }
{
    let pieces = [part.accept(8, b"IJ", pool), part.accept(0, b"ABCD", pool)];
    assert_eq!(rt; pieces, [Accepted::Fresh(2), Accepted::Fresh(4)]);
    assert_eq!(rt;
        (part.gap(), part.remaining(), part.arrived()),
        (Some((4, 8)), 4, 6)
    );
    assert_eq!(rt; part.accept(0, b"wxyz", pool), Accepted::Repeat);
}

// Three of the four bytes that are missing don't complete it, and all four do.
fn put_rest(rt: &impl Abort, part: &mut Incoming, pool: &mut MsgPool, scratch: &mut Scratch)
    requires pool { IsIn pool.old part.old }
    requires length { part.old.length ≡ 10 }
    ensures pool { IsIn pool.new part.new }
    ensures length { part.new.length ≡ 10 }
{
    assert!(rt; !part.whole_with(4, b"EFG", pool, scratch));
    assert!(rt; scratch.bytes().is_empty());
    assert!(rt; part.whole_with(4, b"EFGH", pool, scratch));
    assert!(rt; scratch.bytes() == b"ABCDEFGHIJ".as_slice());
    assert_eq!(rt; part.accept(4, b"EFGH", pool), Accepted::Whole);
}

// It is read and given back.
fn take_out(rt: &impl Abort, part: Incoming, pool: &mut MsgPool)
    requires pool { IsIn pool.old part }
    requires length { part.length ≡ 10 }
{
    let mut bytes = [0; 10];
    pool.copy_out(part.lease(), &mut bytes);
    assert_eq!(rt; bytes, *b"ABCDEFGHIJ");
    assert_eq!(rt; (part.granted(), part.order(), part.len()), (10, 7, 10));
    assert_eq!(rt; part.peer(), HostId(3));
    pool.give(part.close());
    assert_eq!(rt; pool.free(), 2);
}

#[test]
fn a_message_of_ten_bytes(rt: HostRuntime) -> Result<(), Fail> {
    let mut scratch = Scratch::new(rt.alloc())?;
    let mut pool = MsgPool::new(rt.alloc(), 2)?;
    let lease = pool.take(10)?;
    let mut part = Incoming::open(HostId(3), 10, 9, 7, lease);
    assert_eq!(rt; part.gap(), Some((0, 9)));
    part.raise(10);
    put_two(&rt, &mut part, &mut pool);
    put_rest(&rt, &mut part, &mut pool, &mut scratch);
    take_out(&rt, part, &mut pool);
    Ok(())
}
