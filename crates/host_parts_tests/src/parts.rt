// Two messages in three pages.
ghost use Rattle.std.specs.Prelude.{◌≡◌, ◌<◌};
ghost use Rattle.plain_sets.specs.Maps.{len};
ghost use Rattle.homa_in.specs.Part.{IsIn};

use homa_in::{Incoming, Opening, Piece, Put, close_part, open_part, put_piece};
use homa_plain::HostId;
use msg_pool::{MsgPool, Scratch};
use std::process::Abort;
use std::test::Fail;

const PEER: HostId = HostId(1);

// The first bytes of a message of `size` bytes.
fn first_piece(size: u32, bytes: &[u8]) -> Piece<'_>
    ensures size { result.size ≡ size }
    ensures offset { result.offset ≡ 0 }
    ensures bytes { result.bytes.now ≡ bytes.now }
{
    Piece {
        size,
        offset: 0,
        service: 0,
        bytes,
    }
}

// Beside a message of one page, one that needs more pages than are left, and one that comes whole in a piece.
fn open_others(rt: &impl Abort, short: &Incoming, pool: &mut MsgPool, scratch: &mut Scratch)
    requires { IsIn pool.old short.now }
    ensures { IsIn pool.new short.now }
{
    assert_eq!(rt; pool.free(), 2);
    let mut part = None;
    let full = open_part(
        &mut part,
        PEER,
        first_piece(8193, b"x"),
        1,
        10,
        pool,
        scratch,
    );
    assert_eq!(rt; full, Opening::Full { need: 3, free: 2 });
    assert!(rt; part.is_none());
    let whole = open_part(
        &mut part,
        PEER,
        first_piece(3, b"xyz"),
        1,
        10,
        pool,
        scratch,
    );
    assert_eq!(rt; whole, Opening::Whole);
    assert!(rt; part.is_none());
    assert!(rt; scratch.bytes() == b"xyz".as_slice());
    assert_eq!(rt; pool.free(), 2);
}

// The other bytes come in two pieces, and its page is free again.
fn put_rest(rt: &impl Abort, mut short: Incoming, pool: &mut MsgPool, scratch: &mut Scratch)
    requires pool { IsIn pool.old short }
    requires length { short.length ≡ 6 }
    requires missing { 0 < len short.missing }
{
    assert_eq!(rt; put_piece(&mut short, 4, b"ef", pool, scratch), Put::Taken);
    assert_eq!(rt; put_piece(&mut short, 1, b"BCD", pool, scratch), Put::Last);
    assert!(rt; scratch.bytes() == b"abCDef".as_slice());
    assert_eq!(rt; short.remaining(), 2);
    close_part(short, pool);
    assert_eq!(rt; pool.free(), 3);
}

#[test]
fn two_messages_in_three_pages(rt: HostRuntime) -> Result<(), Fail> {
    let mut scratch = Scratch::new(rt.alloc())?;
    let mut pool = MsgPool::new(rt.alloc(), 3)?;
    // One page; "cdef" are missing.
    let piece = first_piece(6, b"ab");
    let mut part = None;
    let begun = open_part(&mut part, PEER, piece, 0, 10, &mut pool, &mut scratch);
    assert_eq!(rt; begun, Opening::Begun);
    let Some(short) = part else {
        assert!(rt; false, "the first message has no part");
        return Ok(());
    };
    open_others(&rt, &short, &mut pool, &mut scratch);
    put_rest(&rt, short, &mut pool, &mut scratch);
    Ok(())
}
