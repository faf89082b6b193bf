// Messages that are taken in pieces, and copied out of their pages.
ghost use Rattle.std.specs.Prelude.{◌≤◌, ◌+◌, length};
ghost use Rattle.msg_pool.specs.Pool.{IsLeaseOf};

use homa_in::{Accepted, Incoming};
use homa_plain::HostId;
use msg_pool::{Lease, MsgPool, Scratch};
use std::alloc::{AllocError, Global};

// How many bytes a message has, and how many pages it needs.
const LENGTH: u32 = 1_000_000;

const PAGES: u32 = 245;

const PIECE: [u8; 1400] = [0xab; 1400];

// Takes so many pieces of a new message, the first ones, and gives its pages back. Answers how many bytes were new.
fn one_message(pool: &mut MsgPool, pieces: u32) -> u64
    requires { pieces ≤ 714 }
{
    let Ok(lease) = pool.take(LENGTH) else {
        return 0;
    };
    let mut part = Incoming::open(HostId(1), LENGTH, LENGTH, 0, lease);
    let mut fresh = 0_u64;
    let piece = PIECE;
    'pieces: for i in 0..pieces {
        if let Accepted::Fresh(count) = part.accept(i * 1400, &piece, pool) {
            fresh = fresh.wrapping_add(u64::from(count));
        }
    }
    pool.give(part.close());
    fresh
}

/// Takes so many pieces of a message, so many times. Answers how many bytes were new. Before that all pages are written
/// once, so that each message that is opened then has to make them zero, however many pieces it takes.
pub(crate) fn messages(alloc: Global, pieces: u32, times: u64) -> Result<u64, AllocError>
    requires { pieces ≤ 714 }
{
    let mut pool = MsgPool::new(alloc, PAGES)?;
    let _first = one_message(&mut pool, 714);
    let mut fresh = 0_u64;
    for _ in 0..times {
        fresh = fresh.wrapping_add(one_message(&mut pool, pieces));
    }
    Ok(fresh)
}

// Copies the bytes of a lease out, so many times. Answers the sum of the first ones.
fn fill_times(scratch: &mut Scratch, pool: &MsgPool, lease: &Lease, times: u64) -> u64
    requires { IsLeaseOf pool.now lease.now }
{
    let mut sum = 0_u64;
    for _ in 0..times {
        scratch.fill(pool, lease);
        let first = scratch.bytes().first().copied().unwrap_or(0);
        sum = sum.wrapping_add(u64::from(first));
    }
    sum
}

// Writes a piece of a message.
fn put(pool: &mut MsgPool, lease: &Lease, offset: u32, piece: &[u8])
    requires lease { IsLeaseOf pool.old lease.now }
    requires fits { offset + length piece.now ≤ lease.now.len }
    ensures { IsLeaseOf pool.new lease.now }
{
    pool.write(lease, offset, piece);
}

/// Copies a message out of its pages, so many times. Answers the sum of the first bytes.
pub(crate) fn fills(alloc: Global, times: u64) -> Result<u64, AllocError> {
    let mut pool = MsgPool::new(alloc, PAGES)?;
    let mut scratch = Scratch::new(alloc)?;
    let Ok(lease) = pool.take(LENGTH) else {
        return Ok(0);
    };
    put(&mut pool, &lease, 0, &PIECE);
    put(&mut pool, &lease, 998_600, &PIECE);
    Ok(fill_times(&mut scratch, &pool, &lease, times))
}
