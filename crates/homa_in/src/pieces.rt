//! The missing bytes of a piece: written to a lease of a pool, or to a list.

ghost use Rattle.std.specs.Prelude.{◌≡◌, ◌+◌, ◌<◌, ◌≤◌, ◌↔◌, ◌≢◌, IsTrue, length};
ghost use Rattle.plain_sets.specs.Maps.{empty};
ghost use Rattle.plain_sets.specs.Numbers.{without_range, IsBelow, ranges};
ghost use Rattle.range_set.specs.Changed.{IfCount, RemovesRange};
ghost use Rattle.range_set.specs.Fits.{FitsRangeSet};
ghost use Rattle.msg_pool.specs.Pool.{bytes_of, IsLeaseOf, with_bytes};
ghost use Rattle.homa_in.specs.Filled.{IsFilled};

use homa_plain::LONGEST_MESSAGE;
use msg_pool::{Lease, MsgPool, Scratch};
use range_set::{Changed, RangeSet};

/// Writes those bytes of a piece that are missing to a lease.
fn write_missing(missing: &RangeSet, lease: &Lease, offset: u32, bytes: &[u8], pool: &mut MsgPool)
    requires lease { IsLeaseOf pool.old lease.now }
    requires fits { offset + length bytes.now ≤ lease.now.len }
    requires small { offset + length bytes.now ≤ LONGEST_MESSAGE }
    ensures pool { pool.new ≡ with_bytes pool.old lease.now (bytes_of pool.new lease.now) }
    ensures bytes { IsFilled missing.now offset (offset + length bytes.now) bytes.now (bytes_of pool.old lease.now) (bytes_of pool.new lease.now) }
{
    let end = offset + bytes.len() as u32;
    let mut from = offset;
    while from < end {
        let Some((first, after)) = missing.first_in(from, end) else {
            return;
        };
        let piece = &bytes[(first - offset) as usize..(after - offset) as usize];
        pool.write(lease, first, piece);
        from = after;
    }
}

/// Writes those bytes of a piece that are missing to a list.
pub(crate) fn put_missing(missing: &RangeSet, offset: u32, bytes: &[u8], scratch: &mut Scratch)
    requires fits { offset + length bytes.now ≤ length scratch.old }
    requires small { offset + length bytes.now ≤ LONGEST_MESSAGE }
    ensures { IsFilled missing.now offset (offset + length bytes.now) bytes.now scratch.old scratch.new }
{
    let end = offset + bytes.len() as u32;
    let mut from = offset;
    while from < end {
        let Some((first, after)) = missing.first_in(from, end) else {
            return;
        };
        let piece = &bytes[(first - offset) as usize..(after - offset) as usize];
        scratch.put(first, piece);
        from = after;
    }
}

/// Takes a piece's bytes off the missing ones and writes those that were missing to a lease, unless more than 64
/// gaps would be left.
pub(crate) fn place(
    missing: &mut RangeSet,
    lease: &Lease,
    offset: u32,
    bytes: &[u8],
    pool: &mut MsgPool,
) -> Changed
    requires lease { IsLeaseOf pool.old lease.now }
    requires some { 0 < length bytes.now }
    requires fits { offset + length bytes.now ≤ lease.now.len }
    requires small { offset + length bytes.now ≤ LONGEST_MESSAGE }
    requires few { length (ranges missing.old) ≤ 64 }
    ensures too_many { (result ≡ Changed.TooMany) ↔ (64 < length (ranges (without_range missing.old offset (offset + length bytes.now)))) }
    ensures unchanged { result ≡ Changed.TooMany → missing.new ≡ missing.old }
    ensures same_pool { result ≡ Changed.TooMany → pool.new ≡ pool.old }
    ensures removed { IfCount result (RemovesRange missing.old missing.new offset (offset + length bytes.now)) }
    ensures bytes { IfCount result (λ _. IsFilled missing.old offset (offset + length bytes.now) bytes.now (bytes_of pool.old lease.now)
        (bytes_of pool.new lease.now)) }
    ensures pool { IfCount result (λ _. pool.new ≡ with_bytes pool.old lease.now (bytes_of pool.new lease.now)) }
    ensures fits { FitsRangeSet missing.new }
{
    let end = offset + bytes.len() as u32;
    if !missing.has_all(offset, end) {
        // No range has the whole piece, and so no range is split.
        write_missing(missing, lease, offset, bytes, pool);
        return missing.remove(offset, end);
    }
    let changed = missing.remove(offset, end);
    if let Changed::Count(_) = changed {
        pool.write(lease, offset, bytes);
    }
    changed
}

/// Whether bytes are missing, and all of them are from `from` to `to` - 1.
pub(crate) fn has_the_last(missing: &RangeSet, from: u32, to: u32, len: u32) -> bool
    requires some { from < to }
    requires below { IsBelow missing.now len }
    ensures { IsTrue result ↔ ((missing.now ≢ empty) × (without_range missing.now from to ≡ empty)) }
{
    if missing.is_empty() {
        return false;
    }
    if missing.first_below(from).is_some() {
        return false;
    }
    if to >= len {
        return true;
    }
    missing.first_in(to, len).is_none()
}
