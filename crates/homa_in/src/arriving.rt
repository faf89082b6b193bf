//! Incoming messages.

ghost use Rattle.std.specs.Prelude.{◌≡◌, ◌+◌, ◌-◌, ◌<◌, ◌≤◌, ◌↔◌, ◌==◌, true, false, if◌then◌else◌, length, IfSome};
ghost use Rattle.std.specs.Bool.{OnTrue, OnFalse};
ghost use Rattle.std.specs.Option.{option_map};
ghost use Rattle.plain_sets.specs.Maps.{len};
ghost use Rattle.plain_sets.specs.Numbers.{first_below};
ghost use Rattle.range_set.specs.Fits.{bounds};
ghost use Rattle.msg_pool.specs.Pool.{Pool, bytes_of, IsLeaseOf, with_bytes as pool_with};
ghost use Rattle.homa_plain.specs.Incoming.{opened, arrived, remaining, first_gap, with_bytes, new_bytes, leaves_too_many_gaps, message};
ghost use Rattle.homa_plain.specs.Incoming.{granted_to, IsSound};
ghost use Rattle.homa_in.specs.Part.{seen, unarrived, IsIn};
ghost use Rattle.homa_in.specs.Accepts.{completes, answer};

use crate::pieces::{has_the_last, place, put_missing};
use homa_plain::{HostId, LONGEST_MESSAGE};
use msg_pool::{Lease, MsgPool, Scratch};
use range_set::{Changed, RangeSet};
use std::marker::Model;

/// An incoming message. Its bytes are in a pool, under its lease.
#[derive(Drop)]
pub struct Incoming {
    peer: HostId,
    len: u32,
    order: u64,
    granted: u32,
    // The bytes that haven't arrived.
    missing: RangeSet,
    lease: Lease,
}

impl Model for Incoming {
    ghost use Rattle.homa_in.specs.Part.{Part, part_code, IsPart};

    ghost Value = { Part };

    ghost coded = { part_code };

    ghost view = { λ m. record { peer = m.peer; length = m.len; order = m.order; granted = m.granted; missing = m.missing; lease = m.lease } };

    ghost invariant = { λ m. IsPart m.len m.granted m.missing m.lease };
}

/// What a piece did.
#[derive(Clone, Copy, Debug, PartialEq, Eq)]
pub enum Accepted {
    /// This many of its bytes were new, and bytes are still missing.
    Fresh(u32),
    /// It had new bytes, and now none is missing.
    Whole,
    /// None of its bytes was new, and nothing changed.
    Repeat,
    /// More than 64 gaps would have been left, and nothing changed.
    TooManyGaps,
}

/// Returns what a piece with so many new bytes did, if these bytes are still missing.
fn taken(count: u32, missing: &RangeSet) -> Accepted
    ensures { result ≡ (if count == 0 then Accepted.Repeat else (if len missing.now == 0 then Accepted.Whole else Accepted.Fresh count)) }
{
    if count == 0 {
        return Accepted::Repeat;
    }
    if missing.count() == 0 {
        return Accepted::Whole;
    }
    Accepted::Fresh(count)
}

impl Incoming {
    /// A message of `len` bytes of which nothing has arrived; `granted` is its granted end.
    pub fn open(peer: HostId, len: u32, granted: u32, order: u64, lease: Lease) -> Incoming
        requires lease { lease.len ≡ len }
        requires granted { granted ≤ len }
        ensures part { result ≡ unarrived peer len order granted lease }
        ensures seen { (pool : Pool) → IsLeaseOf pool lease → seen pool result ≡ opened peer len order granted }
    {
        // A lease has 1 to 1,000,000 bytes, and so has the message.
        let leased = lease.len();
        prove!(leased == len as usize);
        Incoming {
            peer,
            len,
            order,
            granted,
            missing: RangeSet::upto(len),
            lease,
        }
    }

    /// Takes a piece of the message that begins at `offset`. Bytes that had arrived keep their values.
    pub fn accept(&mut self, offset: u32, bytes: &[u8], pool: &mut MsgPool) -> Accepted
        requires some { 0 < length bytes.now }
        requires fits { offset + length bytes.now ≤ self.old.length }
        requires pool { IsIn pool.old self.old }
        ensures answer { result ≡ answer (seen pool.old self.old) offset bytes.now }
        ensures too_many { (result ≡ Accepted.TooManyGaps) ↔ (leaves_too_many_gaps (seen pool.old self.old) offset bytes.now ≡ true) }
        ensures repeat { (result ≡ Accepted.Repeat) ↔ (new_bytes (seen pool.old self.old) offset bytes.now ≡ 0) }
        ensures whole { (result ≡ Accepted.Whole) ↔ (completes (seen pool.old self.old) offset bytes.now ≡ true) }

        // The message has the piece, unless that would leave too many gaps; nothing else changes.
        ensures taken { leaves_too_many_gaps (seen pool.old self.old) offset bytes.now ≡ false
            → seen pool.new self.new ≡ with_bytes (seen pool.old self.old) offset bytes.now }
        ensures part { self.new ≡ record self.old { missing = self.new.missing } }
        ensures others { pool.new ≡ pool_with pool.old self.old.lease (bytes_of pool.new self.old.lease) }
        ensures pool { IsIn pool.new self.new }

        // Nothing at all changes where there are too many gaps or no new bytes.
        ensures refused { result ≡ Accepted.TooManyGaps → (self.new ≡ self.old) × (pool.new ≡ pool.old) }
        ensures repeated { result ≡ Accepted.Repeat → (self.new ≡ self.old) × (pool.new ≡ pool.old) }

        // What is missing of the part is what the message lacks.
        ensures missing { len self.new.missing ≡ remaining (seen pool.new self.new) }
        ensures sound { IsSound (seen pool.new self.new) }
    {
        match place(&mut self.missing, &self.lease, offset, bytes, pool) {
            Changed::TooMany => Accepted::TooManyGaps,
            Changed::Count(count) => taken(count, &self.missing),
        }
    }

    /// Whether a piece would make the message whole; then `scratch` is the whole message. The message stays as it is.
    pub fn whole_with(
        &self,
        offset: u32,
        bytes: &[u8],
        pool: &MsgPool,
        scratch: &mut Scratch,
    ) -> bool
        requires some { 0 < length bytes.now }
        requires fits { offset + length bytes.now ≤ self.now.length }
        requires pool { IsIn pool.now self.now }
        ensures completes { result ≡ completes (seen pool.now self.now) offset bytes.now }
        ensures message { OnTrue result (scratch.new ≡ message (with_bytes (seen pool.now self.now) offset bytes.now)) }
        ensures same { OnFalse result (scratch.new ≡ scratch.old) }
        ensures missing { len self.now.missing ≡ remaining (seen pool.now self.now) }
        ensures sound { IsSound (seen pool.now self.now) }
    {
        let len = self.len;
        let end = offset + bytes.len() as u32;
        if !has_the_last(&self.missing, offset, end, len) {
            return false;
        }
        scratch.fill(pool, &self.lease);
        put_missing(&self.missing, offset, bytes, scratch);
        true
    }

    /// The first range of missing bytes below the granted end: from the first to before the second number.
    pub fn gap(&self) -> Option<(u32, u32)>
        ensures value { result ≡ option_map bounds (first_below self.now.missing self.now.granted) }
        ensures seen { (pool : Pool) → IsIn pool self.now → result ≡ option_map bounds (first_gap (seen pool self.now)) }
        ensures within { IfSome result (λ r. (r.0 < r.1) × (r.1 ≤ LONGEST_MESSAGE)) }
    {
        self.missing.first_below(self.granted)
    }

    /// How many bytes are missing.
    pub fn remaining(&self) -> u32
        ensures value { result ≡ len self.now.missing }
        ensures seen { (pool : Pool) → IsIn pool self.now → result ≡ remaining (seen pool self.now) }
        ensures sound { (pool : Pool) → IsIn pool self.now → IsSound (seen pool self.now) }
    {
        self.missing.count()
    }

    /// How many bytes have arrived.
    pub fn arrived(&self) -> u32
        ensures value { result + len self.now.missing ≡ self.now.length }
        ensures seen { (pool : Pool) → IsIn pool self.now → result ≡ len (arrived (seen pool self.now)) }
    {
        self.len - self.missing.count()
    }

    /// The granted end: its sender may send the bytes below this number.
    pub fn granted(&self) -> u32
        ensures value { result ≡ self.now.granted }
        ensures within { result ≤ self.now.length }
    {
        self.granted
    }

    /// Its order: messages that were opened earlier have lower numbers.
    pub fn order(&self) -> u64
        ensures { result ≡ self.now.order }
    {
        self.order
    }

    /// The host that sends it.
    pub fn peer(&self) -> HostId
        ensures { result ≡ self.now.peer }
    {
        self.peer
    }

    /// How many bytes it has in all: at most 1,000,000.
    pub fn len(&self) -> u32
        ensures value { result ≡ self.now.length }
        ensures small { result ≤ LONGEST_MESSAGE }
        ensures lease { result ≡ self.now.lease.len }
        ensures missing { len self.now.missing ≤ result }
    {
        self.len
    }

    /// Raises the granted end.
    pub fn raise(&mut self, granted: u32)
        requires raised { self.old.granted ≤ granted }
        requires within { granted ≤ self.old.length }
        ensures part { self.new ≡ record self.old { granted = granted } }
        ensures seen { (pool : Pool) → seen pool self.new ≡ granted_to (seen pool self.old) granted }
    {
        self.granted = granted;
    }

    /// The lease under which its bytes stand.
    pub fn lease(&self) -> &Lease
        ensures { result.now ≡ self.now.lease }
    {
        &self.lease
    }

    /// Ends the message and gives its lease back to the pool.
    pub fn close(self) -> Lease
        ensures { result ≡ self.lease }
    {
        let Incoming { lease, .. } = self;
        lease
    }
}
