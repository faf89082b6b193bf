// The datagrams that may still be delivered.
ghost use Rattle.std.specs.Prelude.{◌≡◌, true, ℕ, ◌<◌, ◌≤◌, ◌^◌, ◌++◌, ◌∷◌, [], max, length, map, filter, slice_index_or, OnOk};
ghost use Rattle.node_runs.specs.Recorder.{greatest, is_same as is_same_kept, Kept};
ghost use Rattle.homa_record.specs.Places.{hash_on, bucket_of, place_of, place_after};
ghost use Rattle.homa_record.specs.Stored.{kept_of, greater_of, is_in_life, are_rising, IsIndexed};

use homa_plain::HostId;
use std::alloc::{AllocError, Global};
use std::collections::VecDeque;

/// A datagram that was sent. `back` is how far behind the one before it of its bucket stands, and 0 where there was none.
#[derive(Drop)]
pub(crate) struct Rec {
    pub(crate) number: u64,
    pub(crate) from: HostId,
    pub(crate) to: HostId,
    pub(crate) tick: u64,
    pub(crate) bytes: Vec<u8>,
    pub(crate) back: usize,
}

/// How many buckets there are: a prime.
const BUCKETS: usize = 65521;

/// How many bytes of a datagram choose its bucket: those of the header, and some more.
const HASHED: usize = 48;

// What bytes add to a hash.
fn hash_bytes(start: u32, bytes: &[u8]) -> u32
    requires { start < 65521 }
    ensures hash { result ≡ hash_on start bytes.now }
    ensures small { result < 65521 }
{
    let mut hash = start;
    for b in bytes {
        hash = (hash * 4099 + u32::from(*b)) % 65521;
    }
    hash
}

// The bucket of a datagram.
fn bucket(from: HostId, to: HostId, bytes: &[u8]) -> usize
    ensures bucket { result ≡ bucket_of from to bytes.now }
    ensures within { result < 65521 }
{
    let head = if bytes.len() < HASHED {
        bytes
    } else {
        &bytes[..HASHED]
    };
    let hosts = (u32::from(from.0) * 4099 + u32::from(to.0)) % 65521;
    hash_bytes(hosts, head) as usize
}

// Where the datagram with this number in the order of sending stands, if the first one has the number `first`. The numbers
// begin anew at 0 behind the last one.
fn place(first: usize, number: usize) -> usize
    ensures { result ≡ place_of first number }
{
    if number < first {
        return usize::MAX - first + number + 1;
    }
    number - first
}

// The number of the datagram at this place.
fn after(first: usize, place: usize) -> usize
    ensures { result ≡ place_after first place }
{
    if usize::MAX - first < place {
        return place - (usize::MAX - first) - 1;
    }
    first + place
}

// Makes room for all buckets, where there is none yet. Each begins at 0.
fn grow(heads: &mut Vec<usize>) -> Result<(), AllocError>
    ensures ok { OnOk result (65521 ≤ length heads.new.items) }
    ensures same { (b : ℕ) → slice_index_or heads.new.items b 0 ≡ slice_index_or heads.old.items b 0 }
{
    if heads.len() < BUCKETS {
        heads.resize(BUCKETS, 0)?;
    }
    Ok(())
}

// The number at the head of a bucket, and 0 where there is no room for it yet.
fn head(heads: &[usize], bucket: usize) -> usize
    ensures { result ≡ slice_index_or heads.now bucket 0 }
{
    heads.get(bucket).copied().unwrap_or(0)
}

impl Rec {
    // Whether it was sent from one host to another with these bytes.
    fn is_same(&self, host: HostId, from: HostId, bytes: &[u8]) -> bool
        ensures { result ≡ is_same_kept host from bytes.now (kept_of self.now) }
    {
        self.to == host && self.from == from && self.bytes.as_slice() == bytes
    }
}

// The greater of two numbers, if there was one before.
fn greater(best: Option<u64>, number: u64) -> Option<u64>
    ensures { result ≡ greater_of number best }
{
    match best {
        None => Some(number),
        Some(other) => Some(number.max(other)),
    }
}

/// The datagrams that may still be delivered, in the order of their sending.
#[derive(Drop)]
pub(crate) struct Store {
    // The number of the last datagram of each bucket. It may have been given up. Empty up to the first datagram.
    heads: Vec<usize>,
    ring: VecDeque<Rec>,
    // The number of the first datagram.
    first: usize,
    tick: u64,
    ghost fits: { first < 2 ^ 64 },
    ghost indexed: { IsIndexed first heads.items ring.items },
    ghost rising: { are_rising 0 ring.items tick ≡ true },
}

impl Store {
    ghost use Rattle.homa_record.specs.Store.{stored, tick_of};

    /// No datagram, at tick 0. It takes no memory yet.
    pub(crate) fn new(alloc: Global) -> Store
        ensures none { stored result ≡ [] }
        ensures tick { tick_of result ≡ 0 }
    {
        Store {
            heads: Vec::new(alloc),
            ring: VecDeque::new(alloc),
            first: 0,
            tick: 0,
        }
    }

    /// The tick in which the next datagrams are sent.
    pub(crate) fn tick(&self) -> u64
        ensures { result ≡ tick_of self.now }
    {
        self.tick
    }

    /// Adds a datagram.
    pub(crate) fn push(
        &mut self,
        number: u64,
        from: HostId,
        to: HostId,
        bytes: Vec<u8>,
    ) -> Result<(), AllocError>
        ensures more { OnOk result (stored self.new ≡ stored self.old
            ++ record { number = number; from = from; to = to; tick = tick_of self.old; bytes = bytes.items } ∷ []) }
        ensures tick { tick_of self.new ≡ tick_of self.old }
    {
        grow(&mut self.heads)?;
        let bucket = bucket(from, to, &bytes);
        let at = self.ring.len();
        let last = place(self.first, self.heads[bucket]);
        let back = at.saturating_sub(last);
        self.ring.push_back(Rec {
            number,
            from,
            to,
            tick: self.tick,
            bytes,
            back,
        })?;
        self.heads[bucket] = after(self.first, at);
        Ok(())
    }

    /// The next datagrams are sent in this tick, if it is a later one.
    pub(crate) fn go_on(&mut self, now: u64)
        ensures stored { stored self.new ≡ stored self.old }
        ensures tick { tick_of self.new ≡ max (tick_of self.old) now }
    {
        self.tick = self.tick.max(now);
    }

    /// Gives up the datagrams whose life is over.
    pub(crate) fn give_up(&mut self, life: u32)
        ensures stored { stored self.new ≡ filter (is_in_life life (tick_of self.old)) (stored self.old) }
        ensures tick { tick_of self.new ≡ tick_of self.old }
    {
        while !self.ring.is_empty() && self.tick - self.ring[0].tick > u64::from(life) {
            self.ring.pop_front();
            self.first = after(self.first, 1);
        }
    }

    /// The greatest number of the datagrams that were sent from one host to another with these bytes.
    pub(crate) fn find(&self, host: HostId, from: HostId, bytes: &[u8]) -> Option<u64>
        ensures { result ≡ greatest (map (λ (d : Kept). d.number) (filter (is_same_kept host from bytes.now) (stored self.now))) }
    {
        let mut best = None;
        let mut at = place(self.first, head(&self.heads, bucket(from, host, bytes)));
        while at < self.ring.len() {
            let rec = &self.ring[at];
            if rec.is_same(host, from, bytes) {
                best = greater(best, rec.number);
            }
            if rec.back == 0 || at < rec.back {
                return best;
            }
            at -= rec.back;
        }
        best
    }
}
