// One block: packets that were sent in one tick, as datagrams behind one another.
ghost use Rattle.std.specs.Prelude.{◌≡◌, true, ◌≤◌, ◌<◌, ◌+◌, ◌*◌, ◌^◌, ◌++◌, ◌∷◌, [], Some, length, slice_get, nat_le, IfOk, OnOk};
ghost use Rattle.world_packets.specs.Ends.{ends_at};

use homa_plain::HostId;
use std::alloc::{AllocError, Global};

/// Where a packet's datagram ends, and between whom it was sent.
#[derive(Clone, Copy)]
pub(crate) struct Rec {
    pub(crate) end: u32,
    pub(crate) from: HostId,
    pub(crate) to: HostId,
}

/// The most bytes of a datagram.
pub(crate) const LONGEST: usize = 1444;

// What a short datagram has, in bytes: so many packets a tick of full room has at most, unless there are shorter ones.
const SHORT: usize = 128;

// From how many bytes on a block's room is worth keeping: what of it is empty has less than its packets. Simulated networks keep
// hundreds of blocks of fewer bytes.
const DENSE: usize = 65_536;

/// Packets of a tick.
#[derive(Drop)]
pub(crate) struct Block {
    recs: Vec<Rec>,
    bytes: Vec<u8>,
    ghost ends: { ends_at 0 recs.items (length bytes.items) ≡ true },
    ghost few: { length bytes.items < 2 ^ 32 },
}

impl Block {
    ghost use Rattle.std.specs.Prelude.{ℕ};
    ghost use Rattle.world_packets.specs.Blocks.{frames_of, size_of, start_at, end_of, HasRoom};

    /// No packet.
    pub(crate) fn open(alloc: Global) -> Block
        ensures frames { frames_of result ≡ [] }
        ensures size { size_of result ≡ 0 }
    {
        Block {
            recs: Vec::new(alloc),
            bytes: Vec::new(alloc),
        }
    }

    /// No packet, with room for as many as a tick of so many bytes has, and for those of a step.
    pub(crate) fn with_room(alloc: Global, size: usize) -> Result<Block, AllocError>
        requires { size < 2 ^ 32 }
        ensures frames { IfOk result (λ block. frames_of block ≡ []) }
        ensures size { IfOk result (λ block. size_of block ≡ 0) }
    {
        let recs = Vec::with_capacity(alloc, size / SHORT)?;
        let bytes = Vec::with_capacity(alloc, size + size / 4 + 64 * LONGEST)?;
        Ok(Block { recs, bytes })
    }

    /// How many packets there are.
    pub(crate) fn len(&self) -> usize
        ensures { result ≡ length (frames_of self.now) }
    {
        self.recs.len()
    }

    /// How many bytes they have.
    pub(crate) fn size(&self) -> usize
        ensures size { result ≡ size_of self.now }
        ensures few { result < 2 ^ 32 }
    {
        self.bytes.len()
    }

    /// Whether its room is worth keeping: it has 65,536 bytes or more.
    pub(crate) fn is_dense(&self) -> bool
        ensures { result ≡ nat_le 65536 (size_of self.now) }
    {
        DENSE <= self.bytes.len()
    }

    /// Room for 64 more packets: until they are there `push` takes no memory.
    pub(crate) fn reserve(&mut self) -> Result<(), AllocError>
        ensures room { OnOk result (HasRoom self.new 64) }
        ensures frames { frames_of self.new ≡ frames_of self.old }
        ensures size { size_of self.new ≡ size_of self.old }
    {
        self.recs.reserve(64)?;
        self.bytes.reserve(64 * LONGEST)?;
        Ok(())
    }

    /// Whether there is room for 64 more packets.
    pub(crate) fn has_room(&self) -> bool
        ensures { result ≡ true → HasRoom self.now 64 }
    {
        self.recs.len() + 64 <= self.recs.capacity()
            && self.bytes.len() + 64 * LONGEST <= self.bytes.capacity()
    }

    /// No packet any more; the room stays.
    pub(crate) fn clear(&mut self)
        ensures frames { frames_of self.new ≡ [] }
        ensures size { size_of self.new ≡ 0 }
    {
        self.recs.clear();
        self.bytes.clear();
    }

    /// The same packets in room of their own, as much as they need.
    pub(crate) fn copy(&self, alloc: Global) -> Result<Block, AllocError>
        ensures { IfOk result (λ block. frames_of block ≡ frames_of self.now) }
    {
        let recs = Vec::from_slice(alloc, &self.recs)?;
        let bytes = Vec::from_slice(alloc, &self.bytes)?;
        Ok(Block { recs, bytes })
    }

    /// The packets of another block, in the room of this one, whose own packets are gone. More room is taken if they
    /// need it.
    pub(crate) fn refilled(self, other: &Block) -> Result<Block, AllocError>
        ensures { IfOk result (λ block. frames_of block ≡ frames_of other.now) }
    {
        let Block {
            mut recs,
            mut bytes,
        } = self;
        recs.clear();
        bytes.clear();
        recs.extend_from_slice(&other.recs)?;
        bytes.extend_from_slice(&other.bytes)?;
        Ok(Block { recs, bytes })
    }

    /// Adds a packet, in room that was taken before.
    pub(crate) fn push(&mut self, from: HostId, to: HostId, bytes: &[u8])
        requires room { HasRoom self.old 1 }
        requires short { length bytes.now ≤ 1444 }
        requires few { size_of self.old + length bytes.now < 2 ^ 32 }
        ensures frames { frames_of self.new ≡ frames_of self.old ++ record { from = from; to = to; bytes = bytes.now } ∷ [] }
        ensures size { size_of self.new ≡ size_of self.old + length bytes.now }
        ensures room { (n : ℕ) → HasRoom self.old (n + 1) → HasRoom self.new n }
    {
        self.bytes.extend_from_slice(bytes).unwrap();
        self.recs.push_reserved(Rec {
            end: self.bytes.len() as u32,
            from,
            to,
        });
    }

    // Where a packet's datagram begins and ends.
    fn span(&self, i: usize) -> (usize, usize)
        requires { i < length (frames_of self.now) }
        ensures start { result.0 ≡ start_at 0 self.now.recs.items i }
        ensures end { result.1 ≡ end_of self.now.recs.items i }
        ensures order { result.0 ≤ result.1 }
        ensures within { result.1 ≤ size_of self.now }
    {
        let end = self.recs[i].end as usize;
        if i == 0 {
            return (0, end);
        }
        let before = self.recs[i - 1].end as usize;
        (before, end)
    }

    /// The packet with this number within the block.
    pub(crate) fn get(&self, i: usize) -> (HostId, HostId, &[u8])
        requires { i < length (frames_of self.now) }
        ensures { slice_get (frames_of self.now) i ≡ Some (record { from = result.0; to = result.1; bytes = result.2.now }) }
    {
        let (start, end) = self.span(i);
        let rec = self.recs[i];
        (rec.from, rec.to, &self.bytes[start..end])
    }
}
