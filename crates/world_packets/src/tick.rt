// The packets of a tick, with their datagrams.
ghost use Rattle.std.specs.Prelude.{◌≡◌, ◌<◌, Some, length, slice_get};

use crate::block::Block;
use crate::packets::Kept;

/// The packets that were sent in a tick, from number `first` on.
#[derive(Drop)]
pub(crate) struct Tick {
    pub(crate) tick: u64,
    pub(crate) first: u64,
    pub(crate) block: Block,
}

impl Tick {
    ghost use Rattle.world_packets.specs.Kept.{kept_seen};
    ghost use Rattle.world_packets.specs.Ticks.{kept_of};

    /// The packet with this number within the tick.
    pub(crate) fn get(&self, i: usize) -> Kept<'_>
        requires { i < length (kept_of self.now) }
        ensures { slice_get (kept_of self.now) i ≡ Some (kept_seen result) }
    {
        let (from, to, bytes) = self.block.get(i);
        Kept::Whole {
            tick: self.tick,
            from,
            to,
            bytes,
        }
    }
}
