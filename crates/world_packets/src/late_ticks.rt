// Packets that are late for good, of a few ticks: of each the tick in which it was sent.
ghost use Rattle.std.specs.Prelude.{◌≡◌, ◌<◌, ◌+◌, ◌-◌, ◌++◌, ◌^◌, true, Some, length, replicate, slice_get, if◌then◌else◌};
ghost use Rattle.world_packets.specs.Kept.{LatePacket};
ghost use Rattle.world_packets.specs.Later.{last_tick, late_kept};

use arrayvec::ArrayVec;

/// A tick with packets: how many ticks behind the one before, and how many packets.
#[derive(Clone, Copy, Default)]
pub(crate) struct Later {
    pub(crate) gap: u16,
    pub(crate) count: u16,
}

/// The most that a `Later` can count.
const MOST: u64 = 65535;

/// The packets of at most 65 ticks, from number `first` on: `many` of tick `tick`, and those of later ones. It takes 304 bytes.
/// A tick that is further behind the one before, or has more packets, than a `Later` can count begins another.
#[derive(Drop)]
pub(crate) struct LateTicks {
    pub(crate) first: u64,
    pub(crate) tick: u64,
    pub(crate) many: u64,
    pub(crate) later: ArrayVec<Later, 64>,
    // The last tick, and the number behind the last packet.
    last: u64,
    end: u64,
    ghost last_is: { last_tick tick later.items ≡ last },
    ghost end_is: { first + length (late_kept tick many later.items) ≡ end },
}

impl LateTicks {
    ghost use Rattle.world_packets.specs.Lates.{late_of, fits_in};

    /// So many packets of one tick.
    pub(crate) fn open(first: u64, tick: u64, many: u64) -> LateTicks
        requires { first + many < 2 ^ 64 }
        ensures kept { late_of result ≡ replicate many (LatePacket tick) }
        ensures first { result.first ≡ first }
    {
        LateTicks {
            first,
            tick,
            many,
            later: ArrayVec::new(),
            last: tick,
            end: first + many,
        }
    }

    /// The number behind the last packet.
    pub(crate) fn end(&self) -> u64
        ensures { result ≡ self.now.first + length (late_of self.now) }
    {
        self.end
    }

    /// Adds so many packets of a later tick; false where they don't fit in, and then nothing is added.
    pub(crate) fn push(&mut self, tick: u64, count: u64) -> bool
        requires { self.old.first + length (late_of self.old) + count < 2 ^ 64 }
        ensures fits { result ≡ fits_in self.old tick count }
        ensures kept { late_of self.new ≡ (if result then late_of self.old ++ replicate count (LatePacket tick) else late_of self.old) }
        ensures first { self.new.first ≡ self.old.first }
    {
        if tick < self.last || tick - self.last > MOST || count > MOST || self.later.is_full() {
            return false;
        }
        self.later.push(Later {
            gap: (tick - self.last) as u16,
            count: count as u16,
        });
        self.last = tick;
        self.end += count;
        true
    }

    /// The tick of the packet with this number among them.
    pub(crate) fn get(&self, i: u64) -> u64
        requires { i < length (late_of self.now) }
        ensures { slice_get (late_of self.now) i ≡ Some (LatePacket result) }
    {
        let mut tick = self.tick;
        if i < self.many {
            return tick;
        }
        let mut left = i - self.many;
        let ticks = self.later.as_slice();
        for later in ticks {
            tick += u64::from(later.gap);
            let count = u64::from(later.count);
            if left < count {
                return tick;
            }
            left -= count;
        }
        tick
    }
}
