//! The level of a message, by its receiver's cutoffs.
//! Rule: unscheduled bytes go at the level that the receiver's CUTOFFS give their message's length.
ghost use Rattle.std.specs.Prelude.{◌≡◌, ◌≤◌};
ghost use Rattle.homa_plain.specs.declared.packet.Cutoffs.{Cutoffs};
ghost use Rattle.homa_plain.specs.Cutoffs.{first_cutoffs, level_of};

use homa_plain::{Cutoffs, LONGEST_MESSAGE};

/// What gives messages their levels: of those from `k` to 7, where `k` (1 to 7) is one above the levels that
/// scheduled packets have.
pub trait Levels {
    /// The cutoffs that contracts see.
    ghost cutoffs: { Self → Cutoffs };

    /// The cutoffs of a receiver that has counted no message: version 0, each length at level 7.
    fn first(k: u32) -> Cutoffs
        requires from { 1 ≤ k }
        requires to { k ≤ 7 }
        ensures { result ≡ first_cutoffs k };

    /// The level (`k` to 7) of a message of `len` bytes: the greatest whose bound it doesn't exceed, and `k` if
    /// there is none.
    fn level(&self, k: u32, len: u32) -> u8
        requires from { 1 ≤ k }
        requires to { k ≤ 7 }
        ensures { result ≡ level_of k (cutoffs self.now) len };
}

impl Levels for Cutoffs {
    ghost cutoffs = { λ c. c };

    fn first(k: u32) -> Cutoffs
        requires from { 1 ≤ k }
        requires to { k ≤ 7 }
        ensures { result ≡ first_cutoffs k }
    {
        let mut upto = [0; 8];
        for (level, bound) in upto.iter_mut().enumerate() {
            *bound = if (level as u32) < k {
                0
            } else {
                LONGEST_MESSAGE
            };
        }
        Cutoffs { version: 0, upto }
    }

    fn level(&self, k: u32, len: u32) -> u8
        requires from { 1 ≤ k }
        requires to { k ≤ 7 }
        ensures { result ≡ level_of k self.now len }
    {
        let mut level = 7;
        while level > k && len > self.upto[level as usize] {
            level -= 1;
        }
        level as u8
    }
}
