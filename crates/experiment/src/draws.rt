// Draws from one generator.
ghost use Rattle.std.specs.Prelude.{◌≡◌, ◌≤◌, ◌<◌, ◌*◌, ◌^◌, true, false};
ghost use Rattle.rand_pcg.specs.Lcg.{started, increment_of};
ghost use Rattle.rand_pcg.specs.Pcg.{multiplier_64};
ghost use Rattle.experiment.specs.Draws.{below, is_in, ln_of, minus_ln, exponential, mixed, named};

use rand_core::utils::NextWord;
use rand_pcg::Lcg64Xsh32;
use std::marker::Model;

/// Words of a generator that was seeded.
#[derive(Drop)]
pub struct Draws {
    random: Lcg64Xsh32,
}

impl Model for Draws {
    ghost use Rattle.rand_pcg.specs.Lcg.{Lcg};

    ghost Value = { Lcg };

    ghost view = { λ d. d.random };
}

/// What tells a packet from all others of a run: its call by the order in which calls were drawn, its kind, the first byte that it
/// carries, and how often such a packet of the call was sent before.
#[derive(Clone, Copy, Debug, PartialEq, Eq)]
pub struct PacketName {
    pub call: u32,
    pub kind: u32,
    pub offset: u32,
    pub times: u32,
}

// The natural logarithm of 2, in 65536ths.
const LN2: u64 = 45_426;

// The natural logarithm of 1 + i / 64, in 65536ths.
const LN: [u32; 65] = [
    0, 1016, 2017, 3002, 3973, 4930, 5873, 6802, 7719, 8623, 9515, 10394, 11262, 12119, 12965,
    13800, 14624, 15438, 16242, 17037, 17821, 18597, 19364, 20121, 20870, 21611, 22343, 23067,
    23783, 24492, 25193, 25886, 26573, 27252, 27924, 28589, 29248, 29900, 30546, 31185, 31818,
    32445, 33067, 33682, 34292, 34896, 35494, 36087, 36675, 37258, 37835, 38407, 38975, 39537,
    40095, 40648, 41196, 41740, 42280, 42815, 43345, 43872, 44394, 44912, 45426,
];

// The stream of the draws of packets.
const PACKETS: u64 = 3;

// The natural logarithm of a word without leading zeros by 2^31, in 65536ths.
fn ln(word: u64) -> u64
    requires least { 2 ^ 31 ≤ word }
    requires most { word < 2 ^ 32 }
    ensures { result ≡ ln_of word }
{
    let fraction = word - (1 << 31);
    let place = (fraction >> 25) as usize;
    let rest = fraction % (1 << 25);
    let low = u64::from(LN[place]);
    let high = u64::from(LN[place + 1]);
    low + ((high.saturating_sub(low) * rest) >> 25)
}

// The natural logarithm of `word` / 2^32, without its sign, in 65536ths; `word` isn't 0.
fn minus_ln(word: u32) -> u64
    requires { 0 < word }
    ensures value { result ≡ minus_ln word }
    ensures most { result ≤ 1499058 }
{
    let zeros = word.leading_zeros();
    (u64::from(zeros + 1) * LN2).saturating_sub(ln(u64::from(word) << zeros))
}

// A number that seems to have nothing to do with this one (the finish of SplitMix64).
fn mixed(n: u64) -> u64
    ensures { result ≡ mixed n }
{
    let a = n.wrapping_add(0x9e37_79b9_7f4a_7c15);
    let b = (a ^ (a >> 30)).wrapping_mul(0xbf58_476d_1ce4_e5b9);
    let c = (b ^ (b >> 27)).wrapping_mul(0x94d0_49bb_1331_11eb);
    c ^ (c >> 31)
}

impl Draws {
    /// The words of a seed, on a stream.
    pub fn new(seed: u64, stream: u64) -> Draws
        ensures { result ≡ started 64 multiplier_64 seed (increment_of 64 stream) }
    {
        Draws {
            random: Lcg64Xsh32::new(seed, stream),
        }
    }

    /// The words of a packet in the run of a seed: they go by its name alone, whatever was drawn before.
    pub fn named(seed: u64, name: PacketName) -> Draws
        ensures { result ≡ named seed name }
    {
        let call = u64::from(name.call) << 32 | u64::from(name.kind);
        let piece = u64::from(name.offset) << 32 | u64::from(name.times);
        Draws {
            random: Lcg64Xsh32::new(mixed(mixed(seed ^ mixed(call)) ^ piece), PACKETS),
        }
    }

    /// A number below `n`.
    pub fn below(&mut self, n: u32) -> u32
        requires { 0 < n }
        ensures drawn { (result, self.new) ≡ below n self.old }
        ensures below { result < n }
    {
        ((u64::from(self.random.next_word()) * u64::from(n)) >> 32) as u32
    }

    /// Whether one of so many parts of a million was drawn.
    pub fn is_in(&mut self, millionths: u32) -> bool
        ensures drawn { (result, self.new) ≡ is_in millionths self.old }
        ensures none { millionths ≡ 0 → result ≡ false }
        ensures all { 1000000 ≤ millionths → result ≡ true }
    {
        self.below(1_000_000) < millionths
    }

    /// A span that is exponential with this mean: at most 23 times as long.
    pub fn exponential(&mut self, mean: u64) -> u64
        requires { mean ≤ 2 ^ 56 }
        ensures drawn { (result, self.new) ≡ exponential mean self.old }
        ensures most { result ≤ 23 * mean }
    {
        let word = self.random.next_word().max(1);
        ((u128::from(mean) * u128::from(minus_ln(word))) >> 16) as u64
    }
}
