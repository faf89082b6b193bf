// The amounts of network and load, by the names that lines give them.
ghost use Rattle.std.specs.Prelude.{◌≡◌};
ghost use Rattle.std.specs.Str.{bytes_eq};
ghost use Rattle.experiment.specs.Amounts.{amount_word, index, least, most, value, load_value, amounts, amount_in};

use crate::load::Load;
use crate::network::Network;

/// An amount of the network or the load that a line may say.
#[derive(Clone, Copy, Debug, PartialEq, Eq)]
pub enum Amount {
    Link,
    Delay,
    Switch,
    HostDelay,
    ServiceTime,
    Overhead,
    Buffer,
    CardLimit,
    Tick,
    Spread,
    Loss,
    Repeat,
    Jitter,
    Load,
    Exact,
    Service,
    Incast,
    Burst,
    Warm,
    Measure,
    Seed,
    Seeds,
    Parts,
    Events,
}

// The picoseconds of a nanosecond.
pub(crate) const NANO: u64 = 1000;

// The picoseconds that a byte takes at 1 Mbit/s.
pub(crate) const BYTE_AT_ONE: u64 = 8_000_000;

// A second in nanoseconds.
const SECOND: u64 = 1_000_000_000;

impl Amount {
    /// All amounts, in the order in which they are printed.
    pub const ALL: [Amount; 24] = [
        Amount::Link,
        Amount::Delay,
        Amount::Switch,
        Amount::HostDelay,
        Amount::ServiceTime,
        Amount::Overhead,
        Amount::Buffer,
        Amount::CardLimit,
        Amount::Tick,
        Amount::Spread,
        Amount::Loss,
        Amount::Repeat,
        Amount::Jitter,
        Amount::Load,
        Amount::Exact,
        Amount::Service,
        Amount::Incast,
        Amount::Burst,
        Amount::Warm,
        Amount::Measure,
        Amount::Seed,
        Amount::Seeds,
        Amount::Parts,
        Amount::Events,
    ];

    /// Its place among all amounts.
    pub(crate) fn index(self) -> usize
        ensures { result ≡ index self }
    {
        self as usize
    }

    /// The word that names it.
    pub fn word(self) -> &'static str
        ensures { result.now ≡ amount_word self }
    {
        match self {
            Amount::Link => "link",
            Amount::Delay => "delay",
            Amount::Switch => "switch",
            Amount::HostDelay => "host-delay",
            Amount::ServiceTime => "service-time",
            Amount::Overhead => "overhead",
            Amount::Buffer => "buffer",
            Amount::CardLimit => "card-limit",
            Amount::Tick => "tick",
            Amount::Spread => "spread",
            Amount::Loss => "loss",
            Amount::Repeat => "repeat",
            Amount::Jitter => "jitter",
            Amount::Load => "load",
            Amount::Exact => "exact",
            Amount::Service => "service",
            Amount::Incast => "incast",
            Amount::Burst => "burst",
            Amount::Warm => "warm",
            Amount::Measure => "measure",
            Amount::Seed => "seed",
            Amount::Seeds => "seeds",
            Amount::Parts => "parts",
            Amount::Events => "events",
        }
    }

    /// The least number that it may have, and the greatest. Spans are nanoseconds here, and a link's rate is in Mbit/s.
    pub fn range(self) -> (u64, u64)
        ensures least { result.0 ≡ least self }
        ensures most { result.1 ≡ most self }
    {
        match self {
            Amount::Link => (1, BYTE_AT_ONE),
            Amount::Delay
            | Amount::Switch
            | Amount::HostDelay
            | Amount::ServiceTime
            | Amount::Jitter => (0, SECOND),
            Amount::Overhead => (0, 10_000),
            Amount::Buffer | Amount::CardLimit => (0, 4_000_000_000),
            Amount::Tick => (1, SECOND),
            Amount::Spread | Amount::Exact => (0, 1),
            Amount::Loss | Amount::Repeat => (0, 1_000_000),
            Amount::Load => (1, 100_000),
            Amount::Service => (0, 3),
            Amount::Incast => (0, 31),
            Amount::Burst | Amount::Parts => (1, 1000),
            Amount::Warm => (0, 100_000_000),
            Amount::Measure => (1, 100_000_000),
            Amount::Seed => (0, 1_000_000_000_000_000_000),
            Amount::Seeds => (1, 10_000),
            Amount::Events => (0, 1 << 50),
        }
    }

    /// Its number.
    pub fn value(self, network: &Network, load: &Load) -> u64
        ensures { result ≡ value network.now load.now self }
    {
        match self {
            Amount::Link => BYTE_AT_ONE / network.byte,
            Amount::Delay => network.delay / NANO,
            Amount::Switch => network.switch / NANO,
            Amount::HostDelay => network.host_delay / NANO,
            Amount::ServiceTime => network.service_time / NANO,
            Amount::Overhead => u64::from(network.overhead),
            Amount::Buffer => u64::from(network.buffer),
            Amount::CardLimit => u64::from(network.card_limit),
            Amount::Tick => network.tick / NANO,
            Amount::Spread => u64::from(network.is_spread),
            Amount::Loss => u64::from(network.loss),
            Amount::Repeat => u64::from(network.repeat),
            Amount::Jitter => network.jitter / NANO,
            _ => self.load_value(load),
        }
    }

    // Its number, if it is one of the load.
    fn load_value(self, load: &Load) -> u64
        ensures { result ≡ load_value load.now self }
    {
        match self {
            Amount::Load => u64::from(load.load),
            Amount::Exact => u64::from(load.is_exact),
            Amount::Service => u64::from(load.service),
            Amount::Incast => u64::from(load.incast),
            Amount::Burst => u64::from(load.burst),
            Amount::Warm => u64::from(load.warm),
            Amount::Measure => u64::from(load.calls),
            Amount::Seed => load.seed,
            Amount::Seeds => u64::from(load.seeds),
            Amount::Parts => u64::from(load.parts),
            Amount::Events => load.events,
            _ => 0,
        }
    }
}

// Whether a word names this amount.
fn is_named(word: &[u8], amount: Amount) -> bool
    ensures { result ≡ bytes_eq word.now (amount_word amount) }
{
    word == amount.word().as_bytes()
}

/// The amount that a word names.
pub(crate) fn read_amount(word: &[u8]) -> Option<Amount>
    ensures { result ≡ amount_in amounts word.now }
{
    Amount::ALL
        .iter()
        .copied()
        .find(|amount| is_named(word, *amount))
}
