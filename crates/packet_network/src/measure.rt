// What is measured at queues.
ghost use Rattle.std.specs.Prelude.{◌≡◌, ◌+◌, ◌-◌, ◌^◌, min};

use crate::packet::PacketCause;

/// How packets waited in queues, since counting began anew.
#[derive(Clone, Copy, Debug, PartialEq, Eq)]
pub struct Waits {
    /// How many packets began to leave.
    pub begun: u64,
    /// The sum of their waits.
    pub waited: u64,
    /// The sum of their waits, each times the packet's bytes.
    pub weighted: u128,
    /// The sum over time of the bytes that waited.
    pub area: u128,
    /// The most bytes that waited in one queue.
    pub most: u64,
}

/// The queues of one level, since counting began anew: the most bytes that waited in one, the sum over time of the bytes that
/// waited, and the bytes that passed.
#[derive(Clone, Copy, Debug, PartialEq, Eq)]
pub struct Level {
    pub most: u64,
    pub area: u128,
    pub passed: u64,
}

/// The bytes that went to hosts, by why they were sent.
#[derive(Clone, Copy, Debug, PartialEq, Eq)]
pub struct Down {
    pub data: u64,
    pub again: u64,
    pub control: u64,
}

impl Waits {
    ghost use Rattle.packet_network.specs.Measures.{no_waits};

    /// Nothing waited.
    pub(crate) fn new() -> Waits
        ensures { result ≡ no_waits }
    {
        Waits {
            begun: 0,
            waited: 0,
            weighted: 0,
            area: 0,
            most: 0,
        }
    }

    /// A packet of so many bytes begins to leave after a wait.
    pub(crate) fn begin(&mut self, bytes: u64, wait: u64)
        ensures begun { self.new.begun ≡ min (self.old.begun + 1) (2 ^ 64 - 1) }
        ensures waited { self.new.waited ≡ min (self.old.waited + wait) (2 ^ 64 - 1) }
    {
        let product = u128::from(wait).saturating_mul(u128::from(bytes));
        self.begun = self.begun.saturating_add(1);
        self.waited = self.waited.saturating_add(wait);
        self.weighted = self.weighted.saturating_add(product);
    }
}

impl Level {
    ghost use Rattle.packet_network.specs.Measures.{no_level};

    /// Nothing waited.
    pub(crate) fn new() -> Level
        ensures { result ≡ no_level }
    {
        Level {
            most: 0,
            area: 0,
            passed: 0,
        }
    }
}

impl Down {
    ghost use Rattle.packet_network.specs.Measures.{no_bytes};

    /// No bytes.
    pub(crate) fn new() -> Down
        ensures { result ≡ no_bytes }
    {
        Down {
            data: 0,
            again: 0,
            control: 0,
        }
    }

    /// A packet of so many bytes went.
    pub(crate) fn passes(&mut self, cause: PacketCause, bytes: u64) {
        match cause {
            PacketCause::First => self.data = self.data.saturating_add(bytes),
            PacketCause::Again => self.again = self.again.saturating_add(bytes),
            PacketCause::Control => self.control = self.control.saturating_add(bytes),
        }
    }
}
