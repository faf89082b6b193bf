// What ticks come from, and a clock in memory.
ghost use Rattle.std.specs.Prelude.{◌≡◌, ◌≤◌, ◌<◌, ℕ, Option, Some, List, length, slice_index_or, IfSome};
ghost use Rattle.node_runs.specs.Course.{AreTicks};
ghost use Rattle.node_io.specs.Clock.{Rises, next_tick, if_ticks};

use homa_plain::LAST_TICK;

/// A clock. It has no faults.
pub trait Clock {
    /// The ticks that it is still to give, where it can tell; the last of them it gives for ever.
    ghost ticks: { Self → Option (List ℕ) };

    /// The tick that it gave last; 0 before the first.
    ghost last: { Self → ℕ };

    /// The present tick: at least the one before, and at most 1,000,000,000,000.
    fn now(&mut self) -> u64
        ensures never_falls { last self.old ≤ result }
        ensures most { result ≤ LAST_TICK }
        ensures last { last self.new ≡ result }
        ensures given { IfSome (ticks self.old) (λ ticks. result ≡ next_tick ticks) }
        ensures left { ticks self.new ≡ if_ticks (ticks self.old) };
}

/// A clock in memory, which gives these ticks.
#[derive(Drop)]
pub struct MemClock {
    ticks: Vec<u64>,
    at: usize,
    last: u64,
    ghost within: { at < length ticks.items },
    ghost rises: { Rises ticks.items },
    ghost onward: { last ≤ slice_index_or ticks.items at 0 },
}

impl MemClock {
    ghost use Rattle.node_io.specs.Ticks.{clock_ticks, clock_last};

    /// A clock that gives these ticks, one a call, and then the last of them for ever.
    pub fn new(ticks: Vec<u64>) -> MemClock
        requires some { 0 < length ticks.items }
        requires ticks { AreTicks 0 ticks.items }
        ensures ticks { clock_ticks result ≡ Some ticks.items }
        ensures last { clock_last result ≡ 0 }
    {
        MemClock {
            ticks,
            at: 0,
            last: 0,
        }
    }
}

impl Clock for MemClock {
    ghost use Rattle.node_io.specs.Ticks.{clock_ticks, clock_last};

    ghost ticks = { clock_ticks };

    ghost last = { clock_last };

    fn now(&mut self) -> u64 {
        let tick = self.ticks[self.at];
        self.last = tick;
        if self.at + 1 < self.ticks.len() {
            self.at += 1;
        }
        tick
    }
}
