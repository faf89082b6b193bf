// What is measured at a queue.
ghost use Rattle.std.specs.Prelude.{◌≡◌, ◌<◌, ◌+◌, ◌-◌, ◌^◌, min};

use crate::measure::{Level, Waits};
use run_gauges::Gauge;

/// What was measured at a queue since counting began anew: what waited and passed, by level, and how long packets waited.
#[derive(Clone, Copy)]
pub(crate) struct QueueTally {
    total: Gauge,
    levels: [Gauge; 8],
    passed: [u64; 8],
    waits: Waits,
}

// Counting begins anew at all of these.
fn restart_all(gauges: &mut [Gauge], now: u64) {
    for gauge in gauges.iter_mut() {
        gauge.restart(now);
    }
}

impl QueueTally {
    ghost use Rattle.packet_network.specs.Measures.{with_queue, with_level};

    /// Nothing waits.
    pub(crate) fn new() -> QueueTally
        ensures { result.total.waiting ≡ 0 }
    {
        QueueTally {
            total: Gauge::new(),
            levels: [Gauge::new(); 8],
            passed: [0; 8],
            waits: Waits::new(),
        }
    }

    /// How many bytes wait.
    pub(crate) fn bytes(&self) -> u64
        ensures { result ≡ self.now.total.waiting }
    {
        self.total.waiting
    }

    /// A packet of so many bytes comes to a level.
    pub(crate) fn comes(&mut self, now: u64, level: usize, bytes: u32)
        requires { level < 8 }
        ensures { self.new.total.waiting ≡ min (self.old.total.waiting + bytes) (2 ^ 64 - 1) }
    {
        let bytes = u64::from(bytes);
        self.total.rise(now, bytes);
        let mut gauge = self.levels[level];
        gauge.rise(now, bytes);
        self.levels[level] = gauge;
    }

    /// A packet of so many bytes goes from a level, after a wait.
    pub(crate) fn goes(&mut self, now: u64, level: usize, bytes: u32, wait: u64)
        requires { level < 8 }
        ensures { self.new.total.waiting ≡ self.old.total.waiting - bytes }
    {
        let bytes = u64::from(bytes);
        self.total.fall(now, bytes);
        let mut gauge = self.levels[level];
        gauge.fall(now, bytes);
        self.levels[level] = gauge;
        self.passed[level] = self.passed[level].saturating_add(bytes);
        self.waits.begin(bytes, wait);
    }

    /// Adds what was measured here up to a moment.
    pub(crate) fn add_waits(&self, now: u64, waits: &Waits) -> Waits
        ensures { result ≡ with_queue now self.now waits.now }
    {
        Waits {
            begun: waits.begun.saturating_add(self.waits.begun),
            waited: waits.waited.saturating_add(self.waits.waited),
            weighted: waits.weighted.saturating_add(self.waits.weighted),
            area: waits.area.saturating_add(self.total.area_at(now)),
            most: waits.most.max(self.total.most),
        }
    }

    /// Adds what was measured here of a level up to a moment.
    #[tactic(auto, using(crate::proofs::ReceiverLaws::gauge_says))]
    pub(crate) fn add_level(&self, now: u64, level: usize, sum: &Level) -> Level
        requires { level < 8 }
        ensures { result ≡ with_level now level self.now sum.now }
    {
        let gauge = self.levels[level];
        Level {
            most: sum.most.max(gauge.most),
            area: sum.area.saturating_add(gauge.area_at(now)),
            passed: sum.passed.saturating_add(self.passed[level]),
        }
    }

    /// Counting begins anew.
    pub(crate) fn restart(&mut self, now: u64)
        ensures { self.new.total.waiting ≡ self.old.total.waiting }
    {
        self.total.restart(now);
        restart_all(&mut self.levels, now);
        self.passed = [0; 8];
        self.waits = Waits::new();
    }
}
