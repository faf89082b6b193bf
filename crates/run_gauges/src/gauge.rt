// How much waits, over time.
ghost use Rattle.std.specs.Prelude.{◌≡◌, ◌≤◌, ◌+◌, ◌-◌, ◌*◌, ◌^◌, min, max};

/// How much waits now, the most that waited, the sum over time of what waited, and up to when that is counted.
#[derive(Clone, Copy, Debug, PartialEq, Eq)]
pub struct Gauge {
    pub waiting: u64,
    pub most: u64,
    pub area: u128,
    pub since: u64,
    ghost within: { waiting ≤ most },
}

impl Gauge {
    /// Nothing waits, from moment 0 on.
    pub fn new() -> Gauge
        ensures waiting { result.waiting ≡ 0 }
        ensures most { result.most ≡ 0 }
        ensures area { result.area ≡ 0 }
        ensures since { result.since ≡ 0 }
    {
        Gauge {
            waiting: 0,
            most: 0,
            area: 0,
            since: 0,
        }
    }

    /// The sum over time up to a moment, at most 2^128 - 1.
    pub fn area_at(&self, at: u64) -> u128
        ensures { result ≡ min (self.now.area + self.now.waiting * (at - self.now.since)) (2 ^ 128 - 1) }
    {
        let span = at.saturating_sub(self.since);
        let more = u128::from(self.waiting).saturating_mul(u128::from(span));
        self.area.saturating_add(more)
    }

    // From now on so much waits.
    fn becomes(&mut self, at: u64, waiting: u64)
        ensures waiting { self.new.waiting ≡ waiting }
        ensures most { self.new.most ≡ max self.old.most waiting }
        ensures area { self.new.area ≡ min (self.old.area + self.old.waiting * (at - self.old.since)) (2 ^ 128 - 1) }
        ensures since { self.new.since ≡ max self.old.since at }
    {
        *self = Gauge {
            waiting,
            most: self.most.max(waiting),
            area: self.area_at(at),
            since: self.since.max(at),
        };
    }

    /// So much came; no more than 2^64 - 1 waits.
    pub fn rise(&mut self, at: u64, by: u64)
        ensures waiting { self.new.waiting ≡ min (self.old.waiting + by) (2 ^ 64 - 1) }
        ensures most { self.new.most ≡ max self.old.most self.new.waiting }
        ensures area { self.new.area ≡ min (self.old.area + self.old.waiting * (at - self.old.since)) (2 ^ 128 - 1) }
        ensures since { self.new.since ≡ max self.old.since at }
    {
        self.becomes(at, self.waiting.saturating_add(by));
    }

    /// So much went, or all where less waited.
    pub fn fall(&mut self, at: u64, by: u64)
        ensures waiting { self.new.waiting ≡ self.old.waiting - by }
        ensures most { self.new.most ≡ self.old.most }
        ensures area { self.new.area ≡ min (self.old.area + self.old.waiting * (at - self.old.since)) (2 ^ 128 - 1) }
        ensures since { self.new.since ≡ max self.old.since at }
    {
        self.becomes(at, self.waiting.saturating_sub(by));
    }

    /// Counts anew from a moment on, with what waits.
    pub fn restart(&mut self, at: u64)
        ensures waiting { self.new.waiting ≡ self.old.waiting }
        ensures most { self.new.most ≡ self.old.waiting }
        ensures area { self.new.area ≡ 0 }
        ensures since { self.new.since ≡ max self.old.since at }
    {
        *self = Gauge {
            waiting: self.waiting,
            most: self.waiting,
            area: 0,
            since: self.since.max(at),
        };
    }
}
