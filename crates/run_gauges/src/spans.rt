// For how long a receiver's link was used how.
ghost use Rattle.std.specs.Prelude.{◌≡◌, ◌≤◌, ◌+◌, ◌-◌, max};
ghost use Rattle.run_gauges.specs.Uses.{part, is_taken, is_withheld, is_coming, is_unsent, is_empty, is_wasted};

/// How a receiver's link is used at a moment. It is taken, or idle: while overcommitment holds a grant back; else while packets
/// are under way to it; else while a message is incomplete of which none is; or it has no incomplete message.
#[derive(Clone, Copy, Debug, PartialEq, Eq)]
pub enum Use {
    Taken,
    Withheld,
    Coming,
    Unsent,
    Empty,
}

/// The spans of each use between two moments. `wasted` is that part of the idle time in which bytes of a message weren't granted;
/// it has all that was withheld.
#[derive(Clone, Copy, Debug)]
pub struct Spans {
    pub from: u64,
    pub since: u64,
    pub taken: u64,
    pub withheld: u64,
    pub coming: u64,
    pub unsent: u64,
    pub empty: u64,
    pub wasted: u64,
    ghost all_time: { from + (taken + (withheld + (coming + (unsent + empty)))) ≡ since },
    ghost within_wasted: { withheld ≤ wasted },
    ghost within_idle: { wasted ≤ withheld + (coming + (unsent + empty)) },
}

impl Spans {
    ghost use Rattle.run_gauges.specs.Receivers.{times_of, no_time, with_time};

    /// No time, from a moment on.
    pub fn begin(from: u64) -> Spans
        ensures from { result.from ≡ from }
        ensures since { result.since ≡ from }
        ensures taken { result.taken ≡ 0 }
        ensures withheld { result.withheld ≡ 0 }
        ensures wasted { result.wasted ≡ 0 }
        ensures times { times_of result ≡ no_time from }
    {
        Spans {
            from,
            since: from,
            taken: 0,
            withheld: 0,
            coming: 0,
            unsent: 0,
            empty: 0,
            wasted: 0,
        }
    }

    /// The time in which the link was idle.
    pub fn idle(&self) -> u64
        ensures idle { result ≡ self.now.withheld + (self.now.coming + (self.now.unsent + self.now.empty)) }
        ensures all_time { self.now.from + (self.now.taken + result) ≡ self.now.since }
        ensures wasted { self.now.wasted ≤ result }
        ensures withheld { self.now.withheld ≤ self.now.wasted }
    {
        self.withheld + (self.coming + (self.unsent + self.empty))
    }

    /// The spans up to a moment, where the link was used so since the last one; `is_short` says whether bytes of a message weren't
    /// granted.
    pub fn passed(&self, at: u64, used: Use, is_short: bool) -> Spans
        ensures from { result.from ≡ self.now.from }
        ensures since { result.since ≡ max self.now.since at }
        ensures taken { result.taken ≡ self.now.taken + part (is_taken used) (at - self.now.since) }
        ensures withheld { result.withheld ≡ self.now.withheld + part (is_withheld used) (at - self.now.since) }
        ensures coming { result.coming ≡ self.now.coming + part (is_coming used) (at - self.now.since) }
        ensures unsent { result.unsent ≡ self.now.unsent + part (is_unsent used) (at - self.now.since) }
        ensures empty { result.empty ≡ self.now.empty + part (is_empty used) (at - self.now.since) }
        ensures wasted { result.wasted ≡ self.now.wasted + part (is_wasted used is_short) (at - self.now.since) }
        ensures times { times_of result ≡ with_time at used is_short (times_of self.now) }
    {
        let span = at.saturating_sub(self.since);
        let more = if is_short { span } else { 0 };
        let mut next = *self;
        next.since = self.since.max(at);
        match used {
            Use::Taken => next.taken += span,
            Use::Withheld => {
                next.withheld += span;
                next.wasted += span;
            }
            Use::Coming => {
                next.coming += span;
                next.wasted += more;
            }
            Use::Unsent => {
                next.unsent += span;
                next.wasted += more;
            }
            Use::Empty => {
                next.empty += span;
                next.wasted += more;
            }
        }
        next
    }
}
