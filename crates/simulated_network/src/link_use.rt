// How links to hosts were used.
ghost use Rattle.std.specs.Prelude.{◌≡◌, ◌≤◌, ◌<◌, ◌+◌, ◌-◌, ◌^◌};

use run_gauges::Spans;

/// How links to hosts were used, all together: the time in which they were taken, and their idle time by cause. The first
/// cause that holds counts: overcommitment held a grant back (`withheld`); packets were under way to the host (`coming`); a
/// message was incomplete there (`unsent`); nothing was to come (`empty`). In the time `wasted` a link was idle and bytes of
/// a message weren't granted.
#[derive(Clone, Copy, Debug)]
pub struct LinkUse {
    pub time: u128,
    pub taken: u128,
    pub withheld: u128,
    pub coming: u128,
    pub unsent: u128,
    pub empty: u128,
    pub wasted: u128,
    ghost all_time: { taken + (withheld + (coming + (unsent + empty))) ≡ time },
    ghost within_wasted: { withheld ≤ wasted },
    ghost within_idle: { wasted ≤ withheld + (coming + (unsent + empty)) },
}

impl LinkUse {
    /// No time.
    pub fn new() -> LinkUse
        ensures { result.time ≡ 0 }
    {
        LinkUse {
            time: 0,
            taken: 0,
            withheld: 0,
            coming: 0,
            unsent: 0,
            empty: 0,
            wasted: 0,
        }
    }

    /// The time in which they were idle.
    pub fn idle(&self) -> u128
        ensures idle { result ≡ self.now.withheld + (self.now.coming + (self.now.unsent + self.now.empty)) }
        ensures all_time { self.now.taken + result ≡ self.now.time }
        ensures wasted { self.now.wasted ≤ result }
        ensures withheld { self.now.withheld ≤ self.now.wasted }
    {
        self.withheld + (self.coming + (self.unsent + self.empty))
    }

    /// One link more, which was used so.
    pub(crate) fn add(&mut self, spans: &Spans)
        requires { self.old.time < 2 ^ 100 }
        ensures time { self.new.time ≡ self.old.time + (spans.now.since - spans.now.from) }
        ensures taken { self.new.taken ≡ self.old.taken + spans.now.taken }
        ensures withheld { self.new.withheld ≡ self.old.withheld + spans.now.withheld }
        ensures coming { self.new.coming ≡ self.old.coming + spans.now.coming }
        ensures unsent { self.new.unsent ≡ self.old.unsent + spans.now.unsent }
        ensures empty { self.new.empty ≡ self.old.empty + spans.now.empty }
        ensures wasted { self.new.wasted ≡ self.old.wasted + spans.now.wasted }
    {
        *self = LinkUse {
            time: self.time + u128::from(spans.since - spans.from),
            taken: self.taken + u128::from(spans.taken),
            withheld: self.withheld + u128::from(spans.withheld),
            coming: self.coming + u128::from(spans.coming),
            unsent: self.unsent + u128::from(spans.unsent),
            empty: self.empty + u128::from(spans.empty),
            wasted: self.wasted + u128::from(spans.wasted),
        };
    }
}
