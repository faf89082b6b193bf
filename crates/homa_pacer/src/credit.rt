//! Credit: the payload bytes that a host may still send in this tick. `homa_host/src/pump` stops at a piece that is longer.
//! How far a host grants to others is in `homa_host/src/grants`.
ghost use Rattle.std.specs.Prelude.{◌≡◌, ◌-◌, ◌≤◌};
ghost use Rattle.homa_pacer.specs.Pace.{IsSound, refill};

use crate::Pacer;

impl Pacer {
    /// Begins a tick: if `now` is later than the tick of the last refill, the credit is `rate` again, however much of
    /// it was left.
    pub fn refill(&mut self, now: u64)
        ensures refilled { self.new ≡ refill now self.old }
        ensures sound { IsSound self.new }
    {
        if self.refilled < now {
            self.credit = self.rate;
            self.refilled = now;
        }
    }

    /// How many bytes may still be sent until the credit is filled up.
    pub fn credit(&self) -> u32
        ensures { result ≡ self.now.credit }
    {
        self.credit
    }

    /// So many bytes are sent, at most the credit.
    pub fn spend(&mut self, bytes: u32)
        requires { bytes ≤ self.old.credit }
        ensures spent { self.new ≡ record self.old { credit = self.old.credit - bytes } }
        ensures sound { IsSound self.new }
    {
        self.credit -= bytes;
    }
}
