// What a receiver knows of its messages, and how its link is used.
ghost use Rattle.std.specs.Prelude.{◌≡◌, ◌≤◌, ◌<◌, ◌+◌, ◌-◌, ◌^◌, ◌==◌, min, true, false, slice_index, slice_set};
ghost use Rattle.run_gauges.specs.Uses.{part};

use crate::spans::{Spans, Use};

/// Of how many senders a receiver tells the messages apart.
pub const SENDERS: usize = 32;

/// What is known of one receiver: of how many of its messages bytes aren't granted; how many packets are under way to
/// it; and whether its link is taken. Of each sender it is known how many of its messages are incomplete, and of how
/// many senders any is.
#[derive(Clone, Copy, Debug)]
pub struct Receiver {
    /// To how many senders it grants at a time.
    pub overcommit: u32,
    pub ungranted: u32,
    pub incomplete: [u32; SENDERS],
    pub senders: u32,
    pub under_way: u64,
    pub is_taken: bool,
    pub spans: Spans,
}

impl Receiver {
    ghost use Rattle.run_gauges.specs.Receivers.{use_of, times_of, times_to, known_of, nothing_known, opens, closes, begins, completes};
    ghost use Rattle.run_gauges.specs.Receivers.{sends, arrives, set_taken, restart};

    /// It has no messages, and its link is idle from moment 0 on.
    pub fn new(overcommit: u32) -> Receiver
        ensures overcommit { result.overcommit ≡ overcommit }
        ensures ungranted { result.ungranted ≡ 0 }
        ensures senders { result.senders ≡ 0 }
        ensures under_way { result.under_way ≡ 0 }
        ensures is_taken { result.is_taken ≡ false }
        ensures from { result.spans.from ≡ 0 }
        ensures since { result.spans.since ≡ 0 }
        ensures known { known_of result ≡ nothing_known overcommit }
    {
        Receiver {
            overcommit,
            ungranted: 0,
            incomplete: [0; SENDERS],
            senders: 0,
            under_way: 0,
            is_taken: false,
            spans: Spans::begin(0),
        }
    }

    /// How its link is used now.
    pub fn used(&self) -> Use
        ensures { result ≡ use_of self.now.is_taken self.now.ungranted self.now.senders self.now.overcommit self.now.under_way }
    {
        if self.is_taken {
            Use::Taken
        } else if self.ungranted > 0 && self.senders > self.overcommit {
            Use::Withheld
        } else if self.under_way > 0 {
            Use::Coming
        } else if self.senders > 0 {
            Use::Unsent
        } else {
            Use::Empty
        }
    }

    /// The spans up to a moment.
    pub fn spans_at(&self, at: u64) -> Spans
        ensures from { result.from ≡ self.now.spans.from }
        ensures later { at ≤ result.since }
        ensures taken { self.now.is_taken ≡ true → result.taken ≡ self.now.spans.taken + (at - self.now.spans.since) }
        ensures idle { self.now.is_taken ≡ false → result.taken ≡ self.now.spans.taken }
        ensures times { times_of result ≡ times_to at (known_of self.now) }
    {
        self.spans.passed(at, self.used(), self.ungranted > 0)
    }

    /// The link is taken, or idle, from now on.
    pub fn set_taken(&mut self, at: u64, is_taken: bool)
        ensures is_taken { self.new.is_taken ≡ is_taken }
        ensures taken { self.old.is_taken ≡ true → self.new.spans.taken ≡ self.old.spans.taken + (at - self.old.spans.since) }
        ensures idle { self.old.is_taken ≡ false → self.new.spans.taken ≡ self.old.spans.taken }
        ensures known { known_of self.new ≡ set_taken at is_taken (known_of self.old) }
    {
        self.spans = self.spans_at(at);
        self.is_taken = is_taken;
    }

    /// One more message has bytes that aren't granted.
    pub fn opens(&mut self, at: u64)
        ensures ungranted { self.new.ungranted ≡ min (self.old.ungranted + 1) (2 ^ 32 - 1) }
        ensures known { known_of self.new ≡ opens at (known_of self.old) }
    {
        self.spans = self.spans_at(at);
        self.ungranted = self.ungranted.saturating_add(1);
    }

    /// One message less has such bytes.
    pub fn closes(&mut self, at: u64)
        ensures ungranted { self.new.ungranted ≡ self.old.ungranted - 1 }
        ensures known { known_of self.new ≡ closes at (known_of self.old) }
    {
        self.spans = self.spans_at(at);
        self.ungranted = self.ungranted.saturating_sub(1);
    }

    /// The first piece of a sender's message came.
    pub fn begins(&mut self, at: u64, sender: usize)
        requires { sender < 32 }
        ensures incomplete { self.new.incomplete ≡ slice_set self.old.incomplete sender (min (slice_index self.old.incomplete sender + 1) (2 ^ 32 - 1)) }
        ensures senders { self.new.senders ≡ min (self.old.senders + part (slice_index self.old.incomplete sender == 0) 1) (2 ^ 32 - 1) }
        ensures known { known_of self.new ≡ begins at sender (known_of self.old) }
    {
        self.spans = self.spans_at(at);
        let before = self.incomplete[sender];
        let first = if before == 0 { 1 } else { 0 };
        self.incomplete[sender] = before.saturating_add(1);
        self.senders = self.senders.saturating_add(first);
    }

    /// A sender's message of which a piece came is whole, or given up.
    pub fn completes(&mut self, at: u64, sender: usize)
        requires { sender < 32 }
        ensures incomplete { self.new.incomplete ≡ slice_set self.old.incomplete sender (slice_index self.old.incomplete sender - 1) }
        ensures senders { self.new.senders ≡ self.old.senders - part (slice_index self.old.incomplete sender == 1) 1 }
        ensures known { known_of self.new ≡ completes at sender (known_of self.old) }
    {
        self.spans = self.spans_at(at);
        let before = self.incomplete[sender];
        let last = if before == 1 { 1 } else { 0 };
        self.incomplete[sender] = before.saturating_sub(1);
        self.senders = self.senders.saturating_sub(last);
    }

    /// A packet is under way to it.
    pub fn sends(&mut self, at: u64)
        ensures under_way { self.new.under_way ≡ min (self.old.under_way + 1) (2 ^ 64 - 1) }
        ensures known { known_of self.new ≡ sends at (known_of self.old) }
    {
        self.spans = self.spans_at(at);
        self.under_way = self.under_way.saturating_add(1);
    }

    /// One less is.
    pub fn arrives(&mut self, at: u64)
        ensures under_way { self.new.under_way ≡ self.old.under_way - 1 }
        ensures known { known_of self.new ≡ arrives at (known_of self.old) }
    {
        self.spans = self.spans_at(at);
        self.under_way = self.under_way.saturating_sub(1);
    }

    /// Counts anew from a moment on, with what is known.
    pub fn restart(&mut self, at: u64)
        ensures from { self.new.spans.from ≡ at }
        ensures taken { self.new.spans.taken ≡ 0 }
        ensures withheld { self.new.spans.withheld ≡ 0 }
        ensures wasted { self.new.spans.wasted ≡ 0 }
        ensures is_taken { self.new.is_taken ≡ self.old.is_taken }
        ensures known { known_of self.new ≡ restart at (known_of self.old) }
    {
        self.spans = Spans::begin(at);
    }
}
