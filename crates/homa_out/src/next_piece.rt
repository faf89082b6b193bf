//! The piece of a message that is sent next: the lowest bytes that wait, and what is left behind them.
//! Which message goes first, `homa_pacer/src/srpt` says.
ghost use Rattle.std.specs.Prelude.{◌≡◌, ◌+◌, ◌<◌, ◌≤◌, IfSome};
ghost use Rattle.std.specs.Option.{option_map};
ghost use Rattle.range_set.specs.Fits.{bounds};
ghost use Rattle.homa_plain.specs.Outgoing.{next, left, has_waiting};

use crate::Outgoing;

impl Outgoing {
    /// Takes the lowest waiting bytes to be sent, at most `seg` in a row: from the first to before the second number.
    pub fn next(&mut self, seg: u32) -> Option<(u32, u32)>
        requires { 1 ≤ seg }
        ensures range { result ≡ option_map bounds (next self.old seg).range }
        ensures part { self.new ≡ (next self.old seg).part }
        ensures within { IfSome result (λ r. (r.0 < r.1) × (r.1 ≤ r.0 + seg) × (r.1 ≤ self.old.length)) }
    {
        let front = self.waiting.take_first(seg);
        if let Some((_, to)) = front {
            self.top = self.top.max(to);
        }
        front
    }

    /// The bytes that `next` would take.
    pub fn peek(&self, seg: u32) -> Option<(u32, u32)>
        requires { 1 ≤ seg }
        ensures range { result ≡ option_map bounds (next self.now seg).range }
        ensures within { IfSome result (λ r. (r.0 < r.1) × (r.1 ≤ r.0 + seg) × (r.1 ≤ self.now.length)) }
    {
        let (from, to) = self.waiting.first_below(self.granted)?;
        Some((from, from + seg.min(to - from)))
    }

    /// The end of the bytes that were sent: the number after the greatest, 0 before the first.
    pub fn top_sent(&self) -> u32
        ensures { result ≡ self.now.top }
    {
        self.top
    }

    /// How many bytes lie above all that were sent.
    pub fn left(&self) -> u32
        ensures { result ≡ left self.now }
    {
        self.len - self.top
    }

    /// Whether bytes wait to be sent, now or again.
    pub fn waiting(&self) -> bool
        ensures { result ≡ has_waiting self.now }
    {
        !self.waiting.is_empty()
    }
}
