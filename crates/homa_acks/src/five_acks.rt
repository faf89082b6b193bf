// The finished calls of one peer.
// Rules: the fifth finished call makes an ACK of all five, and the oldest rides on a request.
ghost use Rattle.std.specs.Prelude.{◌≡◌, ◌+◌, ◌<◌, ◌↔◌, ◌++◌, [], ◌∷◌, length, drop, slice_get, IsNone, IfNone, IfSome, OnSome};

use arrayvec::ArrayVec;
use std::marker::Model;

/// Five finished calls, the oldest first: each an incarnation and a sequence number of their client.
pub type AckBatch = ArrayVec<(u32, u32), 5>;

/// The finished calls of which a peer wasn't told yet. Contracts see a list, the oldest call first.
#[derive(Debug, PartialEq, Eq, Drop)]
pub(crate) struct Waiting {
    calls: AckBatch,
}

impl Model for Waiting {
    ghost use Rattle.std.specs.Prelude.{ℕ, List};

    ghost Value = { List (ℕ × ℕ) };

    ghost view = { λ waiting. waiting.calls.items };

    ghost inverse = { λ calls. record { calls = record { items = calls } } };
}

impl Waiting {
    /// No call.
    pub(crate) fn new() -> Waiting
        ensures { result ≡ [] }
    {
        Waiting {
            calls: ArrayVec::new(),
        }
    }

    /// Appends a call. At five, these five are answered, and none is left.
    pub(crate) fn finish(&mut self, inc: u32, seq: u32) -> Option<AckBatch>
        requires { length self.old < 5 }
        ensures none { IsNone result ↔ (length self.old + 1 < 5) }
        ensures kept { IfNone result (self.new ≡ self.old ++ (inc, seq) ∷ []) }
        ensures batch { IfSome result (λ batch. batch.items ≡ self.old ++ (inc, seq) ∷ []) }
        ensures emptied { OnSome result (self.new ≡ []) }
        ensures below { length self.new < 5 }
    {
        self.calls.push((inc, seq));
        if self.calls.is_full() {
            Some(self.calls.take())
        } else {
            None
        }
    }

    /// Takes the oldest call.
    pub(crate) fn ride(&mut self) -> Option<(u32, u32)>
        ensures oldest { result ≡ slice_get self.old 0 }
        ensures none { IsNone result ↔ (self.old ≡ []) }
        ensures rest { self.new ≡ drop 1 self.old }
    {
        self.calls.pop_at(0)
    }
}
