//! The quiet call comes to its end: between two hosts, without loss, in a stated number of rounds.
//!
//! The model: in a round every packet that was sent and not yet delivered is delivered, once and in order, and then the
//! clock goes on and each host has a turn (`homa_plain/specs/Quiet`). No code stands here, only the law; it is the
//! contract of a function that does nothing.
//! Main promise: a call with a request of n bytes and a response of m bytes, which isn't held back, is done in exactly
//! one round. That round is at most 2 * (n + m) + 8, and no event up to it is refused.
#![tactic(auto)]

ghost use Rattle.std.specs.Prelude.{ℕ, ◌+◌, ◌*◌};
ghost use Rattle.homa_plain.specs.declared.settings.Settings.{Settings};
ghost use Rattle.quiet_laws.specs.Ends.{IsCalm, EndsWithin};

/// For all valid settings with two hosts and `resend` of at least 4 ticks, the quiet call is done in exactly one round,
/// within the bound. Each event up to it is carried out. That is so whatever their skew, version, rates, windows and
/// patience, of each request and response of 1 to 1,000,000 bytes whose pages fit.
pub fn quiet_calls_end()
    ensures { (s : Settings) (n m : ℕ) → IsCalm s n m → EndsWithin s n m (2 * (n + m) + 8) }
{}
