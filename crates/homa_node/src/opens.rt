// Hosts that are opened for a node.
ghost use Rattle.std.specs.Prelude.{◌≡◌, ◌≤◌, ◌∷◌, List, [], length, IfOk};
ghost use Rattle.std.specs.List.{AllByRecursion};
ghost use Rattle.homa_plain.specs.Settings.{IsValid};
ghost use Rattle.homa_plain.specs.Entries.{PlainEntry, PlainSettings};
ghost use Rattle.homa_plain.specs.Answers.{shown};
ghost use Rattle.homa_node.specs.Served.{IsFirstIn};

use homa_plain::Settings;
use node_turns::LoopHosts;
use std::alloc::{AllocError, Global};

/// Hosts that are opened with boxes `B`, in which services answer.
pub trait OpenHosts<B>: LoopHosts {
    /// There are enough of them, and none has answered yet.
    ghost are_ready: { B → Type 0 };

    /// Each answer that the entries show is allowed by the box that serves its host, with its number of answers before.
    ghost are_allowed: { B → List PlainEntry → Type 0 };

    /// Hosts that have done nothing, each in the incarnation that is given.
    fn open_in(alloc: Global, s: &Settings, incs: &[u32], boxes: B) -> Result<Self, AllocError>
        requires valid { IsValid s.now }
        requires incs { length incs.now ≡ s.now.hosts }
        requires lives { AllByRecursion (λ inc. 1 ≤ inc) incs.now }
        requires ready { are_ready boxes }
        ensures opened { IfOk result (λ h. IsFirstIn s.now incs.now (Self.stands h)) }
        ensures settings { IfOk result (λ h. Self.settings h ≡ s.now) }
        ensures clock { IfOk result (λ h. Self.clock h ≡ 0) }
        ensures steps { IfOk result (λ h. Self.steps h ≡ 0) }
        ensures allows { IfOk result (λ h. (told : List PlainEntry) → Self.allows h told → are_allowed boxes (PlainSettings s.now ∷ told)) };

    /// Where no service was asked, every box allows it.
    ghost unasked: { (boxes : B) (told : List PlainEntry) → shown told ≡ [] → are_allowed boxes told };
}
