// What can be called at a host.
ghost use Rattle.std.specs.Prelude.{◌≡◌, ◌+◌, ◌<◌, ◌≤◌, ◌^◌, ℕ, List, length, IfOk, OnOk, OnErr};

use crate::Reply;
use homa_plain::{LONGEST_HOLD, LONGEST_MESSAGE};
use std::alloc::{AllocError, Global};

/// A service of up to 256 numbers. It answers a request, or fails because it is out of memory.
pub trait Service: Drop {
    /// The number of its Ok answers.
    ghost served: { Self → ℕ };

    /// What it may answer: the number of Ok answers before, the service's number, the bytes of the request, those of
    /// the response, and the hold.
    ghost allows: { Self → ℕ → ℕ → List ℕ → List ℕ → ℕ → Type 0 };

    /// Answers the request by 1 to 1,000,000 bytes, which are to be held back for at most 1,000,000 ticks.
    fn serve(&mut self, alloc: Global, number: u8, request: &[u8]) -> Result<Reply, AllocError>
        requires { served self.old < 2 ^ 63 }
        ensures served { OnOk result (served self.new ≡ served self.old + 1) }
        ensures allowed { IfOk result (λ reply.
            allows self.old (served self.old) number request.now reply.bytes reply.hold) }
        ensures some { IfOk result (λ reply. 0 < length reply.bytes) }
        ensures size { IfOk result (λ reply. length reply.bytes ≤ LONGEST_MESSAGE) }
        ensures hold { IfOk result (λ reply. reply.hold ≤ LONGEST_HOLD) }
        ensures err { OnErr result (served self.new ≡ served self.old) }

        // No call changes what is allowed.
        ensures allows_before { (count number hold : ℕ) (q r : List ℕ) →
            allows self.new count number q r hold → allows self.old count number q r hold }
        ensures allows_after { (count number hold : ℕ) (q r : List ℕ) →
            allows self.old count number q r hold → allows self.new count number q r hold };
}
