// The services of a run.
ghost use Rattle.std.specs.Prelude.{◌≡◌, IfOk, length};
ghost use Rattle.box_laws.specs.First.{AreReady};

use homa_service::Suite;
use std::alloc::{AllocError, Global};

// One for each of 32 hosts, and one for each of 64 restarts.
const SERVICES: usize = 96;

/// Makes the boxes of a run, which have answered nothing yet: one for each of 32 hosts, and one for each of 64 restarts.
pub fn suites(alloc: Global) -> Result<Vec<Suite>, AllocError>
    ensures ready { IfOk result (λ all. AreReady (λ n. n) all.items) }
    ensures count { IfOk result (λ all. length all.items ≡ 96) }
{
    let mut all = Vec::with_capacity(alloc, SERVICES)?;
    for made in 0..SERVICES {
        all.push(Suite::new())?;
    }
    Ok(all)
}
