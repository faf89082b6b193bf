//! What doesn't change in a run.
ghost use Rattle.std.specs.Prelude.{◌≡◌, IfOk};
ghost use Rattle.homa_plain.specs.Script.{counting};
ghost use Rattle.homa_plain.specs.Settings.{IsValid};

use homa_plain::Settings;
use std::alloc::{AllocError, Global};
use text_lines::counting_bytes;

/// The most bytes of a request.
const MOST_BYTES: u32 = 100_000;

/// What doesn't change in a run: its settings, the bytes of which each request has a front, and whether its lines are printed.
#[derive(Drop)]
pub(crate) struct Setup {
    pub(crate) alloc: Global,
    pub(crate) settings: Settings,
    pub(crate) bytes: Vec<u8>,
    pub(crate) prints: bool,
    ghost valid: { IsValid settings },
    ghost counting: { bytes.items ≡ counting 0 100000 },
}

impl Setup {
    /// A run with these settings.
    pub(crate) fn new(alloc: Global, settings: Settings, prints: bool) -> Result<Setup, AllocError>
        requires { IsValid settings }
        ensures settings { IfOk result (λ setup. setup.settings ≡ settings) }
        ensures prints { IfOk result (λ setup. setup.prints ≡ prints) }
    {
        Ok(Setup {
            alloc,
            settings,
            bytes: counting_bytes(alloc, MOST_BYTES)?,
            prints,
        })
    }
}
