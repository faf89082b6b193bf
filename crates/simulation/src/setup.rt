// What doesn't change in a run.
ghost use Rattle.std.specs.Prelude.{◌≡◌, IfOk, length};
ghost use Rattle.homa_plain.specs.Script.{counting};
ghost use Rattle.homa_plain.specs.Settings.{IsValid};

use experiment::Experiment;
use homa_plain::Settings;
use std::alloc::{AllocError, Global};
use text_lines::counting_bytes;

// The most bytes of a request or of an injected datagram.
const MOST_BYTES: u32 = 1_000_000;

/// What doesn't change in a run. Each request is a prefix of `bytes`. The run stops after `most_events` events, and never
/// with 0.
#[derive(Drop)]
pub(crate) struct Setup {
    pub(crate) alloc: Global,
    pub(crate) settings: Settings,
    pub(crate) service: u8,
    pub(crate) most_events: u64,
    pub(crate) bytes: Vec<u8>,
    pub(crate) prints: bool,
    ghost valid: { IsValid settings },
    ghost counting: { bytes.items ≡ counting 0 (length bytes.items) },
}

// So many bytes of which requests have a front.
fn request_bytes(alloc: Global, size: u32) -> Result<Vec<u8>, AllocError>
    ensures { IfOk result (λ bytes. bytes.items ≡ counting 0 (length bytes.items)) }
{
    counting_bytes(alloc, size)
}

impl Setup {
    /// A run of an experiment.
    pub(crate) fn new(
        alloc: Global,
        experiment: &Experiment,
        prints: bool,
    ) -> Result<Setup, AllocError>
        ensures settings { IfOk result (λ setup. setup.settings ≡ experiment.now.settings) }
        ensures service { IfOk result (λ setup. setup.service ≡ experiment.now.load.service) }
        ensures prints { IfOk result (λ setup. setup.prints ≡ prints) }
    {
        Ok(Setup {
            alloc,
            settings: experiment.settings,
            service: experiment.load.service as u8,
            most_events: experiment.load.events,
            bytes: request_bytes(alloc, MOST_BYTES)?,
            prints,
        })
    }
}
