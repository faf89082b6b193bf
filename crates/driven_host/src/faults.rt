// Why no step begins.
ghost use Rattle.std.specs.Prelude.{◌≡◌, ◌≤◌, IfNone};
ghost use Rattle.homa_plain.specs.Host.{pages_for};
ghost use Rattle.driven_host.specs.Driven.{MayBegin};
ghost use Rattle.driven_host.specs.Faults.{length_fault, begin_fault};

use crate::driven::MOST_STEPS;
use homa_host::Host;
use homa_plain::{LAST_HOST_TICK, LONGEST_MESSAGE};

/// How many bytes of a message a page holds.
const PAGE: usize = 4096;

/// Why no step begins, in the order in which the causes are tested.
#[derive(Clone, Copy, Debug, PartialEq, Eq)]
pub enum StepFault {
    /// There is no other host of this name.
    NoHost,
    /// None may begin any more: the tick is past the last one, 2^56 steps were begun, or each number of a call was used.
    Spent,
    /// The tick is below that of the last step.
    Back,
    /// The request has no bytes.
    Empty,
    /// The message has over 1,000,000 bytes.
    TooLong,
    /// The message takes more pages than a host has.
    TooManyPages,
    /// As many calls are live as the settings allow.
    CallsFull,
}

/// Says why a host that began so many steps may begin none at this tick of its own clock. None if it may.
pub fn begin_fault(host: &Host, steps: u64, now: u64) -> Option<StepFault>
    ensures fault { result ≡ begin_fault host.now steps now }
    ensures begins { IfNone result (MayBegin host.now steps now) }
{
    if LAST_HOST_TICK < now || MOST_STEPS <= steps {
        return Some(StepFault::Spent);
    }
    if now < host.last() {
        return Some(StepFault::Back);
    }
    None
}

/// Says why no host with so many pages takes a message of so many bytes. None if one may.
pub(crate) fn length_fault(bytes: usize, pages: u32) -> Option<StepFault>
    ensures fault { result ≡ length_fault bytes pages }
    ensures most { IfNone result (bytes ≤ LONGEST_MESSAGE) }
    ensures fits { IfNone result (pages_for bytes ≤ pages) }
{
    if bytes > LONGEST_MESSAGE as usize {
        return Some(StepFault::TooLong);
    }
    if (pages as usize) < (bytes + (PAGE - 1)) / PAGE {
        return Some(StepFault::TooManyPages);
    }
    None
}
