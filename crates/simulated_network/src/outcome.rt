// What came of a run.
ghost use Rattle.std.specs.Prelude.{◌≡◌, ◌≤◌, length};
ghost use Rattle.simulated_network.specs.Measured.{is_measured, before, measured};

use crate::trouble::Trouble;
use crate::window::Window;
use call_figures::{SimCall, SimCalls, Transfers};
use experiment::Load;
use packet_network::Fates;

/// What came of a run. Moments are picoseconds.
#[derive(Drop)]
pub struct RunOutcome {
    /// All calls that were made, and their messages.
    pub calls: SimCalls,
    pub transfers: Transfers,
    pub window: Window,
    /// What became of all packets of the run, and how many are still under way.
    pub fates: Fates,
    pub under_way: u64,
    pub trouble: Trouble,
    /// How many events of the world there were.
    pub events: u64,
    /// When the run ended.
    pub ended: u64,
}

/// Whether the call with this number of those that were drawn is measured.
pub(crate) fn is_measured(load: &Load, drawn: u32) -> bool
    ensures { result ≡ is_measured load.now drawn }
{
    load.warm <= drawn && drawn < load.warm + load.calls
}

// How many calls from the first on have a lower number of those that were drawn.
fn before(calls: &[SimCall], number: u32) -> usize
    ensures count { result ≡ before number calls.now }
    ensures inside { result ≤ length calls.now }
{
    let mut count = 0;
    for call in calls {
        if number <= call.drawn {
            return count;
        }
        count += 1;
    }
    count
}

impl RunOutcome {
    /// The calls that are measured.
    pub fn measured(&self, load: &Load) -> &[SimCall]
        ensures { result.now ≡ measured load.now self.now.calls }
    {
        let all = self.calls.all();
        let rest = &all[before(all, load.warm)..];
        &rest[..before(rest, load.warm + load.calls)]
    }
}
