// An experiment.
ghost use Rattle.std.specs.Prelude.{◌≡◌, ◌≤◌, ◌<◌, ◌*◌, Some, length, All};
ghost use Rattle.homa_plain.specs.Settings.{IsValid};
ghost use Rattle.experiment.specs.declared.load.Hot.{Hot};
ghost use Rattle.experiment.specs.Marks.{IsRestart, IsCall, IsInjection, IsShift};

use crate::load::Load;
use crate::marks::{Injection, ListedCall, Restarting, Shifting};
use crate::network::Network;
use crate::workload::Workload;
use homa_plain::Settings;

/// An experiment. If calls are listed, these are made and none is drawn.
#[derive(Drop)]
pub struct Experiment {
    pub settings: Settings,
    pub network: Network,
    pub load: Load,
    pub workload: Workload,
    pub restarts: Vec<Restarting>,
    pub listed: Vec<ListedCall>,
    pub injections: Vec<Injection>,
    pub shifts: Vec<Shifting>,
    /// The number of the workload, if it is one of the five, which are from memory.
    pub numbered: Option<u32>,
    ghost valid: { IsValid settings },
    ghost hosts_least: { 2 ≤ settings.hosts },
    ghost hosts_most: { settings.hosts ≤ 32 },
    ghost seg_least: { 1 ≤ settings.seg },
    ghost seg_most: { settings.seg ≤ 1400 },
    ghost restarting: { All (λ r. r.host.0 < settings.hosts) restarts.items },
    ghost restarts_most: { length restarts.items ≤ 64 },
    ghost clients: { All (λ c. c.client.0 < settings.hosts) listed.items },
    ghost servers: { All (λ c. c.server.0 < settings.hosts) listed.items },
    ghost injected: { All (λ i. i.host.0 < settings.hosts) injections.items },
    ghost shifted: { All (λ s. s.host.0 < settings.hosts) shifts.items },
    ghost within_skew: { All (λ s. s.ticks ≤ 2 * settings.skew) shifts.items },
    ghost restarts_within: { All IsRestart restarts.items },
    ghost calls_within: { All IsCall listed.items },
    ghost injections_within: { All IsInjection injections.items },
    ghost shifts_within: { All IsShift shifts.items },
    ghost incast: { load.incast < settings.hosts },
    ghost hot: { (h : Hot) → load.hot ≡ Some h → h.host.0 < settings.hosts },
}
