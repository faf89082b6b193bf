// What is asked of a network.
ghost use Rattle.std.specs.Prelude.{◌≤◌, ◌^◌};

use homa_plain::HostId;

/// A server to which more calls go: of 1000 calls of other hosts so many, and the rest as without it.
#[derive(Clone, Copy, Debug, PartialEq, Eq)]
pub struct Hot {
    pub host: HostId,
    pub share: u32,
}

/// What is asked of the network.
#[derive(Clone, Copy, Debug)]
pub struct Load {
    /// Of 1000 parts of each link so many are filled by requests and responses.
    pub load: u32,
    /// Whether the gap between calls is that which the lengths of a seed's own calls need, and not that of the workload's mean.
    pub is_exact: bool,
    /// The number of the service: 0, 2 and 3 answer as many bytes as they were asked, 1 answers 8.
    pub service: u32,
    /// So many clients call host 0 at once, if it isn't 0.
    pub incast: u32,
    /// How many calls a client makes at once.
    pub burst: u32,
    pub hot: Option<Hot>,
    /// How many calls are made before those that are measured.
    pub warm: u32,
    /// How many calls are measured.
    pub calls: u32,
    /// The first seed.
    pub seed: u64,
    /// How many seeds there are.
    pub seeds: u32,
    /// For how many parts of the lengths slowdowns are told.
    pub parts: u32,
    /// A run stops after so many events, if this isn't 0.
    pub events: u64,
    ghost some_load: { 1 ≤ load },
    ghost load_most: { load ≤ 100000 },
    ghost service_most: { service ≤ 3 },
    ghost incast_most: { incast ≤ 31 },
    ghost some_burst: { 1 ≤ burst },
    ghost burst_most: { burst ≤ 1000 },
    ghost warm_most: { warm ≤ 100000000 },
    ghost some_calls: { 1 ≤ calls },
    ghost calls_most: { calls ≤ 100000000 },
    ghost seed_most: { seed ≤ 1000000000000000000 },
    ghost some_seeds: { 1 ≤ seeds },
    ghost seeds_most: { seeds ≤ 10000 },
    ghost some_parts: { 1 ≤ parts },
    ghost parts_most: { parts ≤ 1000 },
    ghost events_most: { events ≤ 2 ^ 50 },
}
