// The network of an experiment.
ghost use Rattle.std.specs.Prelude.{◌≤◌};

/// In which order a host's network card sends what waits there.
#[derive(Clone, Copy, Debug, PartialEq, Eq)]
pub enum Card {
    /// What came first goes first.
    Fifo,
    /// The highest level goes first, and of one level what came first.
    Levels,
    /// The packet whose message has the fewest bytes left goes first.
    Srpt,
}

/// The network: one switch, and a link each way between it and each host. Spans are picoseconds.
#[derive(Clone, Copy, Debug)]
pub struct Network {
    /// How long a byte takes on a link.
    pub byte: u64,
    /// How long a bit is under way on a link.
    pub delay: u64,
    /// How long the switch takes for a packet, from its last bit that came until it is queued.
    pub switch: u64,
    /// How long a host's software takes for a packet, from its last bit that came until the host has it.
    pub host_delay: u64,
    /// How long a server takes for a request, from its last piece that came until the host has it.
    pub service_time: u64,
    /// How many bytes a datagram has on the wire beside its own: preamble, Ethernet, IP, UDP and the gap.
    pub overhead: u32,
    /// How many bytes may wait at an output of the switch.
    pub buffer: u32,
    pub card: Card,
    /// A host has no turn at a tick at which more bytes than this wait at its network card.
    pub card_limit: u32,
    /// The length of a tick.
    pub tick: u64,
    /// Whether the turns of a tick are spread over it, or all at its beginning.
    pub is_spread: bool,
    /// Of a million packets so many are lost.
    pub loss: u32,
    /// Of a million packets so many come twice.
    pub repeat: u32,
    /// A packet may take up to so much longer to the switch.
    pub jitter: u64,
    ghost some_time: { 1 ≤ byte },
    ghost byte_most: { byte ≤ 8000000 },
    ghost delay_most: { delay ≤ 1000000000000 },
    ghost switch_most: { switch ≤ 1000000000000 },
    ghost host_delay_most: { host_delay ≤ 1000000000000 },
    ghost service_time_most: { service_time ≤ 1000000000000 },
    ghost overhead_most: { overhead ≤ 10000 },
    ghost some_tick: { 1000 ≤ tick },
    ghost tick_most: { tick ≤ 1000000000000 },
    ghost jitter_most: { jitter ≤ 1000000000000 },
}
