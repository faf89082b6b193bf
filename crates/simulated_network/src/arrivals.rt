// Who calls whom, when, and with how many bytes, as it is drawn.
ghost use Rattle.std.specs.Prelude.{◌≡◌, ◌≤◌, ◌<◌, ◌+◌, ◌-◌, ◌*◌, ◌^◌, min, nat_lt};

use experiment::{ARRIVALS, Draws, Experiment, LENGTHS, gap_of};
use homa_plain::HostId;

/// What is drawn of calls. A seed draws the same, whatever hosts and network do: moments and servers are drawn from one stream, and
/// lengths from another.
#[derive(Drop)]
pub(crate) struct Arrivals {
    moments: Draws,
    lengths: Draws,
    // The mean span between two times at which calls are made.
    gap: u64,
    // Who makes the calls of this moment, and how many are still to be made.
    client: HostId,
    left: u32,
    // How many calls were drawn so far.
    drawn: u32,
    ghost gap_most: { gap ≤ 2 ^ 56 },
}

/// A call that was drawn, or is listed.
#[derive(Clone, Copy, Debug, PartialEq, Eq)]
pub(crate) struct DrawnCall {
    pub(crate) client: HostId,
    pub(crate) server: HostId,
    pub(crate) bytes: u32,
    ghost most: { bytes ≤ 1000000 },
}

impl Arrivals {
    /// No call was drawn yet.
    pub(crate) fn new(experiment: &Experiment, seed: u64) -> Arrivals
        ensures drawn { result.drawn ≡ 0 }
        ensures left { result.left ≡ 0 }
    {
        Arrivals {
            moments: Draws::new(seed, ARRIVALS),
            lengths: Draws::new(seed, LENGTHS),
            gap: gap_of(experiment, seed),
            client: HostId(0),
            left: 0,
            drawn: 0,
        }
    }

    /// How many calls were drawn so far.
    pub(crate) fn drawn(&self) -> u32
        ensures { result ≡ self.now.drawn }
    {
        self.drawn
    }

    /// Whether calls are to be made at this moment.
    pub(crate) fn is_due(&self) -> bool
        ensures { result ≡ nat_lt 0 self.now.left }
    {
        0 < self.left
    }

    /// How long it takes until calls are made again.
    pub(crate) fn next_gap(&mut self) -> u64
        ensures most { result ≤ 23 * 2 ^ 56 }
        ensures drawn { self.new.drawn ≡ self.old.drawn }
    {
        self.moments.exponential(self.gap)
    }

    /// A client makes its calls now, or all clients of an incast do.
    pub(crate) fn begin(&mut self, experiment: &Experiment, client: HostId)
        ensures drawn { self.new.drawn ≡ self.old.drawn }
    {
        let load = &experiment.load;
        self.client = client;
        self.left = load.burst * load.incast.max(1);
    }

    /// One call more was drawn, or was listed.
    pub(crate) fn count(&mut self)
        ensures { self.new.drawn ≡ min (self.old.drawn + 1) (2 ^ 32 - 1) }
    {
        self.drawn = self.drawn.saturating_add(1);
    }

    // The server of a call of a client: the hot one, or another host, of which each is as likely as any other.
    fn server(&mut self, experiment: &Experiment, client: HostId) -> HostId
        ensures host { result.0 < experiment.now.settings.hosts }
        ensures drawn { self.new.drawn ≡ self.old.drawn }
    {
        let hosts = experiment.settings.hosts;
        let part = self.moments.below(1000);
        let distance = 1 + self.moments.below(hosts - 1);
        match experiment.load.hot {
            Some(hot) if hot.host != client && part < hot.share => hot.host,
            _ => HostId(((u32::from(client.0) + distance) % hosts) as u16),
        }
    }

    /// The next call that is made at this moment.
    pub(crate) fn call(&mut self, experiment: &Experiment) -> DrawnCall
        ensures drawn { self.new.drawn ≡ self.old.drawn }
    {
        let incast = experiment.load.incast;
        let bytes = experiment.workload.draw(&mut self.lengths);
        self.left = self.left.saturating_sub(1);
        if incast > 0 {
            return DrawnCall {
                client: HostId((1 + self.left % incast) as u16),
                server: HostId(0),
                bytes,
            };
        }
        let client = self.client;
        let server = self.server(experiment, client);
        DrawnCall {
            client,
            server,
            bytes,
        }
    }
}
