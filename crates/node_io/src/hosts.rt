// A set of hosts, in memory of a fixed size.
ghost use Rattle.std.specs.Prelude.{◌≡◌, ◌||◌, false};
ghost use Rattle.homa_plain.specs.declared.id.HostId.{HostId as Host};
ghost use Rattle.homa_plain.specs.Calls.{is_host};
ghost use Rattle.node_io.specs.Hosts.{set_has};

use homa_plain::HostId;

/// A set of hosts. Any number of them fits, and none takes memory.
#[derive(Drop)]
pub(crate) struct HostSet {
    pub(crate) is_in: [bool; 65536],
}

impl HostSet {
    /// No host.
    pub(crate) fn new() -> HostSet
        ensures { (h : Host) → set_has result h ≡ false }
    {
        HostSet {
            is_in: [false; 65536],
        }
    }

    /// Puts a host in.
    pub(crate) fn insert(&mut self, host: HostId)
        ensures { (h : Host) → set_has self.new h ≡ (set_has self.old h || is_host h host) }
    {
        self.is_in[host.0 as usize] = true;
    }

    /// Whether a host is in it.
    pub(crate) fn contains(&self, host: HostId) -> bool
        ensures { result ≡ set_has self.now host }
    {
        self.is_in[host.0 as usize]
    }
}
