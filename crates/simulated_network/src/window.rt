// What is measured between two moments.
ghost use Rattle.std.specs.Prelude.{◌≡◌, ◌≤◌, ◌*◌, ◌^◌, true, false};

use crate::link_use::LinkUse;
use homa_plain::HostId;
use packet_network::{Level, PacketNetwork, Waits};

/// What was measured between two moments, in picoseconds: from the first call that is measured until the one behind the last. If
/// calls are listed, it is all of the run.
#[derive(Clone, Copy, Debug)]
pub struct Window {
    pub from: u64,
    pub to: u64,
    /// How many bytes on the wire the calls have that were drawn then.
    pub offered: u64,
    /// For how long links to the switch were taken, all together.
    pub up: u128,
    pub links: LinkUse,
    /// The link to a host that was taken for the longest time, and for how long.
    pub hottest: (HostId, u64),
    /// The bytes on links to hosts: of pieces that were sent for the first time, of pieces sent again, and of other packets.
    pub data: u64,
    pub again: u64,
    pub control: u64,
    /// What waited in network cards, and at the switch's outputs.
    pub cards: Waits,
    pub outputs: Waits,
    /// What waited at the outputs and went through them, by level.
    pub levels: [Level; 8],
    /// How many packets were sent, and how many of them were CUTOFFS.
    pub packets: u64,
    pub cutoffs: u64,
    pub is_open: bool,
    pub is_closed: bool,
}

const NO_WAITS: Waits = Waits {
    begun: 0,
    waited: 0,
    weighted: 0,
    area: 0,
    most: 0,
};

const NO_LEVEL: Level = Level {
    most: 0,
    area: 0,
    passed: 0,
};

// What waited at the outputs and went through them, by level.
fn levels_of(packets: &PacketNetwork) -> [Level; 8] {
    let mut levels = [NO_LEVEL; 8];
    for level in 0..8 {
        levels[level] = packets.level(level);
    }
    levels
}

// All of the links to hosts, and the one that was taken for the longest time.
fn links_of(packets: &PacketNetwork, hosts: u32) -> (LinkUse, (HostId, u64))
    requires { hosts ≤ 32 }
{
    let mut links = LinkUse::new();
    let mut hottest = (HostId(0), 0);
    for host in 0..hosts {
        let host = HostId(host as u16);
        let spans = packets.spans(host);
        links.add(&spans);
        if spans.taken > hottest.1 {
            hottest = (host, spans.taken);
        }
    }
    (links, hottest)
}

// For how long links to the switch were taken.
fn up_of(packets: &PacketNetwork, hosts: u32) -> u128
    requires { hosts ≤ 32 }
    ensures { result ≤ hosts * 2 ^ 64 }
{
    let mut up = 0;
    for host in 0..hosts {
        up += u128::from(packets.card_taken(HostId(host as u16)));
    }
    up
}

impl Window {
    /// Nothing is measured yet.
    pub(crate) fn new() -> Window
        ensures is_open { result.is_open ≡ false }
        ensures is_closed { result.is_closed ≡ false }
    {
        Window {
            from: 0,
            to: 0,
            offered: 0,
            up: 0,
            links: LinkUse::new(),
            hottest: (HostId(0), 0),
            data: 0,
            again: 0,
            control: 0,
            cards: NO_WAITS,
            outputs: NO_WAITS,
            levels: [NO_LEVEL; 8],
            packets: 0,
            cutoffs: 0,
            is_open: false,
            is_closed: false,
        }
    }

    /// Measuring begins.
    pub(crate) fn open(&mut self, now: u64)
        ensures from { self.new.from ≡ now }
        ensures is_open { self.new.is_open ≡ true }
    {
        self.from = now;
        self.is_open = true;
    }

    /// A call of so many bytes on the wire is drawn.
    pub(crate) fn offers(&mut self, bytes: u64) {
        if self.is_open {
            self.offered = self.offered.saturating_add(bytes);
        }
    }

    /// A packet is sent, which may be CUTOFFS.
    pub(crate) fn sends(&mut self, is_cutoffs: bool) {
        if self.is_open {
            self.packets = self.packets.saturating_add(1);
            self.cutoffs = self.cutoffs.saturating_add(u64::from(is_cutoffs));
        }
    }

    /// Measuring ends.
    pub(crate) fn close(&mut self, packets: &PacketNetwork, hosts: u32)
        requires { hosts ≤ 32 }
        ensures to { self.old.is_open ≡ true → self.new.to ≡ packets.now.state.moment }
        ensures is_closed { self.old.is_open ≡ true → self.new.is_closed ≡ true }
        ensures from { self.new.from ≡ self.old.from }
        ensures offered { self.new.offered ≡ self.old.offered }
    {
        if !self.is_open {
            return;
        }
        let down = packets.down();
        let (links, hottest) = links_of(packets, hosts);
        *self = Window {
            to: packets.now(),
            up: up_of(packets, hosts),
            links,
            hottest,
            data: down.data,
            again: down.again,
            control: down.control,
            cards: packets.cards(),
            outputs: packets.outputs(),
            levels: levels_of(packets),
            is_open: false,
            is_closed: true,
            ..*self
        };
    }
}
