// What became of packets.
ghost use Rattle.std.specs.Prelude.{◌≡◌, ◌≤◌, ◌<◌, ◌+◌, ◌^◌, IsTrue};
ghost use Rattle.packet_network.specs.Censuses.{IsConserved, one_sent, one_repeated, one_lost, one_refused, one_delivered, no_fates};

/// What became of packets. Each that was sent, and each that came twice, was delivered, lost, refused by a full queue or too old
/// when it was at its host, or is under way.
#[derive(Clone, Copy, Debug, PartialEq, Eq)]
pub struct Fates {
    pub sent: u64,
    pub repeated: u64,
    pub delivered: u64,
    pub lost: u64,
    pub full: u64,
    pub old: u64,
}

/// The fates of packets, and how many are under way.
#[derive(Clone, Copy, Debug, PartialEq, Eq)]
pub(crate) struct Census {
    pub(crate) fates: Fates,
    pub(crate) under_way: u64,
    ghost conserved: { IsConserved fates under_way },
    ghost sent_most: { fates.sent ≤ 2 ^ 62 },
    ghost repeated_most: { fates.repeated ≤ 2 ^ 62 },
}

// More packets aren't counted.
const MOST: u64 = 1 << 62;

impl Census {
    /// No packet was sent.
    pub(crate) fn new() -> Census
        ensures fates { result.fates ≡ no_fates }
        ensures under_way { result.under_way ≡ 0 }
    {
        let fates = Fates {
            sent: 0,
            repeated: 0,
            delivered: 0,
            lost: 0,
            full: 0,
            old: 0,
        };
        Census {
            fates,
            under_way: 0,
        }
    }

    /// Whether one packet more can be sent, and can come twice.
    pub(crate) fn has_room(&self) -> bool
        ensures sent { IsTrue result → self.now.fates.sent < 2 ^ 62 }
        ensures repeated { IsTrue result → self.now.fates.repeated < 2 ^ 62 }
    {
        self.fates.sent < MOST && self.fates.repeated < MOST
    }

    /// A packet is sent.
    pub(crate) fn sends(&mut self)
        requires { self.old.fates.sent < 2 ^ 62 }
        ensures fates { self.new.fates ≡ one_sent self.old.fates }
        ensures under_way { self.new.under_way ≡ self.old.under_way + 1 }
    {
        self.fates.sent += 1;
        self.under_way += 1;
    }

    /// A packet comes once more.
    pub(crate) fn repeats(&mut self)
        requires { self.old.fates.repeated < 2 ^ 62 }
        ensures fates { self.new.fates ≡ one_repeated self.old.fates }
        ensures under_way { self.new.under_way ≡ self.old.under_way + 1 }
    {
        self.fates.repeated += 1;
        self.under_way += 1;
    }

    /// A packet is lost.
    pub(crate) fn loses(&mut self)
        requires { 0 < self.old.under_way }
        ensures fates { self.new.fates ≡ one_lost self.old.fates }
        ensures under_way { self.new.under_way + 1 ≡ self.old.under_way }
    {
        self.fates.lost += 1;
        self.under_way -= 1;
    }

    /// A packet has no room.
    pub(crate) fn refuses(&mut self)
        requires { 0 < self.old.under_way }
        ensures fates { self.new.fates ≡ one_refused self.old.fates }
        ensures under_way { self.new.under_way + 1 ≡ self.old.under_way }
    {
        self.fates.full += 1;
        self.under_way -= 1;
    }

    /// A packet is at its host.
    pub(crate) fn delivers(&mut self)
        requires { 0 < self.old.under_way }
        ensures fates { self.new.fates ≡ one_delivered self.old.fates }
        ensures under_way { self.new.under_way + 1 ≡ self.old.under_way }
    {
        self.fates.delivered += 1;
        self.under_way -= 1;
    }

    /// A packet that was at its host was too old, and is so counted, if any was delivered.
    pub(crate) fn ages(&mut self)
        ensures aged { 0 < self.old.fates.delivered → self.new.fates.old ≡ self.old.fates.old + 1 }
        ensures both { self.new.fates.delivered + self.new.fates.old ≡ self.old.fates.delivered + self.old.fates.old }
        ensures sent { self.new.fates.sent ≡ self.old.fates.sent }
        ensures under_way { self.new.under_way ≡ self.old.under_way }
    {
        if self.fates.delivered > 0 {
            self.fates.delivered -= 1;
            self.fates.old += 1;
        }
    }
}
