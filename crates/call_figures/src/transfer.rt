// A message on its way, as its sender and its receiver know it.
ghost use Rattle.std.specs.Prelude.{◌≡◌, ◌+◌, ◌-◌, ◌^◌, nat_lt, min, max};

/// A message: how long it is, how far it was ever sent and how far its sender may send it, for how long that waited, and what its
/// receiver knows of it.
#[derive(Clone, Copy, Debug, PartialEq, Eq)]
pub struct Transfer {
    pub length: u32,
    /// The first byte that was never sent.
    pub sent: u32,
    /// The first byte that the sender may not send, as far as it knows.
    pub cleared: u32,
    /// Since when it waits for what it waits for now.
    pub since: u64,
    /// For how long it waited for a grant: all that might be sent was sent, and it was not all.
    pub for_grant: u64,
    /// For how long it waited for credit: bytes might be sent, and the host sent none of them.
    pub for_credit: u64,
    /// How many bytes were sent again.
    pub again: u64,
    /// How many of its packets carried bytes that had been sent before.
    pub resent: u32,
    /// For how long its pieces waited in network cards, all together.
    pub in_card: u64,
    /// For how long its pieces waited at outputs of the switch, all together.
    pub at_output: u64,
    /// Whether a piece came to the receiver.
    pub came: bool,
    /// The first byte that the receiver didn't grant.
    pub granted: u32,
    /// Whether it is over at the receiver: whole, or given up.
    pub over: bool,
}

impl Transfer {
    /// A message that isn't known yet.
    pub fn unknown() -> Transfer
        ensures sent { result.sent ≡ 0 }
        ensures again { result.again ≡ 0 }
    {
        Transfer {
            length: 0,
            sent: 0,
            cleared: 0,
            since: 0,
            for_grant: 0,
            for_credit: 0,
            again: 0,
            resent: 0,
            in_card: 0,
            at_output: 0,
            came: false,
            granted: 0,
            over: false,
        }
    }

    /// A message of so many bytes that may be sent from a moment on, up to a byte without a grant.
    pub fn begun(length: u32, unsched: u32, now: u64) -> Transfer
        ensures length { result.length ≡ length }
        ensures cleared { result.cleared ≡ min unsched length }
        ensures sent { result.sent ≡ 0 }
        ensures since { result.since ≡ now }
    {
        Transfer {
            length,
            cleared: unsched.min(length),
            since: now,
            ..Transfer::unknown()
        }
    }

    /// Whether some of its bytes aren't granted.
    pub fn is_short(&self) -> bool
        ensures { result ≡ nat_lt self.now.granted self.now.length }
    {
        self.granted < self.length
    }

    /// A piece is sent. Bytes that were never sent go out in order, so those below the greatest end so far are sent again. Answers
    /// whether the piece has such bytes.
    pub fn sends(&mut self, now: u64, offset: u32, len: u32) -> bool
        ensures sent { self.new.sent ≡ max self.old.sent (min (offset + len) (2 ^ 32 - 1)) }
        ensures again { self.new.again ≡ min (self.old.again + (min (min (offset + len) (2 ^ 32 - 1)) self.old.sent - offset)) (2 ^ 64 - 1) }
        ensures length { self.new.length ≡ self.old.length }
    {
        let end = offset.saturating_add(len);
        let twice = end.min(self.sent).saturating_sub(offset);
        self.again = self.again.saturating_add(u64::from(twice));
        if twice > 0 {
            self.resent = self.resent.saturating_add(1);
        }
        if end > self.sent {
            self.for_credit = self
                .for_credit
                .saturating_add(now.saturating_sub(self.since));
            self.since = now;
            self.sent = end;
        }
        twice > 0
    }

    /// A grant up to a byte comes to its sender.
    pub fn clears(&mut self, now: u64, upto: u32)
        ensures cleared { self.new.cleared ≡ max self.old.cleared (min upto self.old.length) }
        ensures sent { self.new.sent ≡ self.old.sent }
        ensures length { self.new.length ≡ self.old.length }
    {
        let upto = upto.min(self.length);
        if upto <= self.cleared {
            return;
        }
        if self.sent >= self.cleared {
            self.for_grant = self
                .for_grant
                .saturating_add(now.saturating_sub(self.since));
            self.since = now;
        }
        self.cleared = upto;
    }

    /// Its receiver grants it up to a byte.
    pub fn grants(&mut self, upto: u32)
        ensures granted { self.new.granted ≡ max self.old.granted upto }
        ensures length { self.new.length ≡ self.old.length }
    {
        self.granted = self.granted.max(upto);
    }
}
