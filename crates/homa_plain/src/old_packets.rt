// Whether a packet is too old: with version 1 the world doesn't deliver it, with version 2 its receiver refuses it.
ghost use Rattle.std.specs.Prelude.{◌≡◌, ◌≤◌};
ghost use Rattle.homa_plain.specs.Packets.{Packet};
ghost use Rattle.homa_plain.specs.Settings.{IsValid};
ghost use Rattle.homa_plain.specs.OldPackets.{is_past_life};
ghost use Rattle.homa_plain.specs.OldPackets.{is_stale};

use crate::limits::LAST_HOST_TICK;
use crate::settings::Settings;

impl Settings {
    /// Whether a packet that was sent at tick `sent` of the world may not be delivered any more at tick `now`,
    /// which is so with version 1 alone.
    pub fn is_late(&self, sent: u64, now: u64) -> bool
        ensures { result ≡ is_past_life self.now sent now }
    {
        self.wire == 1 && sent < now.saturating_sub(u64::from(self.life))
    }

    /// Whether a packet that was sent at tick `sent` of its sender's clock is too old for a receiver whose clock says `now`,
    /// which only version 2 can tell.
    pub fn is_stale(&self, sent: u64, now: u64) -> bool
        requires valid { IsValid self.now }
        requires sent { sent ≤ LAST_HOST_TICK }
        ensures { (p : Packet) → p.at ≡ sent → result ≡ is_stale self.now now p }
    {
        self.wire == 2 && sent + u64::from(self.life) + self.band() < now
    }
}
