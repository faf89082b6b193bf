// What a world shows of itself: its hosts, their live calls, and its packets.
ghost use Rattle.std.specs.Prelude.{◌≡◌, ◌≤◌, ◌⊎◌, ◌^◌, ◌==◌, MatchOption, Some, None, length, slice_get};
ghost use Rattle.std.specs.List.{list_all};
ghost use Rattle.plain_sets.specs.Maps.{len};
ghost use Rattle.homa_plain.specs.Host.{Host as PlainHost};
ghost use Rattle.homa_plain.specs.World.{World as PlainWorld, host_at};
ghost use Rattle.homa_world.specs.Passing.{IsOf};
ghost use Rattle.homa_world.specs.Standing.{StandsFor, IsKept};

use crate::parts::WorldParts;
use homa_plain::HostId;
use homa_service::Service;
use world_packets::Kept;

/// What is shown of a packet on its way: its receiver, its level, how many bytes its datagram has, and the tick of its
/// sending.
#[derive(Clone, Copy, Debug, PartialEq, Eq)]
pub struct Passing {
    pub to: HostId,
    pub level: u8,
    pub len: u32,
    pub tick: u64,
}

// Where a datagram has its packet's level.
const LEVEL: usize = 3;

impl<S: Service> WorldParts<S> {
    // How many live calls a host has; none where there is no such host.
    pub(crate) fn live(&self, host: HostId) -> u32
        ensures { (w : PlainWorld) → StandsFor self.now w → MatchOption (host_at w host) (result ≡ 0) (λ h. result ≡ len h.clients) }
    {
        if !self.stage.has(host) {
            return 0;
        }
        self.stage.host(host).live()
    }

    // Whether no host has a live call.
    pub(crate) fn is_idle(&self) -> bool
        requires kept { IsKept S.served self.now }
        ensures { (w : PlainWorld) → StandsFor self.now w → result ≡ list_all (λ (h : PlainHost). len h.clients == 0) w.hosts }
    {
        for host in 0..self.settings.hosts {
            if self.live(HostId(host as u16)) != 0 {
                return false;
            }
        }
        true
    }

    // What is shown of the packet with this number. Most that are asked for were sent last.
    pub(crate) fn passing(&self, n: u64) -> Option<Passing>
        ensures { (w : PlainWorld) → StandsFor self.now w → IsOf self.now.settings w n result }
    {
        match self.packets.recent(n) {
            Some(
                Kept::Whole {
                    tick,
                    to,
                    bytes,
                    ..
                },
            ) => passing_of(tick, to, bytes),
            _ => self.passing_of_all(n),
        }
    }

    // The same, whenever it was sent.
    fn passing_of_all(&self, n: u64) -> Option<Passing>
        ensures { (w : PlainWorld) → StandsFor self.now w → IsOf self.now.settings w n result }
    {
        match self.packets.get(n) {
            Some(
                Kept::Whole {
                    tick,
                    to,
                    bytes,
                    ..
                },
            ) => passing_of(tick, to, bytes),
            Some(Kept::Late { .. }) => None,
            Some(Kept::Stale { .. }) => None,
            None => None,
        }
    }
}

// What is shown of a datagram; None where it is too short or too long to be one.
fn passing_of(tick: u64, to: HostId, bytes: &[u8]) -> Option<Passing>
    ensures { MatchOption result ((slice_get bytes.now 3 ≡ None) ⊎ (2 ^ 32 ≤ length bytes.now)) (λ p. (p.to ≡ to) × (slice_get bytes.now 3 ≡ Some p.level)
        × (p.len ≡ length bytes.now) × (p.tick ≡ tick)) }
{
    let level = *bytes.get(LEVEL)?;
    let len = u32::try_from(bytes.len()).ok()?;
    Some(Passing {
        to,
        level,
        len,
        tick,
    })
}
