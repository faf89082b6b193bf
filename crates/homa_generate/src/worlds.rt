//! A world in which traffic is generated.
ghost use Rattle.std.specs.Prelude.{◌≡◌, ◌==◌, OnOk, length};
ghost use Rattle.std.specs.List.{list_all};
ghost use Rattle.plain_sets.specs.Maps.{len};
ghost use Rattle.homa_plain.specs.Host.{Host};
ghost use Rattle.homa_plain.specs.World.{World as PlainWorld, host_at};
ghost use Rattle.generated_runs.specs.Rounds.{live_at};
ghost use Rattle.homa_generate.specs.Counts.{counted};
ghost use Rattle.homa_world.specs.Passing.{IsOf};

use crate::Counts;
use homa_plain::HostId;
use homa_replay::ReplayWorld;
use homa_service::Service;
use homa_world::{Passing, World};
use std::alloc::AllocError;

/// A world in which traffic is generated: it also shows its clock, the packets that were sent, and which hosts have
/// live calls.
pub trait GenerateWorld: ReplayWorld {
    /// The clock's tick.
    fn clock(&self) -> u64
        ensures { (w : PlainWorld) → Self.stands self.now w → result ≡ w.clock };

    /// How many packets were sent.
    fn packets(&self) -> u64
        ensures { (w : PlainWorld) → Self.stands self.now w → result ≡ length w.packets };

    /// The packet with this number; None where it is no longer kept, or wasn't sent. With version 1, one that was sent at the
    /// clock's tick is kept.
    fn packet(&self, n: u64) -> Option<Passing>
        ensures { (w : PlainWorld) → Self.stands self.now w → IsOf (Self.settings self.now) w n result };

    /// Counts the lines of the last event's entries, by their kinds. Fails where a number has no room left.
    fn count_lines(&self, counts: &mut Counts) -> Result<(), AllocError>
        ensures { OnOk result (counts.new ≡ counted counts.old (Self.told self.now)) };

    /// How many live calls a host has; none where there is no such host.
    fn live(&self, host: HostId) -> u32
        ensures { (w : PlainWorld) → Self.stands self.now w → result ≡ live_at (host_at w host) };

    /// Whether no host has a live call.
    fn is_idle(&self) -> bool
        ensures { (w : PlainWorld) → Self.stands self.now w → result ≡ list_all (λ (h : Host). len h.clients == 0) w.hosts };
}

impl<S: Service> GenerateWorld for World<S> {
    fn clock(&self) -> u64 {
        self.now()
    }

    fn packets(&self) -> u64 {
        World::packets(self)
    }

    fn packet(&self, n: u64) -> Option<Passing> {
        World::packet(self, n)
    }

    fn count_lines(&self, counts: &mut Counts) -> Result<(), AllocError> {
        counts.note_kind(self.unmarked_kind())?;
        let marks = self.marks();
        for mark in marks {
            counts.note_kind(self.mark_kind(mark))?;
        }
        Ok(())
    }

    fn live(&self, host: HostId) -> u32 {
        World::live(self, host)
    }

    fn is_idle(&self) -> bool {
        World::is_idle(self)
    }
}
