// Events of a world that are no step of a host: a host's clock is set, and a host restarts.
ghost use Rattle.homa_plain.specs.Replay.{bare};
ghost use Rattle.homa_plain.specs.declared.event.Event.TheVariants as event;
ghost use Rattle.homa_world.specs.Happened.{MayHappen, HasHappened};

use crate::parts::{Last, WorldParts};
use homa_plain::{HostId, WorldFault};
use homa_service::Service;
use std::alloc::Global;

impl<S: Service> WorldParts<S> {
    /// A host's own clock is set to be `n` ticks ahead.
    pub fn shift(&mut self, host: HostId, n: u32) -> Result<(), WorldFault>
        requires { MayHappen S.served self.old }
        ensures { HasHappened S.served S.allows (bare (event.Shift host n)) self.old self.new result }
    {
        if !self.stage.has(host) {
            return Err(WorldFault::NoSuchHost);
        }
        let most = 2 * self.settings.skew;
        if n > most {
            return Err(WorldFault::OutOfBand { n, most });
        }
        let last = self.stage.host(host).last();
        let now = self.clock + u64::from(n);
        if now < last {
            return Err(WorldFault::Back { last, now });
        }
        self.leads[host.0 as usize] = n;
        self.last = Last::Shifted { host, n };
        self.applied += 1;
        Ok(())
    }

    /// A host restarts: it has no calls, is in its next life, and has the last spare service. How far its clock is ahead
    /// stays, and at what tick of it its last step was.
    pub fn restart(&mut self, alloc: Global, host: HostId) -> Result<(), WorldFault>
        requires { MayHappen S.served self.old }
        ensures { HasHappened S.served S.allows (bare (event.Restart host)) self.old self.new result }
    {
        if !self.stage.has(host) {
            return Err(WorldFault::NoSuchHost);
        }
        let before = self.stage.host(host);
        let (inc, last) = (before.incarnation() + 1, before.last());
        self.last = Last::Nothing;
        self.stage.restart(alloc, host, inc, last, &self.settings)?;
        self.last = Last::Restarted { host, inc };
        self.applied += 1;
        Ok(())
    }
}
