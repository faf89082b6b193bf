// A world in which nothing has happened.
ghost use Rattle.std.specs.Prelude.{◌≡◌, ◌≤◌, IfOk};
ghost use Rattle.std.specs.List.{AllByRecursion};
ghost use Rattle.host_table.specs.Staged.{MaySeat, AreSeated};
ghost use Rattle.homa_world.specs.First.{IsOpenedAt};
ghost use Rattle.homa_world.specs.Standing.{IsKept};

use crate::parts::{Last, WorldParts};
use homa_plain::{LAST_TICK, Settings};
use homa_service::Service;
use host_table::Stage;
use std::alloc::{AllocError, Global};
use world_packets::Packets;

impl<S: Service> WorldParts<S> {
    /// So many hosts as the settings say, each in its first life, at tick `start` of the clock, with an own clock that is `skew`
    /// ahead. Service h serves host h, and the others are spare.
    pub fn open(
        alloc: Global,
        settings: &Settings,
        services: Vec<S>,
        start: u64,
    ) -> Result<WorldParts<S>, AllocError>
        requires boxes { MaySeat settings.now services.items }
        requires none { AllByRecursion (λ service. S.served service ≡ 0) services.items }
        requires start { start ≤ LAST_TICK }
        ensures opened { IfOk result (IsOpenedAt settings.now start services.items) }
        ensures kept { IfOk result (IsKept S.served) }
        ensures seated { IfOk result (λ w. AreSeated settings.now services.items w.stage) }
    {
        Ok(WorldParts {
            settings: *settings,
            clock: start,
            leads: vec![in alloc; settings.skew; settings.hosts as usize]?,
            stage: Stage::open(alloc, settings, services)?,
            packets: Packets::open(alloc, settings),
            injected: Vec::new(alloc),
            last: Last::Nothing,
            applied: 0,
        })
    }
}
