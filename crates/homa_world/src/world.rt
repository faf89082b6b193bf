// The world that is played.
ghost use Rattle.std.specs.Prelude.{◌≡◌, ◌≤◌, ◌<◌, ◌==◌, Some, MatchOption, length, slice_get};
ghost use Rattle.std.specs.List.{AllByRecursion, list_all};
ghost use Rattle.plain_sets.specs.Maps.{len};
ghost use Rattle.homa_plain.specs.Host.{Host as PlainHost};
ghost use Rattle.homa_plain.specs.World.{World as PlainWorld, host_at};
ghost use Rattle.homa_world.specs.Passing.{IsOf};

use crate::parts::WorldParts;
use crate::{LineKind, Passing};
use homa_host::Host;
use homa_io::WriteFailed;
use homa_plain::{Entry, Event, HostId, LAST_TICK, Settings, WorldFault};
use homa_replay::{FlushSink, OpenWorld, ReplayWorld};
use homa_service::Service;
use host_view::Mark;
use std::alloc::{AllocError, Global};
use std::marker::Model;

/// All hosts with their clocks and services, and the packets on their way.
#[derive(Drop)]
pub struct World<S: Service> {
    parts: WorldParts<S>,
}

impl<S: Service> Model for World<S> {
    ghost use Rattle.homa_world.specs.declared.parts.WorldParts.{WorldParts};
    ghost use Rattle.homa_world.specs.Standing.{IsKept};

    ghost Value = { WorldParts S };

    ghost view = { λ w. w.parts };

    ghost invariant = { λ w. IsKept S.served w.parts };
}

impl<S: Service> World<S> {
    ghost use Rattle.std.specs.Prelude.{IfOk, List, ◌∷◌};
    ghost use Rattle.homa_plain.specs.Entries.{PlainEntry, PlainSettings};
    ghost use Rattle.host_table.specs.Staged.{MaySeat};
    ghost use Rattle.homa_world.specs.First.{IsOpenedAt};
    ghost use Rattle.box_laws.specs.First.{AreAllowed};
    ghost use Rattle.host_table.specs.Staged.{frames_of};
    ghost use Rattle.homa_world.specs.Counting.{unmarked_kind, Stands, IsKindOf, AreMarksOf};
    ghost use Rattle.homa_world.specs.Standing.{StandsFor, may_tell_of};

    /// A world in which nothing has happened, at tick `start` of its clock: so many hosts as the settings say, each in its first
    /// life. Service h serves host h, and the others are spare.
    pub fn open_at(
        alloc: Global,
        settings: &Settings,
        services: Vec<S>,
        start: u64,
    ) -> Result<World<S>, AllocError>
        requires boxes { MaySeat settings.now services.items }
        requires none { AllByRecursion (λ service. S.served service ≡ 0) services.items }
        requires start { start ≤ LAST_TICK }
        ensures opened { IfOk result (IsOpenedAt settings.now start services.items) }
        ensures allows { IfOk result (λ w. (told : List PlainEntry) → may_tell_of S.served S.allows w told
            → AreAllowed S.served S.allows services.items (PlainSettings settings.now ∷ told)) }
    {
        Ok(World {
            parts: WorldParts::open(alloc, settings, services, start)?,
        })
    }

    /// The tick of the clock.
    pub fn now(&self) -> u64
        ensures { result ≡ self.now.clock }
    {
        self.parts.clock
    }

    /// How many packets were sent.
    pub fn packets(&self) -> u64
        ensures { (w : PlainWorld) → StandsFor self.now w → result ≡ length w.packets }
    {
        self.parts.packets.count()
    }

    /// A host; there are as many as the settings say.
    pub fn host(&self, host: HostId) -> &Host
        requires { host.0 < self.now.settings.hosts }
        ensures settings { result.now.settings ≡ self.now.settings }
        ensures host { (w : PlainWorld) → StandsFor self.now w → slice_get w.hosts host.0 ≡ Some result.now.host }
    {
        self.parts.stage.host(host)
    }

    /// How many live calls a host has; none where there is no such host.
    pub fn live(&self, host: HostId) -> u32
        ensures { (w : PlainWorld) → StandsFor self.now w → MatchOption (host_at w host) (result ≡ 0) (λ h. result ≡ len h.clients) }
    {
        self.parts.live(host)
    }

    /// Whether no host has a live call.
    pub fn is_idle(&self) -> bool
        ensures { (w : PlainWorld) → StandsFor self.now w → result ≡ list_all (λ (h : PlainHost). len h.clients == 0) w.hosts }
    {
        self.parts.is_idle()
    }

    /// The kind of the line of the last event's entry that no mark shows, if it is counted.
    pub fn unmarked_kind(&self) -> Option<LineKind>
        ensures { result ≡ unmarked_kind self.now.last }
    {
        self.parts.unmarked_kind()
    }

    /// The marks of the last event's entries, if it was a step of a host.
    pub fn marks(&self) -> &[Mark]
        ensures { AreMarksOf self.now self.now.last result.now }
    {
        self.parts.marks()
    }

    /// The kind of the line of the entry that a mark shows, if it is counted.
    pub fn mark_kind(&self, mark: &Mark) -> Option<LineKind>
        requires stands { Stands (frames_of self.now.stage) mark.now }
        ensures { IsKindOf (frames_of self.now.stage) mark.now result }
    {
        self.parts.mark_kind(mark)
    }

    /// What is shown of the packet with this number, counted from 0; None where it was sent at an earlier tick and is too old
    /// to be kept whole, or wasn't sent. With version 2 nothing is said of where it is None.
    pub fn packet(&self, n: u64) -> Option<Passing>
        ensures { (w : PlainWorld) → StandsFor self.now w → IsOf self.now.settings w n result }
    {
        self.parts.passing(n)
    }
}

impl<S: Service> ReplayWorld for World<S> {
    ghost use Rattle.homa_world.specs.Standing.{StandsFor, told_of, may_tell_of};

    ghost stands = { λ w. StandsFor w };

    ghost settings = { λ w. w.settings };

    ghost events = { λ w. w.applied };

    ghost told = { λ w. told_of w };

    ghost allows = { λ w. may_tell_of S.served S.allows w };

    fn apply(&mut self, alloc: Global, event: &Event, bytes: &[u8]) -> Result<(), WorldFault> {
        match *event {
            Event::Call {
                client,
                server,
                number,
            } => self.parts.call(alloc, client, server, number, bytes),
            Event::Deliver { packet } => self.parts.deliver(alloc, packet),
            Event::Clock => self.parts.tick(),
            Event::Turn { host } => self.parts.turn(alloc, host),
            Event::Restart { host } => self.parts.restart(alloc, host),
            Event::Inject { host } => self.parts.inject(alloc, host, bytes),
            Event::Shift { host, n } => self.parts.shift(host, n),
        }
    }

    fn entries(&self) -> usize {
        self.parts.entries()
    }

    fn entry(&self, i: usize) -> Entry<'_> {
        self.parts.entry(i)
    }

    fn put_entries<K: FlushSink>(&self, sink: &mut K) -> Result<(), WriteFailed> {
        self.parts.put_entries(sink)
    }

    ghost allows_none = { λ w. tt };
}

impl<S: Service> OpenWorld<Vec<S>> for World<S> {
    ghost use Rattle.std.specs.Prelude.{length};
    ghost use Rattle.box_laws.specs.First.{AreAllowed, AreReady};
    ghost use Rattle.box_laws.specs.Unasked.{unasked_allowed};

    ghost many = { λ boxes. length boxes.items };

    ghost are_ready = { λ boxes. AreReady S.served boxes.items };

    ghost are_allowed = { λ boxes. AreAllowed S.served S.allows boxes.items };

    fn open(alloc: Global, s: &Settings, boxes: Vec<S>) -> Result<World<S>, AllocError> {
        World::open_at(alloc, s, boxes, 0)
    }

    ghost unasked = { λ boxes told none. unasked_allowed S.served S.allows boxes.items told none };
}
