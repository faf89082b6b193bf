// A host with what its steps are lent.
ghost use Rattle.std.specs.Prelude.{◌≡◌, ◌≢◌, ◌<◌, ◌≤◌, ◌+◌, ◌↔◌, ◌⊎◌};
ghost use Rattle.std.specs.Prelude.{true, if◌then◌else◌, IsTrue, IsSome, Some, None, [], length, slice_get, IfOk, IfSome, IfNone};
ghost use Rattle.std.specs.List.{AllByRecursion};
ghost use Rattle.plain_sets.specs.Maps.{empty};
ghost use Rattle.homa_plain.specs.Settings.{IsValid};
ghost use Rattle.homa_plain.specs.Entries.{plain};
ghost use Rattle.homa_plain.specs.Host.{new_host};
ghost use Rattle.homa_plain.specs.Rules.{Answer};
ghost use Rattle.homa_plain.specs.Steps.{start_fault, next_id, call_step, arrival_step, turn_step, has_run};
ghost use Rattle.host_view.specs.Marks.{shown_entries, has_ran, IsAllowed};
ghost use Rattle.host_view.specs.Done.{arriving};
ghost use Rattle.driven_host.specs.Counts.{none_counted};
ghost use Rattle.driven_host.specs.Driven.{IsStep, IsStill, ShowsNothing, IsOther, MayBegin, may_answer};

use homa_host::Host;
use homa_plain::{CallId, Entry, HostId, LAST_HOST_TICK, Settings};
use homa_service::Suite;
use host_view::Outbox;
use msg_pool::Scratch;
use std::alloc::{AllocError, Global};
use std::marker::Model;

/// The most steps that a host is driven.
pub(crate) const MOST_STEPS: u64 = 1 << 56;

/// A host with all that a step of it is lent: its services, and room for its frames and for a whole message.
#[derive(Drop)]
pub struct DrivenHost {
    host: Host,
    suite: Suite,
    out: Outbox,
    scratch: Scratch,
    id: HostId,
    // How many hosts there are.
    hosts: u32,
    // How many steps were begun.
    steps: u64,
}

impl Model for DrivenHost {
    ghost use Rattle.std.specs.Prelude.{None};
    ghost use Rattle.driven_host.specs.Counts.{none_counted};
    ghost use Rattle.driven_host.specs.Driven.{Driven, IsKept};

    ghost Value = { Driven };

    // It keeps no sender, and counts nothing.
    ghost view = { λ d. record { host = d.host; served = d.suite; steps = d.steps; out = d.out; whole = d.scratch; from = None; counts = none_counted } };

    ghost invariant = { λ d. IsKept d.host d.suite d.out d.id d.hosts d.steps };
}

impl DrivenHost {
    /// A host without calls, in this incarnation, whose own clock stood at `last` at its last step in an earlier life.
    pub fn open(
        alloc: Global,
        id: HostId,
        inc: u32,
        last: u64,
        settings: &Settings,
    ) -> Result<DrivenHost, AllocError>
        requires valid { IsValid settings.now }
        requires id { id.0 < settings.now.hosts }
        requires inc { 1 ≤ inc }
        requires last { last ≤ LAST_HOST_TICK }
        ensures { IfOk result (λ d. d ≡ record {
          host = record {
            settings = settings.now;
            host = new_host settings.now id inc last;
            client_places = empty;
            server_places = empty;
            marks = [];
          };
          served = 0;
          steps = 0;
          out = [];
          whole = [];
          from = None;
          counts = none_counted;
        }) }
    {
        let out = Outbox::new(alloc)?;
        let scratch = Scratch::new(alloc)?;
        Ok(DrivenHost {
            host: Host::open_at(alloc, id, inc, last, settings)?,
            suite: Suite::new(),
            out,
            scratch,
            id,
            hosts: settings.hosts,
            steps: 0,
        })
    }

    /// Calls a service of another host, at tick `now` of the host's own clock, up to 1,000,000,002,000. None where the call
    /// can't start, where there is no other host of this name, and where no step may begin, as after 2^56 of them. The request
    /// is dropped then, and the host stays as it was; either the last step is shown on, or nothing.
    pub fn call(&mut self, server: HostId, number: u8, request: Vec<u8>, now: u64) -> Option<CallId>
        ensures begins { MayBegin self.old.host self.old.steps now → IsOther self.old.host server
            → start_fault self.old.host.settings self.old.host.host server request.items ≡ None → IsSome result }
        ensures may_begin { IfSome result (λ _. MayBegin self.old.host self.old.steps now) }
        ensures other { IfSome result (λ _. IsOther self.old.host server) }
        ensures no_fault { IfSome result (λ _. start_fault self.old.host.settings self.old.host.host server request.items ≡ None) }
        ensures id { IfSome result (λ id. id ≡ next_id self.old.host.host) }
        ensures step { IfSome result (λ _. IsStep (call_step self.old.host.settings self.old.host.host now server number request.items) self.old self.new) }
        ensures served { self.new.served ≡ self.old.served }
        ensures same { IfNone result (IsStill self.old self.new) }
        ensures shows { IfNone result ((self.new ≡ self.old) ⊎ ShowsNothing self.new) }
        ensures steps { self.new.steps ≤ self.old.steps + 1 }
    {
        if !is_other(self.id, self.hosts, server) || !may_begin(&self.host, self.steps, now) {
            return None;
        }
        self.steps += 1;
        let Ok(id) = self.host.call(server, number, request, now, &mut self.out) else {
            return None;
        };
        Some(id)
    }

    /// A datagram comes from another host, at tick `now` of the host's own clock. None where its service finds no memory for
    /// a request that the datagram makes whole, where there is no other host of this name, and where no step may begin. The
    /// host stays as it was then; either the last step is shown on, or nothing.
    pub fn deliver(&mut self, alloc: Global, from: HostId, frame: &[u8], now: u64) -> Option<()>
        ensures begins { MayBegin self.old.host self.old.steps now → IsOther self.old.host from → IfNone result ((a : Answer)
            → has_run (arrival_step self.old.host.settings self.old.host.host now (arriving self.old.host from frame.now) a).told ≡ true) }
        ensures may_begin { IfSome result (λ _. MayBegin self.old.host self.old.steps now) }
        ensures other { IfSome result (λ _. IsOther self.old.host from) }
        ensures step { IfSome result (λ _. (a : Answer)
            × IsStep (arrival_step self.old.host.settings self.old.host.host now (arriving self.old.host from frame.now) a) self.old self.new) }
        ensures allowed { IfSome result (λ _. AllByRecursion (IsAllowed self.new.host.host (may_answer self.old.served) self.new.whole) self.new.host.marks) }
        ensures served { IfSome result (λ _. self.new.served ≡ (if has_ran self.new.host.marks then self.old.served + 1 else self.old.served)) }
        ensures same { IfNone result (IsStill self.old self.new) }
        ensures shows { IfNone result ((self.new ≡ self.old) ⊎ ShowsNothing self.new) }
        ensures steps { self.new.steps ≤ self.old.steps + 1 }
    {
        if !is_other(self.id, self.hosts, from) || !may_begin(&self.host, self.steps, now) {
            return None;
        }
        self.steps += 1;
        match self.host.deliver(
            alloc,
            from,
            frame,
            now,
            &mut self.suite,
            &mut self.out,
            &mut self.scratch,
        ) {
            Ok(()) => Some(()),
            Err(_) => None,
        }
    }

    /// A turn at tick `now` of the host's own clock. None where no step may begin; then all stays as it was.
    pub fn turn(&mut self, now: u64) -> Option<()>
        ensures begins { MayBegin self.old.host self.old.steps now → IsSome result }
        ensures may_begin { IfSome result (λ _. MayBegin self.old.host self.old.steps now) }
        ensures step { IfSome result (λ _. IsStep (turn_step self.old.host.settings self.old.host.host now) self.old self.new) }
        ensures served { self.new.served ≡ self.old.served }
        ensures same { IfNone result (self.new ≡ self.old) }
        ensures steps { self.new.steps ≤ self.old.steps + 1 }
    {
        if !may_begin(&self.host, self.steps, now) {
            return None;
        }
        self.steps += 1;
        self.host.turn(now, &mut self.out);
        Some(())
    }

    /// The host.
    pub fn host(&self) -> &Host
        ensures { result.now ≡ self.now.host }
    {
        &self.host
    }

    /// The frames of its last step.
    pub fn out(&self) -> &Outbox
        ensures { result.now ≡ self.now.out }
    {
        &self.out
    }

    /// The entry of its last step with this number, counted from 0. A packet has its number within the step.
    pub fn entry(&self, i: usize) -> Entry<'_>
        requires i { i < length self.now.host.marks }
        ensures { slice_get (shown_entries self.now.host self.now.out self.now.whole) i ≡ Some (plain result) }
    {
        self.host.entry(i, &self.out, &self.scratch)
    }
}

/// Whether a host, one of so many, has another one of this name.
pub fn is_other(id: HostId, hosts: u32, other: HostId) -> bool
    ensures { IsTrue result ↔ ((other.0 < hosts) × (other ≢ id)) }
{
    u32::from(other.0) < hosts && other != id
}

/// Whether a host that began so many steps may begin one at this tick of its own clock: the clock doesn't fall and isn't past
/// 1,000,000,002,000, and there were fewer than 2^56.
pub fn may_begin(host: &Host, steps: u64, now: u64) -> bool
    ensures { IsTrue result ↔ MayBegin host.now steps now }
{
    now <= LAST_HOST_TICK && host.last() <= now && steps < MOST_STEPS
}
