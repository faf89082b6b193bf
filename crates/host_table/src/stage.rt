// The hosts and their services, with the room that a step needs.
ghost use Rattle.std.specs.Prelude.{◌≡◌, ◌≢◌, ◌<◌, ◌≤◌, ◌^◌, ◌↔◌, true, IsTrue, IsSome, IfSome, IfOk, IfErr, OnOk, OnErr, Some};
ghost use Rattle.std.specs.Prelude.{map, length, slice_get};
ghost use Rattle.std.specs.List.{AllByRecursion};
ghost use Rattle.homa_plain.specs.Settings.{IsValid};
ghost use Rattle.homa_plain.specs.Host.{new_host};
ghost use Rattle.homa_plain.specs.Rules.{Answer};
ghost use Rattle.homa_plain.specs.Steps.{start_fault, call_step, arrival_step, turn_step, has_run};
ghost use Rattle.host_view.specs.Done.{arriving};
ghost use Rattle.homa_plain.specs.Entries.{plain};
ghost use Rattle.homa_service.specs.Table.{place_of};
ghost use Rattle.homa_plain.specs.Told.{HasLine};
ghost use Rattle.homa_host.specs.Asking.{HasAsked};
ghost use Rattle.host_table.specs.Left.{entries_of, HasLeft, IsFew};
ghost use Rattle.host_table.specs.Staged.{hosts_of, frames_of, known, known_of, known_in, first_known, known_first, whole_of, seats_of, spares_of};
ghost use Rattle.host_table.specs.Staged.{MaySeat, AreSeated, MayStep, HasStepped, HasCome, HasNotCome};
ghost use Rattle.host_table.specs.Restarted.{HasRestarted, HasNoSpare};

use homa_host::{Asked, Host};
use homa_plain::{Entry, HostId, LAST_HOST_TICK, Settings, StartFault, WorldFault};
use homa_service::{Service, ServiceTable};
use host_view::{Mark, Outbox};
use msg_pool::Scratch;
use std::alloc::{AllocError, Global};

/// Hosts in order, each with its service, and what the last step of one of them left: frames, and a message that became whole.
#[derive(Drop)]
pub struct Stage<S> {
    hosts: Vec<Host>,
    services: ServiceTable<S>,
    outbox: Outbox,
    scratch: Scratch,
}

impl<S: Service> Stage<S> {
    /// Hosts of which each is in its first life and has done nothing. Service h serves host h, and the others are spare.
    pub fn open(
        alloc: Global,
        settings: &Settings,
        services: Vec<S>,
    ) -> Result<Stage<S>, AllocError>
        requires boxes { MaySeat settings.now services.items }
        ensures known { IfOk result (λ stage. known_of stage ≡ first_known settings.now settings.now.hosts) }
        ensures seated { IfOk result (AreSeated settings.now services.items) }
    {
        let incs = vec![in alloc; 1u32; settings.hosts as usize]?;
        Stage::open_in(alloc, settings, &incs, services)
    }

    /// Hosts that have done nothing, each in the incarnation that is given. Service h serves host h, and the others are spare.
    pub fn open_in(
        alloc: Global,
        settings: &Settings,
        incs: &[u32],
        services: Vec<S>,
    ) -> Result<Stage<S>, AllocError>
        requires boxes { MaySeat settings.now services.items }
        requires incs { length incs.now ≡ settings.now.hosts }
        requires lives { AllByRecursion (λ inc. 1 ≤ inc) incs.now }
        ensures known { IfOk result (λ stage. known_of stage ≡ known_first settings.now incs.now) }
        ensures seated { IfOk result (AreSeated settings.now services.items) }
    {
        Ok(Stage {
            hosts: first_hosts(alloc, settings, incs)?,
            services: ServiceTable::open(alloc, services, settings.hosts)?,
            outbox: Outbox::new(alloc)?,
            scratch: Scratch::new(alloc)?,
        })
    }

    /// Whether there is such a host.
    pub fn has(&self, host: HostId) -> bool
        ensures { IsTrue result ↔ (host.0 < length (hosts_of self.now)) }
    {
        (host.0 as usize) < self.hosts.len()
    }

    /// A host.
    pub fn host(&self, host: HostId) -> &Host
        requires { host.0 < length (hosts_of self.now) }
        ensures { slice_get (hosts_of self.now) host.0 ≡ Some result.now }
    {
        &self.hosts[host.0 as usize]
    }

    /// The frames of the last step.
    pub fn outbox(&self) -> &Outbox
        ensures { result.now ≡ frames_of self.now }
    {
        &self.outbox
    }

    /// A call of a service, at tick `now` of the client's own clock; or why it can't start: nothing happens then, and the
    /// request is dropped.
    pub fn call(
        &mut self,
        client: HostId,
        server: HostId,
        number: u8,
        request: Vec<u8>,
        now: u64,
    ) -> Result<(), StartFault>
        requires client { client.0 < length (hosts_of self.old) }
        requires server { IfSome (slice_get (hosts_of self.old) client.0) (λ h. server.0 < h.settings.hosts) }
        requires may { IfSome (slice_get (hosts_of self.old) client.0) (MayStep now) }
        requires now { now ≤ LAST_HOST_TICK }
        ensures step { OnOk result (IfSome (slice_get (hosts_of self.old) client.0)
            (λ h. HasStepped now client h (call_step h.settings h.host now server number request.items) self.old self.new)) }
        ensures no_fault { OnOk result (IfSome (slice_get (hosts_of self.old) client.0) (λ h. start_fault h.settings h.host server request.items ≡ None)) }
        ensures fault { IfErr result (λ e. IfSome (slice_get (hosts_of self.old) client.0) (λ h. start_fault h.settings h.host server request.items ≡ Some e)) }
        ensures known { OnErr result (known_of self.new ≡ known_of self.old) }
        ensures seats { seats_of self.new ≡ seats_of self.old }
        ensures spares { spares_of self.new ≡ spares_of self.old }
    {
        let host = &mut self.hosts[client.0 as usize];
        if let Err((fault, _)) = host.call(server, number, request, now, &mut self.outbox) {
            return Err(fault);
        }
        Ok(())
    }

    /// A datagram comes to a host from another one, at tick `now` of its own clock. Where its service finds no memory for a
    /// request that the datagram makes whole, the answer is the call and the service, and nothing happens.
    pub fn deliver(
        &mut self,
        alloc: Global,
        from: HostId,
        to: HostId,
        frame: &[u8],
        now: u64,
    ) -> Result<(), Asked>
        requires to { to.0 < length (hosts_of self.old) }
        requires from { IfSome (slice_get (hosts_of self.old) to.0) (λ h. from.0 < h.settings.hosts) }
        requires other { IfSome (slice_get (hosts_of self.old) to.0) (λ h. from ≢ h.host.id) }
        requires may { IfSome (slice_get (hosts_of self.old) to.0) (MayStep now) }
        requires now { now ≤ LAST_HOST_TICK }
        requires seat { IsSome (place_of (seats_of self.old) to.0) }
        requires served { IfSome (place_of (seats_of self.old) to.0) (λ service. S.served service < 2 ^ 63) }
        ensures step { OnOk result (IfSome (slice_get (hosts_of self.old) to.0) (λ h.
            HasCome S.served S.allows now to h (arriving h from frame.now) self.old self.new)) }
        ensures asks { IfErr result (λ e. IfSome (slice_get (hosts_of self.old) to.0) (λ h. (a : Answer)
            → HasAsked e.id e.number (whole_of self.new) (arrival_step h.settings h.host now (arriving h from frame.now) a).told)) }
        ensures whole { OnErr result (IfSome (slice_get (hosts_of self.old) to.0) (λ h. (a : Answer)
            → has_run (arrival_step h.settings h.host now (arriving h from frame.now) a).told ≡ true)) }
        ensures none { OnErr result (HasNotCome S.served S.allows to self.old self.new) }
    {
        let mut service = self.services.take(to);
        let came = self.hosts[to.0 as usize].deliver(
            alloc,
            from,
            frame,
            now,
            &mut service,
            &mut self.outbox,
            &mut self.scratch,
        );
        self.services.put_back(to, service);
        came
    }

    /// A turn of a host, at tick `now` of its own clock.
    pub fn turn(&mut self, host: HostId, now: u64)
        requires host { host.0 < length (hosts_of self.old) }
        requires may { IfSome (slice_get (hosts_of self.old) host.0) (MayStep now) }
        requires now { now ≤ LAST_HOST_TICK }
        ensures step { IfSome (slice_get (hosts_of self.old) host.0) (λ h. HasStepped now host h (turn_step h.settings h.host now) self.old self.new) }
        ensures seats { seats_of self.new ≡ seats_of self.old }
        ensures spares { spares_of self.new ≡ spares_of self.old }
    {
        self.hosts[host.0 as usize].turn(now, &mut self.outbox);
    }

    /// Another host takes the place of this one: of this incarnation, whose own clock stood at `last` at its last step, with
    /// the last spare service. Where there is no spare service, or no memory, nothing happens.
    pub fn restart(
        &mut self,
        alloc: Global,
        host: HostId,
        inc: u32,
        last: u64,
        settings: &Settings,
    ) -> Result<(), WorldFault>
        requires host { host.0 < length (hosts_of self.old) }
        requires inside { host.0 < settings.now.hosts }
        requires valid { IsValid settings.now }
        requires inc { 1 ≤ inc }
        requires last { last ≤ LAST_HOST_TICK }
        requires seat { IsSome (place_of (seats_of self.old) host.0) }
        ensures done { OnOk result (HasRestarted host (known_in settings.now (new_host settings.now host inc last)) self.old self.new) }
        ensures fault { IfErr result (HasNoSpare self.old) }
        ensures known { OnErr result (known_of self.new ≡ known_of self.old) }
        ensures seats { OnErr result (seats_of self.new ≡ seats_of self.old) }
        ensures spares { OnErr result (spares_of self.new ≡ spares_of self.old) }
    {
        let Ok(fresh) = Host::open_at(alloc, host, inc, last, settings) else {
            return Err(WorldFault::NoMemory);
        };
        if self.services.replace(host).is_err() {
            return Err(WorldFault::NoSpare);
        }
        self.hosts[host.0 as usize] = fresh;
        Ok(())
    }

    /// How many entries the last step of a host has.
    pub fn entries(&self, host: HostId) -> usize
        requires { host.0 < length (hosts_of self.now) }
        ensures told { result ≡ length (entries_of self.now (slice_get (hosts_of self.now) host.0)) }
        ensures few { result ≤ 128 }
    {
        self.hosts[host.0 as usize].entries()
    }

    /// The marks of the entries of a host's last step, in order.
    pub fn marks(&self, host: HostId) -> &[Mark]
        requires { host.0 < length (hosts_of self.now) }
        ensures { IfSome (slice_get (hosts_of self.now) host.0) (λ h. result.now ≡ h.marks) }
    {
        self.hosts[host.0 as usize].marks()
    }

    /// The entry of a host's last step with this number, counted from 0.
    pub fn entry(&self, host: HostId, i: usize) -> Entry<'_>
        requires host { host.0 < length (hosts_of self.now) }
        requires i { i < length (entries_of self.now (slice_get (hosts_of self.now) host.0)) }
        requires sent { HasLeft self.now (slice_get (hosts_of self.now) host.0) }
        ensures entry { slice_get (entries_of self.now (slice_get (hosts_of self.now) host.0)) i ≡ Some (plain result) }
        ensures line { HasLine (plain result) }
        ensures few { IsFew (plain result) }
    {
        self.hosts[host.0 as usize].entry(i, &self.outbox, &self.scratch)
    }
}

// Hosts in their order that have done nothing, each in the incarnation that is given.
fn first_hosts(alloc: Global, settings: &Settings, incs: &[u32]) -> Result<Vec<Host>, AllocError>
    requires valid { IsValid settings.now }
    requires incs { length incs.now ≡ settings.now.hosts }
    requires lives { AllByRecursion (λ inc. 1 ≤ inc) incs.now }
    ensures { IfOk result (λ hosts. map known hosts.items ≡ known_first settings.now incs.now) }
{
    let mut hosts = Vec::with_capacity(alloc, incs.len())?;
    for id in 0..incs.len() {
        hosts.push(Host::open(alloc, HostId(id as u16), incs[id], settings)?)?;
    }
    Ok(hosts)
}
