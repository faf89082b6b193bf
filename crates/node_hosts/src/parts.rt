// The parts of a node's hosts, and what each step does with them.
ghost use Rattle.std.specs.Prelude.{◌≡◌, ◌≢◌, ◌≤◌, ◌<◌, ◌+◌, ◌*◌, ◌^◌, IfOk, IfErr, OnOk, OnErr, Ok, Some, [], ◌∷◌};
ghost use Rattle.std.specs.Prelude.{length, slice_get};
ghost use Rattle.std.specs.List.{AllByRecursion};
ghost use Rattle.homa_plain.specs.declared.event.Event.TheVariants as event;
ghost use Rattle.homa_plain.specs.declared.fault.WorldFault.TheVariants as fault_word;
ghost use Rattle.homa_plain.specs.Entries.{PlainRecv, plain};
ghost use Rattle.homa_plain.specs.World.{World, outcome};
ghost use Rattle.homa_plain.specs.Told.{HasLine};
ghost use Rattle.node_io.specs.Observer.{IsSeen};
ghost use Rattle.host_table.specs.Staged.{frames_of, MaySeat, AreSeated};
ghost use Rattle.node_runs.specs.Course.{arrival_outcome};
ghost use Rattle.homa_plain.specs.Rules.{Answer};
ghost use Rattle.node_turns.specs.Acting.{IsRefused, IsOwn, Asks};
ghost use Rattle.homa_node.specs.Served.{IsFirstIn};
ghost use Rattle.node_hosts.specs.declared.parts.Last.TheVariants as last;
ghost use Rattle.node_hosts.specs.Standing.{IsKept, StandsFor, Steps, StaysKept, told_of};

use homa_plain::{Entry, HostId, LAST_TICK, Settings, StartFault};
use homa_service::Service;
use host_table::{Stage, number_on};
use std::alloc::{AllocError, Global};

/// What the last step was, as far as its entries need it.
#[derive(Clone, Copy)]
pub enum Last {
    /// Nothing is told.
    Nothing,
    /// A host did a step, whose packets have the numbers from `base` on.
    Stepped { host: HostId, base: u64 },
}

/// All hosts of a node, its clock, and how many packets were sent.
#[derive(Drop)]
pub struct NodeParts<S> {
    pub(crate) settings: Settings,
    pub(crate) clock: u64,
    pub(crate) stage: Stage<S>,
    pub(crate) last: Last,
    pub(crate) sent: u64,
    pub(crate) steps: u64,
}

impl<S: Service> NodeParts<S> {
    /// Hosts that have done nothing, each in the incarnation that is given. Service h serves host h, and the others are spare.
    pub fn open_in(
        alloc: Global,
        settings: &Settings,
        incs: &[u32],
        services: Vec<S>,
    ) -> Result<NodeParts<S>, AllocError>
        requires boxes { MaySeat settings.now services.items }
        requires incs { length incs.now ≡ settings.now.hosts }
        requires lives { AllByRecursion (λ inc. 1 ≤ inc) incs.now }
        requires none { AllByRecursion (λ service. S.served service ≡ 0) services.items }
        ensures first { IfOk result (λ n. IsFirstIn settings.now incs.now (StandsFor n)) }
        ensures kept { IfOk result (IsKept S.served) }
        ensures settings { IfOk result (λ n. n.settings ≡ settings.now) }
        ensures clock { IfOk result (λ n. n.clock ≡ 0) }
        ensures steps { IfOk result (λ n. n.steps ≡ 0) }
        ensures seated { IfOk result (λ n. AreSeated settings.now services.items n.stage) }
    {
        Ok(NodeParts {
            settings: *settings,
            clock: 0,
            stage: Stage::open_in(alloc, settings, incs, services)?,
            last: Last::Nothing,
            sent: 0,
            steps: 0,
        })
    }

    /// The clock stands at this tick.
    pub fn stand_at(&mut self, now: u64)
        requires kept { IsKept S.served self.old }
        requires rises { self.old.clock ≤ now }
        requires most { now ≤ LAST_TICK }
        ensures stands { (w : World) → StandsFor self.old w → StandsFor self.new (record w { clock = now }) }
        ensures kept { IsKept S.served self.new }
        ensures same { self.new ≡ record self.old { clock = now } }
    {
        self.clock = now;
    }

    // A step begins, at this tick of each host's own clock. Nothing is told any more of the last one.
    fn begin(&mut self) -> u64
        requires kept { IsKept S.served self.old }
        ensures clock { result ≡ self.new.clock + self.new.settings.skew }
        ensures kept { IsKept S.served self.new }
        ensures same { self.new ≡ record self.old { last = last.Nothing } }
    {
        self.last = Last::Nothing;
        self.clock + u64::from(self.settings.skew)
    }

    // The packets of a host's step were sent.
    fn finish(&mut self, host: HostId)
        requires few { self.old.steps < 2 ^ 57 }
        requires sent { self.old.sent ≤ 64 * self.old.steps }
        ensures same { self.new ≡ record self.old {
          last = last.Stepped host self.old.sent;
          sent = self.old.sent + length (frames_of self.old.stage);
          steps = self.old.steps + 1;
        } }
        ensures few { length (frames_of self.old.stage) ≤ 64 }
    {
        let base = self.sent;
        let frames = self.stage.outbox().len();
        self.sent = base + frames as u64;
        self.last = Last::Stepped { host, base };
        self.steps += 1;
    }

    /// A call of a service, or why it can't start.
    pub fn call(
        &mut self,
        alloc: Global,
        client: HostId,
        server: HostId,
        number: u8,
        bytes: &[u8],
    ) -> Result<Result<(), StartFault>, AllocError>
        requires kept { IsKept S.served self.old }
        requires client { client.0 < self.old.settings.hosts }
        requires server { server.0 < self.old.settings.hosts }
        requires few { self.old.steps < 2 ^ 57 }
        ensures done { result ≡ Ok (Ok tt)
            → Steps S.served S.allows self.old self.new (λ v. outcome self.old.settings v (event.Call client server number) bytes.now) [] }
        ensures fault { IfOk result (λ r. IfErr r (λ fault. (w : World) → StandsFor self.old w
            → IsRefused self.old.settings w (event.Call client server number) bytes.now (fault_word.Start fault))) }
        ensures stays { StaysKept S.served self.old self.new }
    {
        let request = Vec::from_slice(alloc, bytes)?;
        let now = self.begin();
        if let Err(fault) = self.stage.call(client, server, number, request, now) {
            return Ok(Err(fault));
        }
        self.finish(client);
        Ok(Ok(()))
    }

    /// A datagram comes to a host from another one. Memory is wanted only where it asks the host's service.
    pub fn hear(
        &mut self,
        alloc: Global,
        host: HostId,
        from: HostId,
        bytes: &[u8],
    ) -> Result<(), AllocError>
        requires kept { IsKept S.served self.old }
        requires host { host.0 < self.old.settings.hosts }
        requires from { from.0 < self.old.settings.hosts }
        requires other { from ≢ host }
        requires few { self.old.steps < 2 ^ 57 }
        ensures done { OnOk result (Steps S.served S.allows self.old self.new
            (λ v. arrival_outcome self.old.settings v host (record { from = from; bytes = bytes.now })) (PlainRecv host from bytes.now ∷ [])) }
        ensures asks { OnErr result ((w : World) → StandsFor self.old w → (a : Answer)
            → Asks (λ v. arrival_outcome self.old.settings v host (record { from = from; bytes = bytes.now })) w a) }
        ensures stays { StaysKept S.served self.old self.new }
    {
        let now = self.begin();
        // (`?` makes std's error of a `homa_host::Asked`)
        self.stage.deliver(alloc, from, host, bytes, now)?;
        self.finish(host);
        Ok(())
    }

    /// A turn of a host.
    pub fn turn(&mut self, host: HostId)
        requires kept { IsKept S.served self.old }
        requires host { host.0 < self.old.settings.hosts }
        requires few { self.old.steps < 2 ^ 57 }
        ensures done { Steps S.served S.allows self.old self.new (λ v. outcome self.old.settings v (event.Turn host) []) [] }
        ensures stays { StaysKept S.served self.old self.new }
    {
        let now = self.begin();
        self.stage.turn(host, now);
        self.finish(host);
    }

    /// How many entries the last step has.
    pub fn entries(&self) -> usize
        requires kept { IsKept S.served self.now }
        ensures { result ≡ length (told_of self.now) }
    {
        match self.last {
            Last::Nothing => 0,
            Last::Stepped { host, .. } => self.stage.entries(host),
        }
    }

    /// The entry of the last step with this number, counted from 0.
    pub fn entry(&self, i: usize) -> Entry<'_>
        requires kept { IsKept S.served self.now }
        requires i { i < length (told_of self.now) }
        ensures entry { slice_get (told_of self.now) i ≡ Some (plain result) }
        ensures line { HasLine (plain result) }
        ensures seen { IsSeen (plain result) }
        ensures own { IsOwn (plain result) }
    {
        match self.last {
            Last::Nothing => unreachable!(),
            Last::Stepped { host, base } => {
                let mut entry = self.stage.entry(host, i);
                number_on(base, &mut entry);
                entry
            }
        }
    }
}
