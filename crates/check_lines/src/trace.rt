// What is kept of the lines of a trace.
ghost use Rattle.std.specs.Prelude.{◌≡◌, ◌+◌, ◌<◌, ◌≤◌, Some, None, length, position, slice_get, unwrap_or, max, IfSome, IfNone, is_some, OnOk};
ghost use Rattle.check_lines.specs.Changes.{SameHosts, SameLists, SameRest, SameSets, Notes, StandsAt, Changes, call_or, noted};
ghost use Rattle.check_lines.specs.Traces.{call_at, host_at, IsPlace, lead_of, life_in, lives_in, own_tick_in, Follows, Keeps};
ghost use Rattle.check_lines.specs.Traces.{asked_of, awaited_of, incoming_of, other};
ghost use Rattle.check_call.specs.Spots as spots;
ghost use Rattle.check_call.specs.Calls.{spot_in};
ghost use Rattle.check_call.specs.Kept.{Beside, StandsFor, is_incoming};
ghost use Rattle.trace_rules.specs.View.{nothing_seen, View};
ghost use Rattle.homa_plain.specs.Calls.{is_call};
ghost use Rattle.homa_plain.specs.declared.id.CallId.{CallId as ACall};
ghost use Rattle.homa_plain.specs.declared.id.HostId.{HostId as AHost};

use crate::block::{Delivery, Here, is_same};
use crate::host::Host;
use check_call::{Call, Lives, OwnTick, Packet, Spot};
use homa_plain::{CallId, HostId, Role, Settings};
use indexmap::IndexSet;
use std::alloc::{AllocError, Global};

/// What is kept of the lines before: the settings, how many lines there were, the clock, hosts by number, calls and
/// packets in the order of their lines, and the block.
#[derive(Drop)]
pub struct Trace {
    pub settings: Settings,
    pub place: u64,
    pub ended: bool,
    pub tick: u64,
    pub hosts: Vec<Host>,
    pub ids: IndexSet<CallId>,
    /// Where the call may stand that was looked up last.
    pub recent: usize,
    pub calls: Vec<Call>,
    pub packets: Vec<Packet>,
    pub here: Here,
    pub delivery: Option<Delivery>,
}

impl Trace {
    /// Before the first line.
    pub fn new(alloc: Global) -> Trace
        ensures { Follows nothing_seen result }
    {
        Trace {
            settings: Settings::usual(),
            place: 0,
            ended: false,
            tick: 0,
            hosts: Vec::new(alloc),
            ids: IndexSet::new(alloc),
            recent: 0,
            calls: Vec::new(alloc),
            packets: Vec::new(alloc),
            here: Here::NONE,
            delivery: None,
        }
    }

    /// Where a call stands, if it was made.
    pub fn find(&self, id: CallId) -> Option<usize>
        ensures some { IfSome result (λ at. (IsPlace self.now id at) × (call_at self.now id ≡ slice_get self.now.calls.items at)) }
        ensures none { IfNone result (call_at self.now id ≡ None) }
        ensures found { is_some result ≡ is_some (call_at self.now id) }
    {
        let at = self.index_of(id)?;
        if at < self.calls.len() {
            Some(at)
        } else {
            None
        }
    }

    // Where a call's id stands. Most look-ups are of the call that was looked up last, so its place is tried first.
    fn index_of(&self, id: CallId) -> Option<usize>
        ensures { result ≡ position (is_call id) self.now.ids.keys }
    {
        match self.ids.as_slice().get(self.recent) {
            Some(there) if is_same(id, *there) => Some(self.recent),
            _ => self.ids.get_index_of(&id),
        }
    }

    /// A call, if it was made.
    pub fn call(&self, id: CallId) -> Option<&Call>
        ensures some { IfSome result (λ call. call_at self.now id ≡ Some call.now) }
        ensures none { IfNone result (call_at self.now id ≡ None) }
    {
        let at = self.find(id)?;
        Some(&self.calls[at])
    }

    /// In which life a host is.
    pub fn life(&self, host: HostId) -> usize
        ensures { result ≡ life_in self.now host }
    {
        match self.hosts.get(host.0 as usize) {
            Some(host) => host.restarts.len(),
            None => 0,
        }
    }

    /// In which lives the client and the server of a call are.
    pub fn lives(&self, id: CallId, server: HostId) -> Lives
        ensures { result ≡ lives_in self.now id server }
    {
        Lives {
            client: self.life(id.client),
            server: self.life(server),
        }
    }

    // By how many ticks a host's own clock is ahead.
    fn lead(&self, host: HostId) -> u32
        ensures { result ≡ unwrap_or (lead_of (host_at self.now host)) self.now.settings.skew }
    {
        match self.hosts.get(host.0 as usize) {
            Some(host) => host.lead.unwrap_or(self.settings.skew),
            None => self.settings.skew,
        }
    }

    /// The tick by a host's own clock.
    pub fn own_tick(&self, host: HostId) -> OwnTick
        ensures { result ≡ own_tick_in self.now host }
    {
        OwnTick {
            tick: self.tick,
            lead: self.lead(host),
        }
    }

    /// Makes room for a host, and for no host behind it.
    pub(crate) fn know(&mut self, alloc: Global, host: HostId) -> Result<(), AllocError>
        ensures known { OnOk result (host.0 < length self.new.hosts.items) }
        ensures grown { OnOk result (length self.new.hosts.items ≡ max (length self.old.hosts.items) (host.0 + 1)) }
        ensures most { length self.new.hosts.items ≤ max (length self.old.hosts.items) (host.0 + 1) }
        ensures hosts { SameHosts self.old self.new }
        ensures lists { SameLists self.old self.new }
        ensures rest { self.new ≡ record self.old { hosts = self.new.hosts } }
    {
        'hosts: while self.hosts.len() <= host.0 as usize {
            self.hosts.push(Host::new(alloc))?;
        }
        Ok(())
    }

    /// What rests on deliveries for the call at a place.
    pub(crate) fn spot(&self, at: usize, id: CallId) -> Spot
        requires { IsPlace self.now id at }
        ensures { IfSome (call_at self.now id) (λ c. result ≡ spot_in c (lives_in self.now id c.server)) }
    {
        let call = &self.calls[at];
        call.spot_in(self.lives(id, call.server))
    }

    /// Keeps what rests on deliveries for a call, and notes at its hosts which of its messages are incoming ones.
    pub(crate) fn keep(
        &mut self,
        alloc: Global,
        at: usize,
        id: CallId,
        spot: Spot,
    ) -> Result<(), AllocError>
        requires { IsPlace self.old id at }
        ensures kept { OnOk result ((v w : View) (f : spots.Spot → spots.Spot) → Keeps v self.old → Changes v w id f
            → StandsAt self.old id spot (f (spots.spot v.now id)) → Keeps w self.new) }
        ensures sets { OnOk result (SameSets self.old self.new) }
        ensures rest { OnOk result (SameRest self.old self.new) }
    {
        let before = self.spot(at, id);
        let server = self.calls[at].server;
        self.put(at, id, spot);
        self.note(alloc, id, server, before, spot)?;
        Ok(())
    }

    // Keeps what rests on deliveries for a call.
    fn put(&mut self, at: usize, id: CallId, spot: Spot)
        requires { IsPlace self.old id at }
        ensures calls { (q : ACall) → call_at self.new q
            ≡ call_or id (λ c. record c { lives = lives_in self.old id c.server; spot = spot }) (call_at self.old) q }
        ensures len { length self.new.calls.items ≡ length self.old.calls.items }
        ensures rest { self.new ≡ record self.old { calls = self.new.calls } }
    {
        let lives = self.lives(id, self.calls[at].server);
        self.calls[at].keep(lives, spot);
    }

    // Notes which messages of a call became incoming ones, or ceased to be.
    fn note(
        &mut self,
        alloc: Global,
        id: CallId,
        server: HostId,
        before: Spot,
        after: Spot,
    ) -> Result<(), AllocError>
        ensures lists { OnOk result ((b c : Beside) (s t : spots.Spot) → StandsFor b before s → StandsFor c after t
            → asked_of (host_at self.old server) id ≡ is_incoming s.request → awaited_of (host_at self.old id.client) id ≡ is_incoming s.response
            → Notes self.old self.new id server (is_incoming t.request) (is_incoming t.response)) }
        ensures hosts { OnOk result (SameHosts self.old self.new) }
        ensures rest { OnOk result (self.new ≡ record self.old { hosts = self.new.hosts }) }
    {
        self.note_incoming(
            alloc,
            Role::Client,
            server,
            id,
            before.is_asked(),
            after.is_asked(),
        )?;
        self.note_incoming(
            alloc,
            Role::Server,
            id.client,
            id,
            before.is_awaited(),
            after.is_awaited(),
        )
    }

    // Notes whether the message that this side of a call sends is an incoming one at a host.
    fn note_incoming(
        &mut self,
        alloc: Global,
        sender: Role,
        host: HostId,
        id: CallId,
        was_in: bool,
        is_in: bool,
    ) -> Result<(), AllocError>
        ensures noted { OnOk result (incoming_of sender (host_at self.old host) id ≡ was_in → (h : AHost) (q : ACall)
            → incoming_of sender (host_at self.new h) q ≡ noted host id is_in (λ h q. incoming_of sender (host_at self.old h) q) h q) }
        ensures other { OnOk result ((h : AHost) (q : ACall)
            → incoming_of (other sender) (host_at self.new h) q ≡ incoming_of (other sender) (host_at self.old h) q) }
        ensures hosts { OnOk result (SameHosts self.old self.new) }
        ensures rest { OnOk result (self.new ≡ record self.old { hosts = self.new.hosts }) }
    {
        if was_in == is_in {
            return Ok(());
        }
        self.know(alloc, host)?;
        self.hosts[host.0 as usize].note(sender, id, is_in)?;
        Ok(())
    }
}
