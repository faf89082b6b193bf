// One host.
// Rules: which of Homa's rules a call, a packet and a turn carry out: timers, then GRANTs, then DATA in SRPT order
// within the credit.
ghost use Rattle.std.specs.Prelude.{◌≡◌, ◌≢◌, ℕ, ◌+◌, ◌<◌, ◌≤◌, ◌^◌, true, Some, None, [], List, length, IfOk, IfErr, OnOk, OnErr, IsSome, slice_get};
ghost use Rattle.std.specs.Prelude.{if◌then◌else◌};
ghost use Rattle.std.specs.List.{AllByRecursion};
ghost use Rattle.plain_sets.specs.Maps.{empty, len};
ghost use Rattle.homa_plain.specs.declared.settings.Settings.{Settings};
ghost use Rattle.homa_plain.specs.Settings.{IsValid};
ghost use Rattle.homa_plain.specs.Wire.{Between, packet_in};
ghost use Rattle.host_view.specs.declared.outbox.SentFrame.{SentFrame};
ghost use Rattle.homa_plain.specs.Entries.{plain};
ghost use Rattle.homa_plain.specs.Host.{new_host};
ghost use Rattle.homa_plain.specs.Rules.{Answer};
ghost use Rattle.homa_plain.specs.Steps.{start_fault, next_id, call_step, arrival_step, turn_step, has_run};
ghost use Rattle.host_view.specs.Seen.{AreArmed, AreEntered, AreReady};
ghost use Rattle.host_view.specs.Frames.{frame_line};
ghost use Rattle.host_view.specs.Marks.{request_of, response_of, shown, shown_entries, has_ran, IsAnswer, IsAllowed};
ghost use Rattle.host_view.specs.Done.{IsDone, HoldsSent, arriving};
ghost use Rattle.homa_host.specs.Asking.{HasAsked};
ghost use Rattle.homa_host.specs.Lending.{CanCome, IsSame, IsServed, IsRefused};
ghost use Rattle.homa_host.specs.Public.{IsSameHost, IsHeld};

use crate::Asked;
use crate::lent::Lent;
use crate::parts::HostParts;
use homa_grants::GrantBook;
use homa_pacer::Pacer;
use homa_plain::{CallId, Entry, HostId, LAST_HOST_TICK, Role, Settings, StartFault};
use homa_service::Service;
use homa_timers::Timers;
use homa_wire::decode;
use host_view::{Mark, Outbox};
use msg_pool::Scratch;
use std::alloc::{AllocError, Global};
use std::marker::Model;

/// One host of Homa.
#[derive(Drop)]
pub struct Host {
    parts: HostParts,
}

impl Model for Host {
    ghost use Rattle.host_view.specs.Seen.{Seen};
    ghost use Rattle.homa_host.specs.Parts.{seen_of, IsKept};

    ghost Value = { Seen };

    ghost view = { λ h. seen_of h.parts };

    ghost invariant = { λ h. IsKept h.parts };
}

impl Host {
    /// A host without calls, in this incarnation. Only this takes memory.
    pub fn open(
        alloc: Global,
        id: HostId,
        inc: u32,
        settings: &Settings,
    ) -> Result<Host, AllocError>
        requires valid { IsValid settings.now }
        requires id { id.0 < settings.now.hosts }
        requires inc { 1 ≤ inc }
        ensures { IfOk result (λ h. h ≡ record {
          settings = settings.now;
          host = new_host settings.now id inc 0;
          client_places = empty;
          server_places = empty;
          marks = [];
        }) }
    {
        Host::open_at(alloc, id, inc, 0, settings)
    }

    /// The same, of a host whose own clock stood at `last` at its last step in an earlier life.
    pub fn open_at(
        alloc: Global,
        id: HostId,
        inc: u32,
        last: u64,
        settings: &Settings,
    ) -> Result<Host, AllocError>
        requires valid { IsValid settings.now }
        requires id { id.0 < settings.now.hosts }
        requires inc { 1 ≤ inc }
        requires last { last ≤ LAST_HOST_TICK }
        ensures { IfOk result (λ h. h ≡ record {
          settings = settings.now;
          host = new_host settings.now id inc last;
          client_places = empty;
          server_places = empty;
          marks = [];
        }) }
    {
        Ok(Host {
            parts: HostParts::open(alloc, id, inc, last, settings)?,
        })
    }

    /// Calls service `number` of another host, at tick `now` of the host's own clock. Where the call can't start, the
    /// request is given back, nothing is told or sent, and the host is as before.
    #[tactic(none)]
    pub fn call(
        &mut self,
        server: HostId,
        number: u8,
        request: Vec<u8>,
        now: u64,
        out: &mut Outbox,
    ) -> Result<CallId, (StartFault, Vec<u8>)>
        requires server { server.0 < self.old.settings.hosts }
        requires now { now ≤ LAST_HOST_TICK }
        requires later { self.old.host.last ≤ now }
        requires order { self.old.host.order < 2 ^ 63 }
        ensures step { OnOk result ((whole : List ℕ)
            → IsDone self.old (call_step self.old.settings self.old.host now server number request.items) self.new out.new whole) }
        ensures no_fault { OnOk result (start_fault self.old.settings self.old.host server request.items ≡ None) }
        ensures id { IfOk result (λ id. id ≡ next_id self.old.host) }
        ensures fault { IfErr result (λ e. start_fault self.old.settings self.old.host server request.items ≡ Some e.0) }
        ensures back { IfErr result (λ e. e.1 ≡ request) }
        ensures same { OnErr result (self.new ≡ record self.old { marks = [] }) }
        ensures none { OnErr result (out.new ≡ []) }
        ensures steady { IsSameHost self.old self.new }
        ensures last { OnOk result (self.new.host.last ≡ now) }
    {
        out.clear();
        match self.parts.start(server, number, request, now) {
            Ok(id) => {
                self.parts.end_step(out);
                Ok(id)
            }
            Err(refused) => {
                self.parts.control.tell_nothing();
                Err(refused)
            }
        }
    }

    /// A datagram comes from a host, at tick `now` of this host's own clock. Where its service finds no memory for a
    /// request that the datagram makes whole, the answer is the call and the service, `scratch` holds the request, nothing
    /// is told or sent, and the host is as before.
    pub fn deliver<V: Service>(
        &mut self,
        alloc: Global,
        from: HostId,
        frame: &[u8],
        now: u64,
        service: &mut V,
        out: &mut Outbox,
        scratch: &mut Scratch,
    ) -> Result<(), Asked>
        requires from { from.0 < self.old.settings.hosts }
        requires other { from ≢ self.old.host.id }
        requires now { now ≤ LAST_HOST_TICK }
        requires later { self.old.host.last ≤ now }
        requires order { self.old.host.order < 2 ^ 63 }
        requires served { V.served service.old < 2 ^ 63 }
        ensures step { OnOk result ((a : Answer) → IsAnswer self.new a
            → IsDone self.old (arrival_step self.old.settings self.old.host now (arriving self.old from frame.now) a) self.new out.new scratch.new) }
        ensures served { OnOk result (V.served service.new ≡ (if has_ran self.new.marks then V.served service.old + 1 else V.served service.old)) }
        ensures answered { OnOk result ((a : Answer) × IsAnswer self.new a) }
        ensures allowed { OnOk result (AllByRecursion (IsAllowed self.new.host (V.allows service.old (V.served service.old)) scratch.new) self.new.marks) }
        ensures asks { IfErr result (λ e. (a : Answer)
            → HasAsked e.id e.number scratch.new (arrival_step self.old.settings self.old.host now (arriving self.old from frame.now) a).told) }
        ensures whole { OnErr result ((a : Answer)
            → has_run (arrival_step self.old.settings self.old.host now (arriving self.old from frame.now) a).told ≡ true) }
        ensures same { OnErr result (self.new ≡ record self.old { marks = [] }) }
        ensures none { OnErr result (out.new ≡ []) }
        ensures not_served { OnErr result (V.served service.new ≡ V.served service.old) }
        ensures allows_before { (count number hold : ℕ) (q r : List ℕ) → V.allows service.new count number q r hold
            → V.allows service.old count number q r hold }
        ensures steady { IsSameHost self.old self.new }
        ensures last { OnOk result (self.new.host.last ≡ now) }
    {
        out.clear();
        let mut lent = Lent {
            service,
            out,
            scratch,
        };
        self.arrives(alloc, from, frame, now, &mut lent)
    }

    // The same, with what is lent, where nothing was sent yet.
    #[tactic(none)]
    fn arrives<V: Service>(
        &mut self,
        alloc: Global,
        from: HostId,
        frame: &[u8],
        now: u64,
        lent: &mut Lent<'_, V>,
    ) -> Result<(), Asked>
        requires { CanCome V.served self.old from now lent.old }
        ensures step { OnOk result ((a : Answer) → IsAnswer self.new a
            → IsDone self.old (arrival_step self.old.settings self.old.host now (arriving self.old from frame.now) a) self.new
            lent.new.out.now lent.new.scratch.now) }
        ensures served { OnOk result (IsServed V.served V.allows lent.old lent.new self.new.host self.new.marks) }
        ensures asks { IfErr result (λ e. (a : Answer) → HasAsked e.id e.number lent.new.scratch.now
            (arrival_step self.old.settings self.old.host now (arriving self.old from frame.now) a).told) }
        ensures whole { OnErr result ((a : Answer)
            → has_run (arrival_step self.old.settings self.old.host now (arriving self.old from frame.now) a).told ≡ true) }
        ensures same { OnErr result (self.new ≡ record self.old { marks = [] }) }
        ensures refused { OnErr result (IsRefused V.served lent.old lent.new) }
        ensures steady { IsSameHost self.old self.new }
        ensures last { OnOk result (self.new.host.last ≡ now) }
        ensures lent { IsSame V.allows lent.old lent.new }
    {
        match self.parts.arrives(alloc, from, frame, now, lent) {
            Ok(()) => {
                self.parts.end_step(lent.out);
                Ok(())
            }
            Err(asked) => {
                self.parts.control.tell_nothing();
                Err(asked)
            }
        }
    }

    /// A turn at tick `now` of the host's own clock: the credit is filled up where a tick has begun, the rows that are due
    /// act, messages are granted to, and packets go out.
    #[tactic(none)]
    pub fn turn(&mut self, now: u64, out: &mut Outbox)
        requires now { now ≤ LAST_HOST_TICK }
        requires later { self.old.host.last ≤ now }
        requires order { self.old.host.order < 2 ^ 63 }
        ensures step { (whole : List ℕ) → IsDone self.old (turn_step self.old.settings self.old.host now) self.new out.new whole }
        ensures steady { IsSameHost self.old self.new }
        ensures last { self.new.host.last ≡ now }
    {
        out.clear();
        self.parts.control.begin(now);
        self.parts.books.pacer.refill(now);
        self.parts.act_all(out);
        self.parts.end_step(out);
    }

    /// How many entries the last step has.
    pub fn entries(&self) -> usize
        ensures told { result ≡ length self.now.marks }
        ensures few { result ≤ 128 }
    {
        // For the proof: a step tells at most 128 entries.
        let _few = self.parts.control.settings();
        self.parts.control.marks().len()
    }

    /// The marks of the last step's entries, in order: what is known of them without their bytes.
    pub fn marks(&self) -> &[Mark]
        ensures { result.now ≡ self.now.marks }
    {
        self.parts.control.marks()
    }

    /// The mark of the last step's entry with this number, counted from 0.
    pub fn mark(&self, i: usize) -> &Mark
        requires { i < length self.now.marks }
        ensures { slice_get self.now.marks i ≡ Some result.now }
    {
        &self.parts.control.marks()[i]
    }

    /// The entry of the last step with this number, counted from 0. A packet has its number within the step.
    pub fn entry<'a>(&'a self, i: usize, out: &'a Outbox, scratch: &'a Scratch) -> Entry<'a>
        requires i { i < length self.now.marks }
        requires sent { HoldsSent self.now out.now }
        ensures { slice_get (shown_entries self.now out.now scratch.now) i ≡ Some (plain result) }
    {
        self.entry_of(self.parts.control.marks()[i], out, scratch)
    }

    // The entry of a mark.
    fn entry_of<'a>(&'a self, mark: Mark, out: &'a Outbox, scratch: &'a Scratch) -> Entry<'a>
        requires { IsHeld self.now out.now mark }
        ensures { plain result ≡ shown self.now out.now scratch.now mark }
    {
        let host = self.parts.control.id();
        match mark {
            Mark::Called {
                id,
                server,
                service,
            } => Entry::Call {
                id,
                server,
                service,
                bytes: self.request(id),
            },
            Mark::Junk => Entry::Junk { host },
            Mark::Stale { at } => Entry::Stale {
                host,
                at,
                now: self.parts.control.last(),
            },
            Mark::Balanced { cutoffs } => Entry::Balance { host, cutoffs },
            Mark::Ran { id, service, hold } => Entry::Run {
                host,
                id,
                service,
                request: scratch.bytes(),
                response: self.response(id),
                hold,
            },
            Mark::Done { id } => Entry::Done {
                id,
                bytes: scratch.bytes(),
            },
            Mark::Failed { id, why } => Entry::Fail { id, why },
            Mark::Dropped { id } => Entry::Drop { host, id },
            Mark::TooManyGaps { id } => Entry::Gaps { host, id },
            Mark::Entombed { id, until } => Entry::Bury { host, id, until },
            Mark::Freed { id } => Entry::Free { host, id },
            Mark::NoRow { id, rows, limit } => Entry::FullRows {
                host,
                id,
                rows,
                limit,
            },
            Mark::NoPages { id, need, free } => Entry::FullPages {
                host,
                id,
                need,
                free,
            },
            Mark::Sent { number } => sent_entry(number, out, self.parts.control.settings().wire),
        }
    }

    // The request of a call that the host made, if it is live.
    fn request(&self, id: CallId) -> &[u8]
        ensures { result.now ≡ request_of self.now.host id }
    {
        match self.parts.clients.find(id) {
            Some(slot) => self.parts.clients.request(slot),
            None => &[],
        }
    }

    // The response of a call that the host serves, if the row has it.
    fn response(&self, id: CallId) -> &[u8]
        ensures { result.now ≡ response_of self.now.host id }
    {
        match self.parts.servers.response(id) {
            Some(response) => response,
            None => &[],
        }
    }

    /// The host's incarnation, at least 1.
    pub fn incarnation(&self) -> u32
        ensures { result ≡ self.now.host.inc }
    {
        self.parts.control.incarnation()
    }

    /// The host's own clock at its last step; before the first, what it was opened with, 0 by `open`.
    pub fn last(&self) -> u64
        ensures { result ≡ self.now.host.last }
    {
        self.parts.control.last()
    }

    /// How many calls of the host are live.
    pub fn live(&self) -> u32
        ensures { result ≡ len self.now.host.clients }
    {
        self.parts.clients.live()
    }

    /// How many calls the host serves, tombstones among them: at most `served` of the settings.
    pub fn served(&self) -> u32
        ensures { result ≡ len self.now.host.servers }
    {
        self.parts.servers.rows()
    }

    /// The timers: exactly those of the rows that have a deadline.
    pub fn timers(&self) -> &Timers
        ensures { AreArmed self.now result.now.timers }
    {
        &self.parts.books.timers
    }

    /// The incoming messages: exactly those that aren't whole.
    pub fn grants(&self) -> &GrantBook
        ensures { AreEntered self.now result.now.entries }
    {
        &self.parts.books.grants
    }

    /// The messages that may be sent: all that may be sent at the host's last step, and only those of which bytes wait.
    pub fn pacer(&self) -> &Pacer
        ensures { AreReady self.now result.now.ready }
    {
        &self.parts.books.pacer
    }
}

// The entry of a packet that was sent.
fn sent_entry(number: u32, out: &Outbox, wire: u32) -> Entry<'_>
    requires wire { Between 1 2 wire }
    requires frame { (f : SentFrame) × (slice_get out.now number ≡ Some f) × IsSome (packet_in wire f.frame) }
    ensures { (s : Settings) → s.wire ≡ wire → plain result ≡ frame_line s out.now number }
{
    let i = number as usize;
    let bytes = out.bytes(i);
    let Some((packet, span)) = decode(bytes, wire) else {
        unreachable!()
    };
    let (from, to) = (out.sender(i), out.receiver(i));
    let client = match packet.role {
        Role::Client => from,
        Role::Server => to,
    };
    Entry::Send {
        number: u64::from(number),
        from,
        to,
        inc: packet.sender,
        role: packet.role,
        id: packet.call(client),
        level: packet.level,
        body: packet.body,
        payload: &bytes[span.from..span.to],
    }
}
