// A host whose requests its caller answers.
ghost use Rattle.std.specs.Prelude.{ℕ, ◌≡◌, ◌≢◌, ◌<◌, ◌≤◌, ◌+◌, ◌⊎◌, Some, None, true, false, [], length, slice_get, IfOk, IfErr, IfSome, IfNone};
ghost use Rattle.std.specs.List.{AllByRecursion};
ghost use Rattle.std.specs.Option.{option_map};
ghost use Rattle.plain_sets.specs.Ordered.{first_of};
ghost use Rattle.homa_plain.specs.Settings.{IsValid};
ghost use Rattle.homa_plain.specs.Entries.{plain};
ghost use Rattle.homa_plain.specs.Rules.{Answer};
ghost use Rattle.homa_plain.specs.Steps.{next_id, has_run, call_step, arrival_step, turn_step};
ghost use Rattle.host_view.specs.Marks.{shown_entries, IsAllowed};
ghost use Rattle.host_view.specs.Done.{arriving};
ghost use Rattle.homa_host.specs.declared.asked.Asked.{Asked};
ghost use Rattle.homa_host.specs.Asking.{HasAsked};
ghost use Rattle.driven_host.specs.Counts.{counted, with_received, with_asked};
ghost use Rattle.driven_host.specs.declared.faults.StepFault.{StepFault};
ghost use Rattle.driven_host.specs.declared.faults.StepFault.TheVariants.{Spent};
ghost use Rattle.driven_host.specs.Driven.{IsStep, IsStill, ShowsNothing, IsOther, MayBegin};
ghost use Rattle.driven_host.specs.declared.asking.Came.TheVariants.{Taken, Asks, NoMemory, Refused};
ghost use Rattle.driven_host.specs.Asking.{opened, refusal, MayCall, is_whole, has_whole, IsGiven};
ghost use Rattle.driven_host.specs.Faults.{peer_fault, begin_fault, request_fault, call_fault, delivery_fault};
ghost use Rattle.driven_host.specs.Turns.{in_time, IsIdleTurn, MayAct};

use crate::counts::HostCounts;
use crate::driven::is_other;
use crate::faults::{StepFault, begin_fault, length_fault};
use crate::given::Given;
use homa_host::{Asked, Host};
use homa_plain::{CallId, Entry, HostId, LAST_HOST_TICK, LONGEST_MESSAGE, Settings};
use homa_timers::Timers;
use host_heap::first;
use host_view::{Mark, Outbox};
use msg_pool::Scratch;
use std::alloc::{AllocError, Global};
use std::marker::Model;

/// What came of a datagram.
#[derive(Clone, Copy, Debug, PartialEq, Eq)]
pub enum Came {
    /// The host took its step.
    Taken,
    /// It makes the request of this call whole, and no answer is in hand. Nothing happened.
    Asks(Asked),
    /// It makes a request whole, and there is no memory for the answer. Nothing happened.
    NoMemory,
    /// No step begins, for this cause. Nothing happened.
    Refused(StepFault),
}

/// A host with all that a step of it is lent: room for its frames and for a whole message.
#[derive(Drop)]
pub struct AskingHost {
    host: Host,
    served: u64,
    out: Outbox,
    scratch: Scratch,
    id: HostId,
    // How many hosts there are.
    hosts: u32,
    // How many calls may be live.
    calls: u32,
    // How many pages there are for messages that arrive.
    pages: u32,
    // How many steps were begun.
    steps: u64,
    // Who sent the datagram of the last step. None behind a call or a turn.
    from: Option<HostId>,
    counts: HostCounts,
}

impl Model for AskingHost {
    ghost use Rattle.driven_host.specs.Driven.{Driven};
    ghost use Rattle.driven_host.specs.Asking.{IsKept};

    ghost Value = { Driven };

    ghost view = { λ d. record { host = d.host; served = d.served; steps = d.steps; out = d.out; whole = d.scratch; from = d.from; counts = d.counts } };

    ghost invariant = { λ d. IsKept d.host d.served d.out d.id d.hosts d.calls d.pages d.steps };
}

impl AskingHost {
    /// A host without calls, in this incarnation. At its last step in an earlier one its own clock stood at `last`. Only this
    /// takes memory that is kept, but for messages. It fails by want of memory alone.
    pub fn open(
        alloc: Global,
        id: HostId,
        inc: u32,
        last: u64,
        settings: &Settings,
    ) -> Result<AskingHost, AllocError>
        requires valid { IsValid settings.now }
        requires id { id.0 < settings.now.hosts }
        requires inc { 1 ≤ inc }
        requires last { last ≤ LAST_HOST_TICK }
        ensures { IfOk result (λ d. d ≡ opened settings.now id inc last) }
    {
        let out = Outbox::new(alloc)?;
        let scratch = Scratch::new(alloc)?;
        Ok(AskingHost {
            host: Host::open_at(alloc, id, inc, last, settings)?,
            served: 0,
            out,
            scratch,
            id,
            hosts: settings.hosts,
            calls: settings.calls,
            pages: settings.pages,
            steps: 0,
            from: None,
            counts: HostCounts::none(),
        })
    }

    // Says why no step that has to do with this host begins at this tick. None if one may.
    fn peer_fault(&self, peer: HostId, now: u64) -> Option<StepFault>
        ensures fault { result ≡ peer_fault self.now.host self.now.steps peer now }
        ensures begins { IfNone result (MayBegin self.now.host self.now.steps now) }
        ensures other { IfNone result (IsOther self.now.host peer) }
    {
        if !is_other(self.id, self.hosts, peer) {
            return Some(StepFault::NoHost);
        }
        begin_fault(&self.host, self.steps, now)
    }

    /// Says why a call of a service of this host, with a request of so many bytes, isn't even tried at tick `now` of the
    /// host's own clock. If there is no cause, it can be made unless each number of this incarnation was used.
    pub fn request_fault(&self, server: HostId, bytes: usize, now: u64) -> Option<StepFault>
        ensures fault { result ≡ request_fault self.now.host self.now.steps server bytes now }
        ensures may_call { IfNone result (MayCall self.now.host self.now.steps server bytes now) }
    {
        if let Some(fault) = self.peer_fault(server, now) {
            return Some(fault);
        }
        if bytes == 0 {
            return Some(StepFault::Empty);
        }
        if let Some(fault) = length_fault(bytes, self.pages) {
            return Some(fault);
        }
        if self.calls <= self.host.live() {
            return Some(StepFault::CallsFull);
        }
        None
    }

    /// Calls a service of another host, at tick `now` of the host's own clock, up to 1,000,000,002,000. If the call can't
    /// be made, the answer says why. Then the request is dropped, and the host stays as it was. Either the last step is
    /// shown on, or nothing.
    pub fn call(
        &mut self,
        server: HostId,
        number: u8,
        request: Vec<u8>,
        now: u64,
    ) -> Result<CallId, StepFault>
        ensures fault { IfErr result (λ f. call_fault self.old.host self.old.steps server (length request.items) now ≡ Some f) }
        ensures no_fault { IfOk result (λ _. call_fault self.old.host self.old.steps server (length request.items) now ≡ None) }
        ensures id { IfOk result (λ id. id ≡ next_id self.old.host.host) }
        ensures step { IfOk result (λ _. IsStep (call_step self.old.host.settings self.old.host.host now server number request.items) self.old self.new) }
        ensures whole { IfOk result (λ _. self.new.whole ≡ []) }
        ensures from { IfOk result (λ _. self.new.from ≡ None) }
        ensures counts { IfOk result (λ _. self.new.counts ≡ counted self.old.counts self.new.host.marks self.new.out) }
        ensures uncounted { IfErr result (λ _. self.new.counts ≡ self.old.counts) }
        ensures served { self.new.served ≡ self.old.served }
        ensures same { IfErr result (λ _. IsStill self.old self.new) }
        ensures unbegun { IfErr result (λ f. f ≢ Spent → self.new ≡ self.old) }
        ensures shows { IfErr result (λ _. (self.new ≡ self.old) ⊎ ShowsNothing self.new) }
        ensures steps { self.new.steps ≤ self.old.steps + 1 }
    {
        if let Some(fault) = self.request_fault(server, request.len(), now) {
            return Err(fault);
        }
        self.steps += 1;
        self.from = None;
        self.scratch.set(&[]);
        let Ok(id) = self.host.call(server, number, request, now, &mut self.out) else {
            return Err(StepFault::Spent);
        };
        self.counts.add_step(&self.host, &self.out);
        Ok(id)
    }

    /// A datagram comes from another host, at tick `now` of the host's own clock, with the answer to the request that it may
    /// make whole: of 1 to 1,000,000 bytes, or empty if there is none yet. If it asks, the call, the service and the request,
    /// in `whole`, are those that the step begins to serve, whatever the answer will be. If the host takes no step it stays as
    /// it was. A refused one leaves the last step shown; else nothing is shown but `whole`.
    pub fn deliver(
        &mut self,
        alloc: Global,
        from: HostId,
        frame: &[u8],
        now: u64,
        answer: &[u8],
    ) -> Came
        ensures fault { refusal result ≡ delivery_fault self.old.host self.old.steps from (length answer.now) now }
        ensures step { result ≡ Taken → (a : Answer)
            × IsStep (arrival_step self.old.host.settings self.old.host.host now (arriving self.old.host from frame.now) a) self.old self.new }
        ensures given { result ≡ Taken
            → AllByRecursion (IsAllowed self.new.host.host (IsGiven answer.now) self.new.whole) self.new.host.marks }
        ensures none_whole { result ≡ Taken → has_whole self.new.host.marks ≡ false → self.new.whole ≡ [] }
        ensures asks { (e : Asked) → result ≡ Asks e → (a : Answer) → HasAsked e.id e.number self.new.whole
            (arrival_step self.old.host.settings self.old.host.host now (arriving self.old.host from frame.now) a).told }
        ensures unanswered { (e : Asked) → result ≡ Asks e → answer.now ≡ [] }
        ensures answered { result ≡ NoMemory → answer.now ≢ [] }
        ensures no_memory { result ≡ NoMemory → (a : Answer)
            → has_run (arrival_step self.old.host.settings self.old.host.host now (arriving self.old.host from frame.now) a).told ≡ true }
        ensures from { refusal result ≡ None → self.new.from ≡ Some from }
        ensures counts { result ≡ Taken → self.new.counts ≡ counted (with_received self.old.counts) self.new.host.marks self.new.out }
        ensures asked { (e : Asked) → result ≡ Asks e → self.new.counts ≡ with_asked self.old.counts }
        ensures uncounted { result ≡ NoMemory → self.new.counts ≡ self.old.counts }
        ensures same { result ≢ Taken → IsStill self.old self.new }
        ensures unbegun { (f : StepFault) → result ≡ Refused f → self.new ≡ self.old }
        ensures shows { result ≢ Taken → refusal result ≡ None → ShowsNothing self.new }
        ensures steps { self.new.steps ≤ self.old.steps + 1 }
    {
        if let Some(fault) = self.delivery_fault(from, answer.len(), now) {
            return Came::Refused(fault);
        }
        self.steps += 1;
        self.from = Some(from);
        let mut given = Given {
            answer,
            served: self.served,
        };
        let came = self.host.deliver(
            alloc,
            from,
            frame,
            now,
            &mut given,
            &mut self.out,
            &mut self.scratch,
        );
        self.served = given.served;
        match came {
            Ok(()) => {
                self.counts.add_delivery(&self.host, &self.out);
                if !tells_whole(&self.host) {
                    self.scratch.set(&[]);
                }
                Came::Taken
            }
            Err(asked) if answer.is_empty() => {
                self.counts.add_asking();
                Came::Asks(asked)
            }
            Err(_) => Came::NoMemory,
        }
    }

    /// Says why a datagram from this host isn't delivered with an answer of so many bytes. None if it may be.
    pub fn delivery_fault(&self, from: HostId, answer: usize, now: u64) -> Option<StepFault>
        ensures fault { result ≡ delivery_fault self.now.host self.now.steps from answer now }
        ensures begins { IfNone result (MayBegin self.now.host self.now.steps now) }
        ensures other { IfNone result (IsOther self.now.host from) }
        ensures most { IfNone result (answer ≤ LONGEST_MESSAGE) }
    {
        if let Some(fault) = self.peer_fault(from, now) {
            return Some(fault);
        }
        length_fault(answer, self.pages)
    }

    /// A turn at tick `now` of the host's own clock. If none may begin, the answer says why, and all stays as it was.
    pub fn turn(&mut self, now: u64) -> Result<(), StepFault>
        ensures fault { IfErr result (λ f. begin_fault self.old.host self.old.steps now ≡ Some f) }
        ensures no_fault { IfOk result (λ _. begin_fault self.old.host self.old.steps now ≡ None) }
        ensures step { IfOk result (λ _. IsStep (turn_step self.old.host.settings self.old.host.host now) self.old self.new) }
        ensures whole { IfOk result (λ _. self.new.whole ≡ []) }
        ensures from { IfOk result (λ _. self.new.from ≡ None) }
        ensures counts { IfOk result (λ _. self.new.counts ≡ counted self.old.counts self.new.host.marks self.new.out) }
        ensures served { self.new.served ≡ self.old.served }
        ensures same { IfErr result (λ _. self.new ≡ self.old) }
        ensures steps { self.new.steps ≤ self.old.steps + 1 }
    {
        if let Some(fault) = begin_fault(&self.host, self.steps, now) {
            return Err(fault);
        }
        self.steps += 1;
        self.from = None;
        self.scratch.set(&[]);
        self.host.turn(now, &mut self.out);
        self.counts.add_step(&self.host, &self.out);
        Ok(())
    }

    /// The tick before which no turn does anything: after the last step and before it, a turn sends and tells nothing. It only
    /// moves the clock and fills the credit. The tick is the next one if bytes of a message wait to be sent, and else the
    /// deadline of a row. None if no turn that may begin does anything before the next call or datagram. That includes a turn
    /// at the tick of the last step, unless that is the last tick.
    pub fn next_turn(&self) -> Option<u64>
        ensures idle { IfSome result (λ at. (now : ℕ) → self.now.host.host.last < now → now < at → IsIdleTurn self.now.host now) }
        ensures may_act { IfSome result (MayAct self.now.host) }
        ensures begins { IfSome result (λ at. at ≤ LAST_HOST_TICK) }
        ensures none { IfNone result ((now : ℕ) → self.now.host.host.last < now → now ≤ LAST_HOST_TICK → IsIdleTurn self.now.host now) }
        ensures rest { IfNone result (self.now.host.host.last < LAST_HOST_TICK → IsIdleTurn self.now.host self.now.host.host.last) }
    {
        if self.host.pacer().pick().is_some() {
            return up_to_end(Some(self.host.last() + 1));
        }
        up_to_end(first_deadline(self.host.timers()))
    }

    /// The host.
    pub fn host(&self) -> &Host
        ensures { result.now ≡ self.now.host }
    {
        &self.host
    }

    /// The frames of its last step.
    pub fn out(&self) -> &Outbox
        ensures { result.now ≡ self.now.out }
    {
        &self.out
    }

    /// Who sent the datagram of its last step. None behind a call or a turn, and before the first step.
    pub fn from(&self) -> Option<HostId>
        ensures { result ≡ self.now.from }
    {
        self.from
    }

    /// What it counted from its opening on.
    pub fn counts(&self) -> &HostCounts
        ensures { result.now ≡ self.now.counts }
    {
        &self.counts
    }

    /// The message that became whole in its last step: the request that is asked about, the one that was answered, or the
    /// response of a call that is done. Empty where none became whole.
    pub fn whole(&self) -> &[u8]
        ensures bytes { result.now ≡ self.now.whole }
        ensures small { length result.now ≤ LONGEST_MESSAGE }
    {
        self.scratch.bytes()
    }

    /// The entry of its last step with this number, counted from 0. A packet has its number within the step.
    pub fn entry(&self, i: usize) -> Entry<'_>
        requires i { i < length self.now.host.marks }
        ensures { slice_get (shown_entries self.now.host self.now.out self.now.whole) i ≡ Some (plain result) }
    {
        self.host.entry(i, &self.out, &self.scratch)
    }
}

// Whether a message became whole in a host's last step.
fn tells_whole(host: &Host) -> bool
    ensures { result ≡ has_whole host.now.marks }
{
    for i in 0..host.entries() {
        if makes_whole(host.mark(i)) {
            return true;
        }
    }
    false
}

// Whether a message became whole with this mark.
fn makes_whole(mark: &Mark) -> bool
    ensures { result ≡ is_whole mark.now }
{
    matches!(mark, Mark::Ran { .. } | Mark::Done { .. })
}

// The earliest deadline. None where no timer is armed.
fn first_deadline(timers: &Timers) -> Option<u64>
    ensures { result ≡ option_map (λ t. t.at) (first_of timers.now.timers) }
{
    let (_, key) = first(timers.heap())?;
    Some(key.first)
}

// A tick, unless it is past the last one.
fn up_to_end(at: Option<u64>) -> Option<u64>
    ensures { result ≡ in_time at }
{
    match at {
        Some(tick) if tick <= LAST_HOST_TICK => at,
        _ => None,
    }
}
