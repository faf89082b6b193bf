// A host that keeps what asks, so that answers may come later.
ghost use Rattle.std.specs.Prelude.{◌≡◌, ◌≢◌, ◌<◌, ◌≤◌, ◌+◌, ◌↔◌, ◌⊎◌, IsTrue, IsSome, IfOk, IfErr, Ok, All, Some, None, true, false, [], length};
ghost use Rattle.homa_plain.specs.Settings.{IsValid};
ghost use Rattle.homa_plain.specs.Rules.{Answer};
ghost use Rattle.homa_plain.specs.Steps.{next_id, has_run, call_step, turn_step};
ghost use Rattle.homa_host.specs.declared.asked.Asked.{Asked};
ghost use Rattle.homa_host.specs.Asking.{HasAsked};
ghost use Rattle.driven_host.specs.declared.faults.StepFault.{StepFault};
ghost use Rattle.driven_host.specs.declared.faults.StepFault.TheVariants.{Spent};
ghost use Rattle.driven_host.specs.Driven.{IsStep, IsStill, ShowsNothing};
ghost use Rattle.driven_host.specs.Faults.{begin_fault, call_fault, delivery_fault};
ghost use Rattle.driven_host.specs.Asking.{refusal, has_whole};
ghost use Rattle.driven_host.specs.Counts.{counted, with_received, with_asked};
ghost use Rattle.late_host.specs.Ran.{ran_in};
ghost use Rattle.late_host.specs.Late.{late_opened, arrives, HasArrived, WasGiven};

use crate::bytes::Bytes;
use crate::kept::{KeptCall, KeptCalls, is_fresh};
use crate::outcomes::{Answered, Heard};
use crate::ran::{has_run, ran};
use driven_host::{AskingHost, Came, StepFault};
use homa_plain::{CallId, HostId, LAST_HOST_TICK, Settings};
use std::alloc::{AllocError, Global};
use std::marker::Model;

/// A host with the calls that it keeps until they are answered.
#[derive(Drop)]
pub struct LateHost {
    asking: AskingHost,
    kept: KeptCalls,
    // For how many ticks a kept datagram may be delivered.
    keep: u64,
}

impl Model for LateHost {
    ghost use Rattle.late_host.specs.Late.{Late};

    ghost Value = { Late };

    ghost view = { λ h. record { driven = h.asking; calls = h.kept.calls; room = h.kept.room; keep = h.keep } };
}

impl LateHost {
    ghost use Rattle.late_host.specs.Kept.{call_of, without, changed, IsFresh};
    ghost use Rattle.late_host.specs.Late.{IsKeptToo, asked_again, with_answer, without_ran};
    ghost use Rattle.late_host.specs.Heard.{IsHeard, heard_fault, heard_counts, IsSettled, settled_counts};

    /// Opens a host without calls, as [`AskingHost::open`] does, with room to keep so many. A kept datagram is delivered at most
    /// `keep` ticks after it came. With version 1 of the wire nothing else sees to its age: the time that a datagram is under
    /// way and `keep` together must be at most `life`. Fails by want of memory alone.
    pub fn open(
        alloc: Global,
        id: HostId,
        inc: u32,
        last: u64,
        settings: &Settings,
        room: u32,
        keep: u64,
    ) -> Result<LateHost, AllocError>
        requires valid { IsValid settings.now }
        requires id { id.0 < settings.now.hosts }
        requires inc { 1 ≤ inc }
        requires last { last ≤ LAST_HOST_TICK }
        ensures { IfOk result (λ h. h ≡ late_opened settings.now id inc last room keep) }
    {
        let kept = KeptCalls::open(alloc, room)?;
        Ok(LateHost {
            asking: AskingHost::open(alloc, id, inc, last, settings)?,
            kept,
            keep,
        })
    }

    /// A datagram comes from another host, at tick `now` of the host's own clock. If it asks for a call that isn't kept, the
    /// call is kept from now on, if there is room and memory, and its request is in `whole`. If it asks for a call whose answer is kept, the host takes the
    /// step with that answer.
    pub fn deliver(&mut self, alloc: Global, from: HostId, frame: &[u8], now: u64) -> Heard
        ensures fault { heard_fault result ≡ delivery_fault self.old.driven.host self.old.driven.steps from 0 now }
        ensures came { IsHeard now from frame.now self.old self.new result }
        ensures from { heard_fault result ≡ None → self.new.driven.from ≡ Some from }
        ensures none_whole { (id : CallId) → (result ≡ Heard.Taken) ⊎ (result ≡ Heard.Ran id)
            → has_whole self.new.driven.host.marks ≡ false → self.new.driven.whole ≡ [] }
        ensures counts { self.new.driven.counts ≡ heard_counts result self.old.driven.counts self.new.driven }
        ensures room { self.new.room ≡ self.old.room }
        ensures keep { self.new.keep ≡ self.old.keep }
        ensures steps { self.new.driven.steps ≤ self.old.driven.steps + 2 }
    {
        let asked = match self.asking.deliver(alloc, from, frame, now, &[]) {
            Came::Taken => return Heard::Taken,
            Came::NoMemory => return Heard::NoMemory,
            Came::Refused(fault) => return Heard::Refused(fault),
            Came::Asks(asked) => asked,
        };
        let Some(call) = self.kept.find(asked.id) else {
            return match self.keeps(alloc, asked.id, from, frame, now) {
                Ok(true) => Heard::Asks(asked),
                Ok(false) => Heard::Full(asked.id),
                Err(AllocError) => Heard::NoMemory,
            };
        };
        if call.answer.is_empty() {
            return self.renews(alloc, asked.id, from, frame, now);
        }
        match self
            .asking
            .deliver(alloc, from, frame, now, call.answer.as_slice())
        {
            Came::Taken => {
                self.kept.take_out(asked.id);
                Heard::Ran(asked.id)
            }
            Came::NoMemory => Heard::NoMemory,
            Came::Asks(_) => self.renews(alloc, asked.id, from, frame, now),
            Came::Refused(_) => self.renews(alloc, asked.id, from, frame, now),
        }
    }

    /// A datagram comes, with the answer in hand or with none, as [`AskingHost::deliver`] takes it: what asks isn't kept. A call
    /// that runs isn't kept any more.
    pub fn deliver_at_once(
        &mut self,
        alloc: Global,
        from: HostId,
        frame: &[u8],
        now: u64,
        answer: &[u8],
    ) -> Came
        ensures fault { refusal result
            ≡ delivery_fault self.old.driven.host self.old.driven.steps from (length answer.now) now }
        ensures step { result ≡ Came.Taken → HasArrived now from frame.now self.old.driven self.new.driven }
        ensures given { result ≡ Came.Taken → WasGiven answer.now self.new.driven }
        ensures none_whole { result ≡ Came.Taken
            → has_whole self.new.driven.host.marks ≡ false → self.new.driven.whole ≡ [] }
        ensures asks { (e : Asked) → result ≡ Came.Asks e → (a : Answer)
            → HasAsked e.id e.number self.new.driven.whole (arrives self.old.driven now from frame.now a).told }
        ensures unanswered { (e : Asked) → result ≡ Came.Asks e → answer.now ≡ [] }
        ensures answered { result ≡ Came.NoMemory → answer.now ≢ [] }
        ensures no_memory { result ≡ Came.NoMemory → (a : Answer)
            → has_run (arrives self.old.driven now from frame.now a).told ≡ true }
        ensures from { refusal result ≡ None → self.new.driven.from ≡ Some from }
        ensures counts { result ≡ Came.Taken → self.new.driven.counts
            ≡ counted (with_received self.old.driven.counts) self.new.driven.host.marks self.new.driven.out }
        ensures asked { (e : Asked) → result ≡ Came.Asks e → self.new.driven.counts ≡ with_asked self.old.driven.counts }
        ensures uncounted { result ≡ Came.NoMemory → self.new.driven.counts ≡ self.old.driven.counts }
        ensures same { result ≢ Came.Taken → IsStill self.old.driven self.new.driven }
        ensures unbegun { (f : StepFault) → result ≡ Came.Refused f → self.new ≡ self.old }
        ensures shows { result ≢ Came.Taken → refusal result ≡ None → ShowsNothing self.new.driven }
        ensures steps { self.new.driven.steps ≤ self.old.driven.steps + 1 }
        ensures calls { result ≡ Came.Taken → self.new.calls ≡ without_ran self.new.driven.host.marks self.old.calls }
        ensures kept { result ≢ Came.Taken → self.new.calls ≡ self.old.calls }
        ensures room { self.new.room ≡ self.old.room }
        ensures keep { self.new.keep ≡ self.old.keep }
    {
        let came = self.asking.deliver(alloc, from, frame, now, answer);
        match came {
            Came::Taken => self.drops_ran(),
            Came::Asks(_) | Came::NoMemory | Came::Refused(_) => {}
        }
        came
    }

    /// The answer to a call that is kept, at tick `now` of the host's own clock: the step of the datagram that asked last for the
    /// call, with this answer. If the step doesn't run the call, or the datagram is too old for a step, the answer is kept, and
    /// given to the next datagram that asks for the call.
    pub fn answer(&mut self, alloc: Global, id: CallId, answer: &[u8], now: u64) -> Answered
        ensures settled { IsSettled id answer.now now self.old self.new result }
        ensures none_whole { (result ≡ Answered.Ran) ⊎ (result ≡ Answered.Held)
            → has_whole self.new.driven.host.marks ≡ false → self.new.driven.whole ≡ [] }
        ensures counts { self.new.driven.counts ≡ settled_counts result self.old.driven.counts self.new.driven }
        ensures room { self.new.room ≡ self.old.room }
        ensures keep { self.new.keep ≡ self.old.keep }
        ensures steps { self.new.driven.steps ≤ self.old.driven.steps + 1 }
    {
        let Some(call) = self.kept.find(id) else {
            return Answered::Gone;
        };
        if !call.answer.is_empty() {
            return Answered::Gone;
        }
        if answer.is_empty() {
            return Answered::Refused(StepFault::Empty);
        }
        if let Some(fault) = self.asking.delivery_fault(call.from, answer.len(), now) {
            return Answered::Refused(fault);
        }
        let Ok(held) = Bytes::copy(alloc, answer) else {
            return Answered::NoMemory;
        };
        if !is_fresh(call.at, self.keep, now) {
            self.kept.hold(id, held);
            return Answered::Later;
        }
        match self
            .asking
            .deliver(alloc, call.from, call.frame.as_slice(), now, answer)
        {
            Came::Taken => self.settles(id, held),
            Came::Asks(_) | Came::NoMemory | Came::Refused(_) => Answered::NoMemory,
        }
    }

    /// No answer to this call will come: it isn't kept any more, and is told again where it asks again. Tells whether it was
    /// kept.
    pub fn decline(&mut self, id: CallId) -> bool
        ensures kept { IsTrue result ↔ IsSome (call_of id self.old.calls) }
        ensures gone { self.new ≡ record self.old { calls = without id self.old.calls } }
    {
        let is_kept = self.kept.find(id).is_some();
        self.kept.take_out(id);
        is_kept
    }

    /// Calls a service of another host, as [`AskingHost::call`] does.
    pub fn call(
        &mut self,
        server: HostId,
        number: u8,
        request: Vec<u8>,
        now: u64,
    ) -> Result<CallId, StepFault>
        ensures fault { IfErr result
            (λ f. call_fault self.old.driven.host self.old.driven.steps server (length request.items) now ≡ Some f) }
        ensures no_fault { IfOk result
            (λ _. call_fault self.old.driven.host self.old.driven.steps server (length request.items) now ≡ None) }
        ensures id { IfOk result (λ id. id ≡ next_id self.old.driven.host.host) }
        ensures step { IfOk result (λ _. IsStep
            (call_step self.old.driven.host.settings self.old.driven.host.host now server number request.items)
            self.old.driven self.new.driven) }
        ensures whole { IfOk result (λ _. self.new.driven.whole ≡ []) }
        ensures from { IfOk result (λ _. self.new.driven.from ≡ None) }
        ensures counts { IfOk result
            (λ _. self.new.driven.counts ≡ counted self.old.driven.counts self.new.driven.host.marks self.new.driven.out) }
        ensures uncounted { IfErr result (λ _. self.new.driven.counts ≡ self.old.driven.counts) }
        ensures same { IfErr result (λ _. IsStill self.old.driven self.new.driven) }
        ensures unbegun { IfErr result (λ f. f ≢ Spent → self.new ≡ self.old) }
        ensures shows { IfErr result (λ _. (self.new.driven ≡ self.old.driven) ⊎ ShowsNothing self.new.driven) }
        ensures steps { self.new.driven.steps ≤ self.old.driven.steps + 1 }
        ensures kept { self.new ≡ record self.old { driven = self.new.driven } }
    {
        self.asking.call(server, number, request, now)
    }

    /// A turn at tick `now` of the host's own clock, as [`AskingHost::turn`] takes it.
    pub fn turn(&mut self, now: u64) -> Result<(), StepFault>
        ensures fault { IfErr result (λ f. begin_fault self.old.driven.host self.old.driven.steps now ≡ Some f) }
        ensures no_fault { IfOk result (λ _. begin_fault self.old.driven.host self.old.driven.steps now ≡ None) }
        ensures step { IfOk result (λ _. IsStep
            (turn_step self.old.driven.host.settings self.old.driven.host.host now) self.old.driven self.new.driven) }
        ensures whole { IfOk result (λ _. self.new.driven.whole ≡ []) }
        ensures from { IfOk result (λ _. self.new.driven.from ≡ None) }
        ensures counts { IfOk result
            (λ _. self.new.driven.counts ≡ counted self.old.driven.counts self.new.driven.host.marks self.new.driven.out) }
        ensures same { IfErr result (λ _. self.new ≡ self.old) }
        ensures steps { self.new.driven.steps ≤ self.old.driven.steps + 1 }
        ensures kept { self.new ≡ record self.old { driven = self.new.driven } }
    {
        self.asking.turn(now)
    }

    /// The host, with what its last step left: its frames, its entries, and the message that became whole. Also its next turn.
    pub fn asking(&self) -> &AskingHost
        ensures { result.now ≡ self.now.driven }
    {
        &self.asking
    }

    /// How many calls may be kept.
    pub fn room(&self) -> u32
        ensures { result ≡ self.now.room }
    {
        self.kept.room()
    }

    /// How many calls are kept.
    pub fn kept(&self) -> usize
        ensures count { result ≡ length self.now.calls }
        ensures within { result ≤ self.now.room }
    {
        self.kept.len()
    }

    // The call that ran in the host's last step isn't kept any more.
    fn drops_ran(&mut self)
        ensures { self.new ≡ record self.old { calls = without_ran self.old.driven.host.marks self.old.calls } }
    {
        if let Some(id) = ran(self.asking.host()) {
            self.kept.take_out(id);
        }
    }

    // After the step of its datagram with this answer: the call goes if it ran, and else its answer is kept.
    fn settles(&mut self, id: CallId, held: Bytes) -> Answered
        ensures ran { result ≡ Answered.Ran → ran_in self.old.driven.host.marks ≡ Some id }
        ensures out { result ≡ Answered.Ran → self.new ≡ record self.old { calls = without id self.old.calls } }
        ensures unrun { result ≢ Answered.Ran → ran_in self.old.driven.host.marks ≢ Some id }
        ensures held { result ≢ Answered.Ran → self.new ≡ record self.old { calls = changed id (with_answer held) self.old.calls } }
        ensures or_held { (result ≡ Answered.Ran) ⊎ (result ≡ Answered.Held) }
    {
        if has_run(self.asking.host(), id) {
            self.kept.take_out(id);
            return Answered::Ran;
        }
        self.kept.hold(id, held);
        Answered::Held
    }

    // Keeps a call that asks with this datagram. False where there is no room.
    fn keeps(
        &mut self,
        alloc: Global,
        id: CallId,
        from: HostId,
        frame: &[u8],
        now: u64,
    ) -> Result<bool, AllocError>
        ensures kept { result ≡ Ok true → IsKeptToo id from now frame.now self.old self.new }
        ensures driven { result ≡ Ok true → self.new ≡ record self.old { calls = self.new.calls } }
        ensures full { result ≡ Ok false → self.old.room ≤ length self.old.calls }
        ensures fresh { result ≡ Ok false → All (IsFresh self.old.keep now) self.old.calls }
        ensures same { result ≢ Ok true → self.new ≡ self.old }
    {
        let frame = Bytes::copy(alloc, frame)?;
        if !self.kept.make_room(self.keep, now) {
            return Ok(false);
        }
        self.kept.add(KeptCall {
            id,
            from,
            at: now,
            frame,
            answer: Bytes::none(alloc),
        });
        Ok(true)
    }

    // Puts a newer datagram in place of the one that asked for a call.
    fn renews(&mut self, alloc: Global, id: CallId, from: HostId, frame: &[u8], now: u64) -> Heard
        ensures renewed { result ≡ Heard.AtWork id
            → self.new ≡ record self.old { calls = changed id (asked_again from now frame.now) self.old.calls } }
        ensures no_memory { result ≢ Heard.AtWork id → self.new ≡ self.old }
        ensures or { (result ≡ Heard.AtWork id) ⊎ (result ≡ Heard.NoMemory) }
    {
        let Ok(frame) = Bytes::copy(alloc, frame) else {
            return Heard::NoMemory;
        };
        self.kept.renew(id, from, now, frame);
        Heard::AtWork(id)
    }
}
