// What C begins: a host, its steps, and its end.
ghost use Rattle.std.specs.Prelude.{◌≡◌, ◌≢◌, ◌≤◌, ◌<◌, ◌+◌, ◌⊎◌, ℕ, true, false, [], Some, None, length};
ghost use Rattle.homa_plain.specs.Rules.{Answer};
ghost use Rattle.homa_plain.specs.Steps.{next_id, has_run};
ghost use Rattle.homa_host.specs.declared.asked.Asked.{Asked};
ghost use Rattle.homa_host.specs.Asking.{HasAsked};
ghost use Rattle.driven_host.specs.declared.faults.StepFault.{StepFault};
ghost use Rattle.driven_host.specs.Driven.{IsStep, IsStill, ShowsNothing};
ghost use Rattle.driven_host.specs.Asking.{has_whole};
ghost use Rattle.driven_host.specs.Counts.{counted, with_received, with_asked};
ghost use Rattle.driven_host.specs.Faults.{begin_fault, request_fault, call_fault, delivery_fault};
ghost use Rattle.driven_host.specs.Turns.{IsIdleTurn, MayAct};
ghost use Rattle.late_host.specs.declared.outcomes.Heard.{Heard};
ghost use Rattle.late_host.specs.Late.{late_opened, WasGiven, without_ran};
ghost use Rattle.homa_c.specs.Results.{code, fault_code, open_code};
ghost use Rattle.homa_c.specs.Late.{is_late, Hears};
ghost use Rattle.homa_c.specs.Opened.{Opens};
ghost use Rattle.homa_c.specs.Shown.{shown_call, shown_asked, given_settings};
ghost use Rattle.homa_c.specs.Begun.{calling, receiving, turning};

use crate::entries::{HomaAsked, HomaCall, asked_of, call_of};
use crate::handle::Handle;
use crate::handle::slot::Slot;
use crate::results::{
    ASKS, BAD_HOST, BAD_INCARNATION, BAD_SETTING, BAD_TICK, IS_OPEN, NEVER, NO_MEMORY, NOT_OPEN,
    OK, TOO_LONG, code_of, code_of_heard,
};
use crate::settings::HomaSettings;
use driven_host::Came;
use homa_plain::{HostId, LAST_HOST_TICK};
use late_host::{Heard, LateHost};
use std::alloc::Global;
use std::mem::replace;

/// The most bytes of a datagram of any net.
const MOST_DATAGRAM: usize = 65_535;

/// Opens a host without calls in a handle that is closed: in this incarnation, at least 1, with its own clock at `last`, at
/// most 1,000,000,002,000, the tick of its last step in an earlier life. The answer says why it isn't opened.
#[unsafe(no_mangle)]
pub extern "C" fn homa_open(
    alloc: Global,
    settings: &HomaSettings,
    id: u16,
    inc: u32,
    last: u64,
    host: &mut Handle,
) -> u32
    ensures { Opens (given_settings settings.now)
        (late_opened (given_settings settings.now) (record { 0 = id }) inc last 0 0)
        (open_code host.old.is_open settings.now id inc last) result host.old host.new }
{
    opens(alloc, settings, id, inc, last, 0, 0, host)
}

// Opens a host with room to keep so many calls, whose datagrams may be delivered for so many ticks.
pub(crate) fn opens(
    alloc: Global,
    settings: &HomaSettings,
    id: u16,
    inc: u32,
    last: u64,
    kept: u32,
    keep: u32,
    host: &mut Handle,
) -> u32
    ensures { Opens (given_settings settings.now)
        (late_opened (given_settings settings.now) (record { 0 = id }) inc last kept keep)
        (open_code host.old.is_open settings.now id inc last) result host.old host.new }
{
    if host.is_open {
        return IS_OPEN;
    }
    let given = settings.get();
    if given.check().is_err() {
        return BAD_SETTING;
    }
    if given.hosts <= u32::from(id) {
        return BAD_HOST;
    }
    if inc == 0 {
        return BAD_INCARNATION;
    }
    if last > LAST_HOST_TICK {
        return BAD_TICK;
    }
    let keep = u64::from(keep);
    let Ok(opened) = LateHost::open(alloc, HostId(id), inc, last, &given, kept, keep) else {
        return NO_MEMORY;
    };
    match Box::new(alloc, opened) {
        Ok(held) => {
            *host = Handle {
                slot: Slot::of(held),
                is_open: true,
            };
            OK
        }
        Err(_) => NO_MEMORY,
    }
}

/// Closes a host, and gives its memory back.
#[unsafe(no_mangle)]
pub extern "C" fn homa_close(alloc: Global, host: &mut Handle) -> u32
    ensures closed { host.new.is_open ≡ false }
    ensures was_closed { host.old.is_open ≡ false → result ≡ 16 }
    ensures begins { host.old.is_open ≡ true → result ≡ 0 }
    ensures same { result ≢ 0 → host.new ≡ host.old }
{
    if !host.is_open {
        return NOT_OPEN;
    }
    let none = Handle {
        slot: Slot::none(alloc),
        is_open: false,
    };
    let Handle { slot, .. } = replace(host, none);
    drop(slot.into_box());
    OK
}

/// Calls service `number` of another host, at tick `now` of the host's own clock. The answer says why the call isn't made: all
/// but that the numbers of this incarnation were used is seen before the request is copied.
#[unsafe(no_mangle)]
pub extern "C" fn homa_call(
    alloc: Global,
    host: &mut Handle,
    server: u16,
    number: u8,
    request: &[u8],
    now: u64,
    id: &mut HomaCall,
) -> u32
    ensures closed { host.old.is_open ≡ false → result ≡ 16 }
    ensures code { host.old.is_open ≡ true → result ≢ 3
        → result ≡ code (call_fault host.old.slot.held.driven.host host.old.slot.held.driven.steps (record { 0 = server }) (length request.now) now) }
    ensures no_memory { result ≡ 3
        → request_fault host.old.slot.held.driven.host host.old.slot.held.driven.steps (record { 0 = server }) (length request.now) now ≡ None }
    ensures id { result ≡ 0 → id.new ≡ shown_call (next_id host.old.slot.held.driven.host.host) }
    ensures step { result ≡ 0 → IsStep (calling host.old.slot.held.driven now server number request.now) host.old.slot.held.driven host.new.slot.held.driven }
    ensures whole { result ≡ 0 → host.new.slot.held.driven.whole ≡ [] }
    ensures from { result ≡ 0 → host.new.slot.held.driven.from ≡ None }
    ensures counts { result ≡ 0
        → host.new.slot.held.driven.counts ≡ counted host.old.slot.held.driven.counts host.new.slot.held.driven.host.marks host.new.slot.held.driven.out }
    ensures uncounted { result ≢ 0 → host.new.slot.held.driven.counts ≡ host.old.slot.held.driven.counts }
    ensures same { result ≢ 0 → IsStill host.old.slot.held.driven host.new.slot.held.driven }
    ensures kept { host.new.slot.held ≡ record host.old.slot.held { driven = host.new.slot.held.driven } }
    ensures unbegun { result ≢ 0 → result ≢ 5 → host.new.slot.held ≡ host.old.slot.held }
    ensures shows { result ≢ 0
        → (host.new.slot.held.driven ≡ host.old.slot.held.driven) ⊎ ShowsNothing host.new.slot.held.driven }
    ensures steps { host.new.slot.held.driven.steps ≤ host.old.slot.held.driven.steps + 1 }
    ensures unwritten { result ≢ 0 → id.new ≡ id.old }
    ensures open { host.new.is_open ≡ host.old.is_open }
{
    if !host.is_open {
        return NOT_OPEN;
    }
    let held = host.slot.as_mut();
    if let Some(fault) = held
        .asking()
        .request_fault(HostId(server), request.len(), now)
    {
        return code_of(fault);
    }
    let Ok(request) = Vec::from_slice(alloc, request) else {
        return NO_MEMORY;
    };
    match held.call(HostId(server), number, request, now) {
        Ok(call) => {
            *id = call_of(call);
            OK
        }
        Err(fault) => code_of(fault),
    }
}

/// A datagram comes from another host, at tick `now` of the host's own clock, with the answer to the request that it may make
/// whole, of 1 to 1,000,000 bytes, or with none, of no bytes. If it asks, `asked` says which call asks which service, and the
/// request is what [`crate::shows::homa_whole`] gives. A host that keeps what asks ([`crate::late::homa_open_late`]) keeps that
/// datagram; else it is to come again with the answer. Otherwise the result says why no step begins; a datagram of over 65,535
/// bytes is no datagram of any net.
#[unsafe(no_mangle)]
pub extern "C" fn homa_deliver(
    alloc: Global,
    host: &mut Handle,
    from: u16,
    frame: &[u8],
    now: u64,
    answer: &[u8],
    asked: &mut HomaAsked,
) -> u32
    ensures closed { host.old.is_open ≡ false → result ≡ 16 }
    ensures long { host.old.is_open ≡ true → 65535 < length frame.now → result ≡ 23 }
    ensures heard { host.old.is_open ≡ true → length frame.now ≤ 65535 → is_late host.old.slot.held answer.now ≡ true
        → (h : Heard) × Hears result now (record { 0 = from }) frame.now host.old.slot.held host.new.slot.held asked.new h }
    ensures begins { host.old.is_open ≡ true → length frame.now ≤ 65535 → is_late host.old.slot.held answer.now ≡ false
        → delivery_fault host.old.slot.held.driven.host host.old.slot.held.driven.steps (record { 0 = from }) (length answer.now) now ≡ None
        → (result ≡ 0) ⊎ (result ≡ 1) ⊎ (result ≡ 3) }
    ensures code { host.old.is_open ≡ true → length frame.now ≤ 65535 → is_late host.old.slot.held answer.now ≡ false → (f : StepFault)
        → delivery_fault host.old.slot.held.driven.host host.old.slot.held.driven.steps (record { 0 = from }) (length answer.now) now ≡ Some f
        → result ≡ fault_code f }
    ensures step { is_late host.old.slot.held answer.now ≡ false → result ≡ 0 → (a : Answer)
        × IsStep (receiving host.old.slot.held.driven now from frame.now a) host.old.slot.held.driven host.new.slot.held.driven }
    ensures given { is_late host.old.slot.held answer.now ≡ false → result ≡ 0 → WasGiven answer.now host.new.slot.held.driven }
    ensures none_whole { is_late host.old.slot.held answer.now ≡ false → result ≡ 0
        → has_whole host.new.slot.held.driven.host.marks ≡ false → host.new.slot.held.driven.whole ≡ [] }
    ensures asks { is_late host.old.slot.held answer.now ≡ false → result ≡ 1 → (e : Asked) × (asked.new ≡ shown_asked e)
        × ((a : Answer) → HasAsked e.id e.number host.new.slot.held.driven.whole (receiving host.old.slot.held.driven now from frame.now a).told) }
    ensures unanswered { is_late host.old.slot.held answer.now ≡ false → result ≡ 1 → answer.now ≡ [] }
    ensures answered { is_late host.old.slot.held answer.now ≡ false → result ≡ 3 → answer.now ≢ [] }
    ensures no_memory { is_late host.old.slot.held answer.now ≡ false → result ≡ 3
        → (a : Answer) → has_run (receiving host.old.slot.held.driven now from frame.now a).told ≡ true }
    ensures from { is_late host.old.slot.held answer.now ≡ false → (result ≡ 0) ⊎ (result ≡ 1) ⊎ (result ≡ 3)
        → host.new.slot.held.driven.from ≡ Some (record { 0 = from }) }
    ensures counts { is_late host.old.slot.held answer.now ≡ false → result ≡ 0 → host.new.slot.held.driven.counts
        ≡ counted (with_received host.old.slot.held.driven.counts) host.new.slot.held.driven.host.marks host.new.slot.held.driven.out }
    ensures counts_asked { is_late host.old.slot.held answer.now ≡ false → result ≡ 1
        → host.new.slot.held.driven.counts ≡ with_asked host.old.slot.held.driven.counts }
    ensures uncounted { is_late host.old.slot.held answer.now ≡ false → result ≢ 0 → result ≢ 1
        → host.new.slot.held.driven.counts ≡ host.old.slot.held.driven.counts }
    ensures same { is_late host.old.slot.held answer.now ≡ false → result ≢ 0
        → IsStill host.old.slot.held.driven host.new.slot.held.driven }
    ensures unbegun { is_late host.old.slot.held answer.now ≡ false → result ≢ 0 → result ≢ 1 → result ≢ 3
        → host.new.slot.held ≡ host.old.slot.held }
    ensures shows { is_late host.old.slot.held answer.now ≡ false → (result ≡ 1) ⊎ (result ≡ 3)
        → ShowsNothing host.new.slot.held.driven }
    ensures calls { is_late host.old.slot.held answer.now ≡ false → result ≡ 0
        → host.new.slot.held.calls ≡ without_ran host.new.slot.held.driven.host.marks host.old.slot.held.calls }
    ensures kept { is_late host.old.slot.held answer.now ≡ false → result ≢ 0
        → host.new.slot.held.calls ≡ host.old.slot.held.calls }
    ensures room { host.new.slot.held.room ≡ host.old.slot.held.room }
    ensures keep { host.new.slot.held.keep ≡ host.old.slot.held.keep }
    ensures steps { host.new.slot.held.driven.steps ≤ host.old.slot.held.driven.steps + 2 }
    ensures unwritten { result ≢ 1 → asked.new ≡ asked.old }
    ensures open { host.new.is_open ≡ host.old.is_open }
{
    if !host.is_open {
        return NOT_OPEN;
    }
    if frame.len() > MOST_DATAGRAM {
        return TOO_LONG;
    }
    let held = host.slot.as_mut();
    if is_late(held, answer) {
        let heard = held.deliver(alloc, HostId(from), frame, now);
        if let Heard::Asks(call) = heard {
            *asked = asked_of(call);
        }
        return code_of_heard(heard);
    }
    match held.deliver_at_once(alloc, HostId(from), frame, now, answer) {
        Came::Taken => OK,
        Came::Asks(call) => {
            *asked = asked_of(call);
            ASKS
        }
        Came::NoMemory => NO_MEMORY,
        Came::Refused(fault) => code_of(fault),
    }
}

// Whether the host keeps what asks, and no answer is in hand.
fn is_late(held: &LateHost, answer: &[u8]) -> bool
    ensures { result ≡ is_late held.now answer.now }
{
    held.room() != 0 && answer.is_empty()
}

/// A turn at tick `now` of the host's own clock. The answer says why none begins.
#[unsafe(no_mangle)]
pub extern "C" fn homa_turn(host: &mut Handle, now: u64) -> u32
    ensures closed { host.old.is_open ≡ false → result ≡ 16 }
    ensures code { host.old.is_open ≡ true → result ≡ code (begin_fault host.old.slot.held.driven.host host.old.slot.held.driven.steps now) }
    ensures whole { result ≡ 0 → host.new.slot.held.driven.whole ≡ [] }
    ensures from { result ≡ 0 → host.new.slot.held.driven.from ≡ None }
    ensures step { result ≡ 0 → IsStep (turning host.old.slot.held.driven now) host.old.slot.held.driven host.new.slot.held.driven }
    ensures kept { host.new.slot.held ≡ record host.old.slot.held { driven = host.new.slot.held.driven } }
    ensures counts { result ≡ 0
        → host.new.slot.held.driven.counts ≡ counted host.old.slot.held.driven.counts host.new.slot.held.driven.host.marks host.new.slot.held.driven.out }
    ensures same { result ≢ 0 → host.new.slot.held ≡ host.old.slot.held }
    ensures steps { host.new.slot.held.driven.steps ≤ host.old.slot.held.driven.steps + 1 }
    ensures open { host.new.is_open ≡ host.old.is_open }
{
    if !host.is_open {
        return NOT_OPEN;
    }
    match host.slot.as_mut().turn(now) {
        Ok(()) => OK,
        Err(fault) => code_of(fault),
    }
}

/// The tick before which no turn does anything, as `AskingHost::next_turn` has it. NEVER: no turn that may begin does anything
/// before the next call or datagram.
#[unsafe(no_mangle)]
pub extern "C" fn homa_next_turn(host: &mut Handle, at: &mut u64) -> u32
    ensures closed { host.old.is_open ≡ false → result ≡ 16 }
    ensures codes { host.old.is_open ≡ true → (result ≡ 0) ⊎ (result ≡ 9) }
    ensures idle { result ≡ 0 → (now : ℕ) → host.old.slot.held.driven.host.host.last < now → now < at.new → IsIdleTurn host.old.slot.held.driven.host now }
    ensures may_act { result ≡ 0 → MayAct host.old.slot.held.driven.host at.new }
    ensures begins { result ≡ 0 → at.new ≤ LAST_HOST_TICK }
    ensures none { result ≡ 9 → (now : ℕ) → host.old.slot.held.driven.host.host.last < now → now ≤ LAST_HOST_TICK
        → IsIdleTurn host.old.slot.held.driven.host now }
    ensures rest { result ≡ 9 → host.old.slot.held.driven.host.host.last < LAST_HOST_TICK
        → IsIdleTurn host.old.slot.held.driven.host host.old.slot.held.driven.host.host.last }
    ensures same { host.new.slot.held ≡ host.old.slot.held }
    ensures unwritten { result ≢ 0 → at.new ≡ at.old }
    ensures open { host.new.is_open ≡ host.old.is_open }
{
    if !host.is_open {
        return NOT_OPEN;
    }
    match host.slot.as_mut().asking().next_turn() {
        Some(tick) => {
            *at = tick;
            OK
        }
        None => NEVER,
    }
}
