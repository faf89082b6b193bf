// What C does with a host that keeps what asks: it opens one, and answers later, or never.
ghost use Rattle.std.specs.Prelude.{◌≡◌, ◌≤◌, ◌+◌, ◌↔◌, ◌⊎◌, true, false, IsSome};
ghost use Rattle.late_host.specs.declared.outcomes.Answered.{Answered};
ghost use Rattle.late_host.specs.Kept.{call_of, without};
ghost use Rattle.late_host.specs.Late.{late_opened};
ghost use Rattle.homa_c.specs.Results.{can_keep, open_late_code};
ghost use Rattle.homa_c.specs.Shown.{given_call, given_settings};
ghost use Rattle.homa_c.specs.Late.{Settles};
ghost use Rattle.homa_c.specs.Opened.{Opens};

use crate::entries::{HomaCall, given_call};
use crate::exports::opens;
use crate::handle::Handle;
use crate::results::{BAD_SETTING, GONE, NOT_OPEN, OK, code_of_settled};
use crate::settings::HomaSettings;
use std::alloc::Global;

/// The most calls that a host keeps.
const MOST_KEPT: u32 = 4096;

/// Opens a host as [`crate::exports::homa_open`] does, with room to keep so many calls, 1 to 4,096. A kept datagram is delivered
/// at most `keep` ticks after it came, which are at most `life`.
#[unsafe(no_mangle)]
pub extern "C" fn homa_open_late(
    alloc: Global,
    settings: &HomaSettings,
    id: u16,
    inc: u32,
    last: u64,
    kept: u32,
    keep: u32,
    host: &mut Handle,
) -> u32
    ensures { Opens (given_settings settings.now)
        (late_opened (given_settings settings.now) (record { 0 = id }) inc last kept keep)
        (open_late_code host.old.is_open settings.now id inc last kept keep) result host.old host.new }
{
    if !host.is_open && !can_keep(settings, kept, keep) {
        return BAD_SETTING;
    }
    opens(alloc, settings, id, inc, last, kept, keep, host)
}

// Whether a host with these settings can keep so many calls for so many ticks.
fn can_keep(settings: &HomaSettings, kept: u32, keep: u32) -> bool
    ensures { result ≡ can_keep settings.now kept keep }
{
    1 <= kept && kept <= MOST_KEPT && keep <= settings.life
}

/// The answer to a call that is kept, at tick `now` of the host's own clock, as `LateHost::answer` gives it.
#[unsafe(no_mangle)]
pub extern "C" fn homa_answer(
    alloc: Global,
    host: &mut Handle,
    id: &HomaCall,
    answer: &[u8],
    now: u64,
) -> u32
    ensures closed { host.old.is_open ≡ false → result ≡ 16 }
    ensures settled { host.old.is_open ≡ true → (a : Answered)
        × Settles result (given_call id.now) answer.now now host.old.slot.held host.new.slot.held a }
    ensures room { host.new.slot.held.room ≡ host.old.slot.held.room }
    ensures keep { host.new.slot.held.keep ≡ host.old.slot.held.keep }
    ensures steps { host.new.slot.held.driven.steps ≤ host.old.slot.held.driven.steps + 1 }
    ensures open { host.new.is_open ≡ host.old.is_open }
{
    if !host.is_open {
        return NOT_OPEN;
    }
    code_of_settled(
        host.slot
            .as_mut()
            .answer(alloc, given_call(id), answer, now),
    )
}

/// No answer to this call will come: if it asks again, it is told again.
#[unsafe(no_mangle)]
pub extern "C" fn homa_decline(host: &mut Handle, id: &HomaCall) -> u32
    ensures closed { host.old.is_open ≡ false → result ≡ 16 }
    ensures codes { host.old.is_open ≡ true → (result ≡ 0) ⊎ (result ≡ 8) }
    ensures kept { host.old.is_open ≡ true
        → ((result ≡ 0) ↔ IsSome (call_of (given_call id.now) host.old.slot.held.calls)) }
    ensures gone { host.old.is_open ≡ true → host.new.slot.held
        ≡ record host.old.slot.held { calls = without (given_call id.now) host.old.slot.held.calls } }
    ensures open { host.new.is_open ≡ host.old.is_open }
{
    if !host.is_open {
        return NOT_OPEN;
    }
    if host.slot.as_mut().decline(given_call(id)) {
        return OK;
    }
    GONE
}
