// What the calls that were measured came to.
ghost use Rattle.std.specs.Prelude.{◌≡◌, ◌+◌, ◌<◌, ◌^◌, length};

use call_figures::{CallEnd, SimCall, Transfer};
use simulated_network::RunOutcome;

/// How the calls that were measured ended, and for how long all of their pieces waited, in picoseconds.
#[derive(Clone, Copy)]
pub(crate) struct Tally {
    pub(crate) done: u64,
    pub(crate) failed: u64,
    pub(crate) still_open: u64,
    pub(crate) resends: u64,
    /// The bytes of their messages.
    pub(crate) bytes: u64,
    /// The bytes that were sent again.
    pub(crate) again: u64,
    pub(crate) in_card: u128,
    pub(crate) at_output: u128,
    pub(crate) for_grant: u128,
    pub(crate) for_credit: u128,
    ghost few: { done + failed + still_open < 2 ^ 64 },
}

/// The waits of both messages of a call, in picoseconds.
#[derive(Clone, Copy)]
pub(crate) struct CallWaits {
    pub(crate) response: u32,
    pub(crate) again: u64,
    pub(crate) in_card: u64,
    pub(crate) at_output: u64,
    pub(crate) for_grant: u64,
    pub(crate) for_credit: u64,
}

// The message of a side of a call; one that isn't known if there is none.
fn message(outcome: &RunOutcome, place: u32, is_response: bool) -> Transfer {
    outcome
        .transfers
        .message(place, is_response)
        .unwrap_or(Transfer::unknown())
}

/// The waits of a call's messages.
pub(crate) fn waits_of(outcome: &RunOutcome, call: &SimCall) -> CallWaits {
    let place = outcome.calls.place(call.id).unwrap_or(u32::MAX);
    let (asked, answered) = (
        message(outcome, place, false),
        message(outcome, place, true),
    );
    CallWaits {
        response: answered.length,
        again: asked.again.saturating_add(answered.again),
        in_card: asked.in_card.saturating_add(answered.in_card),
        at_output: asked.at_output.saturating_add(answered.at_output),
        for_grant: asked.for_grant.saturating_add(answered.for_grant),
        for_credit: asked.for_credit.saturating_add(answered.for_credit),
    }
}

impl Tally {
    // No calls.
    fn none() -> Tally
        ensures { result.done + result.failed + result.still_open ≡ 0 }
    {
        Tally {
            done: 0,
            failed: 0,
            still_open: 0,
            resends: 0,
            bytes: 0,
            again: 0,
            in_card: 0,
            at_output: 0,
            for_grant: 0,
            for_credit: 0,
        }
    }

    // One call more that ended so.
    fn end(&mut self, end: CallEnd)
        requires { self.old.done + self.old.failed + self.old.still_open + 1 < 2 ^ 64 }
        ensures { self.new.done + self.new.failed + self.new.still_open ≡ self.old.done + self.old.failed + self.old.still_open + 1 }
    {
        match end {
            CallEnd::Open => self.still_open += 1,
            CallEnd::Done => self.done += 1,
            CallEnd::Timeout | CallEnd::Forgotten | CallEnd::Restarted => self.failed += 1,
        }
    }

    // One call more, with these waits.
    fn add(&mut self, call: &SimCall, waits: &CallWaits)
        requires { self.old.done + self.old.failed + self.old.still_open + 1 < 2 ^ 64 }
        ensures { self.new.done + self.new.failed + self.new.still_open ≡ self.old.done + self.old.failed + self.old.still_open + 1 }
    {
        self.end(call.end);
        self.resends = self.resends.saturating_add(u64::from(call.resends));
        let bytes = u64::from(call.request) + u64::from(waits.response);
        self.bytes = self.bytes.saturating_add(bytes);
        self.again = self.again.saturating_add(waits.again);
        self.in_card = self.in_card.saturating_add(u128::from(waits.in_card));
        self.at_output = self.at_output.saturating_add(u128::from(waits.at_output));
        self.for_grant = self.for_grant.saturating_add(u128::from(waits.for_grant));
        self.for_credit = self.for_credit.saturating_add(u128::from(waits.for_credit));
    }

    /// That of these calls of a run.
    pub(crate) fn of(outcome: &RunOutcome, calls: &[SimCall]) -> Tally
        ensures { result.done + result.failed + result.still_open ≡ length calls.now }
    {
        let mut tally = Tally::none();
        for call in calls {
            tally.add(call, &waits_of(outcome, call));
        }
        tally
    }

    /// How many calls there are.
    pub(crate) fn count(&self) -> u64
        ensures { result ≡ self.now.done + self.now.failed + self.now.still_open }
    {
        self.done + self.failed + self.still_open
    }
}
