// A line for each call.
ghost use Rattle.std.specs.Prelude.{◌≡◌};
ghost use Rattle.simulate.specs.Rows.{names};
ghost use Rattle.simulate.specs.Columns.{call_names};

use crate::cells::RowCell;
use crate::parts::nanos;
use crate::rows::{Column, add_head, add_line, named};
use crate::tally::waits_of;
use crate::words::Format;
use call_figures::{CallEnd, Rank, SimCall, call_alone, response_to};
use experiment::Experiment;
use homa_plain::{CallId, HostId};
use simulated_network::RunOutcome;
use std::alloc::AllocError;

// The word of an end.
fn end_word(end: CallEnd) -> &'static str {
    match end {
        CallEnd::Open => "open",
        CallEnd::Done => "done",
        CallEnd::Timeout => "timeout",
        CallEnd::Forgotten => "forgotten",
        CallEnd::Restarted => "restarted",
    }
}

// A moment in nanoseconds, if it came.
fn moment(at: Option<u64>) -> RowCell {
    match at {
        Some(at) => RowCell::Number(nanos(at)),
        None => RowCell::Empty,
    }
}

// How long the call takes alone, in picoseconds.
fn alone(experiment: &Experiment, call: &SimCall) -> u64 {
    call_alone(experiment, call.request.min(1_000_000))
}

// How many times longer it took than alone, in 1000ths; slower than all if it isn't done.
fn slowdown(experiment: &Experiment, call: &SimCall) -> Rank {
    if call.end != CallEnd::Done {
        return Rank::Slower;
    }
    let took = u128::from(call.ended.saturating_sub(call.made)) * 1000;
    let times = took / u128::from(alone(experiment, call).max(1));
    Rank::At(times.min(u128::from(u64::MAX)) as u64)
}

// When it ended, if it did.
fn ended(call: &SimCall) -> Option<u64> {
    match call.end {
        CallEnd::Open => None,
        _ => Some(call.ended),
    }
}

// The columns of a call: moments and spans are nanoseconds.
fn columns(experiment: &Experiment, outcome: &RunOutcome, seed: u64, call: &SimCall) -> [Column; 21]
    ensures { names result ≡ call_names }
{
    let waits = waits_of(outcome, call);
    let response = response_to(experiment, call.request);
    [
        named("seed", RowCell::Number(seed)),
        named("id", RowCell::Id(call.id)),
        named("drawn", RowCell::Number(u64::from(call.drawn))),
        named("client", RowCell::Number(u64::from(call.id.client.0))),
        named("server", RowCell::Number(u64::from(call.server.0))),
        named("request", RowCell::Number(u64::from(call.request))),
        named("response", RowCell::Number(u64::from(response))),
        named("made", RowCell::Number(nanos(call.made))),
        named("first", moment(call.first)),
        named("ran", moment(call.ran)),
        named("ended", moment(ended(call))),
        named("end", RowCell::Word(end_word(call.end))),
        named("alone", RowCell::Number(nanos(alone(experiment, call)))),
        named("slowdown", RowCell::Rank(slowdown(experiment, call))),
        named("resends", RowCell::Number(u64::from(call.resends))),
        named("again", RowCell::Number(waits.again)),
        named("controls", RowCell::Number(u64::from(call.controls))),
        named("card", RowCell::Number(nanos(waits.in_card))),
        named("output", RowCell::Number(nanos(waits.at_output))),
        named("grant", RowCell::Number(nanos(waits.for_grant))),
        named("credit", RowCell::Number(nanos(waits.for_credit))),
    ]
}

// A call that isn't one of a run.
fn no_call() -> SimCall {
    SimCall {
        id: CallId {
            client: HostId(0),
            inc: 0,
            seq: 0,
        },
        server: HostId(0),
        request: 0,
        drawn: 0,
        made: 0,
        first: None,
        ran: None,
        ended: 0,
        end: CallEnd::Open,
        resends: 0,
        controls: 0,
    }
}

/// Adds the names of the columns of a call.
pub(crate) fn add_call_head(
    text: &mut String,
    format: Format,
    experiment: &Experiment,
    outcome: &RunOutcome,
) -> Result<(), AllocError> {
    add_head(text, format, &columns(experiment, outcome, 0, &no_call()))
}

/// Adds the line of a call.
pub(crate) fn add_call(
    text: &mut String,
    format: Format,
    experiment: &Experiment,
    outcome: &RunOutcome,
    seed: u64,
    call: &SimCall,
) -> Result<(), AllocError> {
    add_line(text, format, &columns(experiment, outcome, seed, call))
}
