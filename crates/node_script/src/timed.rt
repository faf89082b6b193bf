// The lines behind `go`.
ghost use Rattle.std.specs.Prelude.{◌≡◌, ◌≤◌, ◌<◌, ◌&&◌, true, length, vec_capacity, Ok, IfOk, IfSome, is_some};
ghost use Rattle.homa_plain.specs.Input.{words_of};
ghost use Rattle.homa_plain.specs.declared.fault.ScriptFault.TheVariants.{UnknownWord};
ghost use Rattle.node_runs.specs.Script as script;
ghost use Rattle.node_script.specs.Setup.{call_given, timed_given, within};

use crate::heading::read_between;
use crate::place::Place;
use homa_plain::{HostId, LineFault, ScriptFault, WorldFault};
use script_lines::{Words, is_comment};

/// A call that is to be made when the clock has come to a tick. `Reader::request` gives its request.
#[derive(Clone, Copy, Debug, PartialEq, Eq)]
pub struct TimedCall {
    /// The number of its line, from 1.
    pub line: u64,
    /// The tick of the clock from which on it is made.
    pub tick: u64,
    /// The host that calls, which is in this node.
    pub client: HostId,
    /// The host that is called.
    pub server: HostId,
    /// The number of the service.
    pub service: u8,
    /// How many bytes its request has.
    pub len: usize,
}

/// Between which ticks, and by the hosts at which places, calls may be made.
#[derive(Clone, Copy)]
pub(crate) struct Bounds<'a> {
    /// The tick of the call before; 0 for the first.
    pub(crate) least: u64,
    /// The tick of the end, at least 1.
    pub(crate) end: u64,
    /// Where the hosts are, by their numbers.
    pub(crate) places: &'a [Place],
}

// The words behind `at`.
fn read_timed(
    bounds: &Bounds<'_>,
    line: u64,
    words: &mut Words<'_>,
    out: &mut Vec<u8>,
) -> Result<TimedCall, ScriptFault>
    requires room { 1050000 ≤ vec_capacity out.old }
    requires end { 1 ≤ bounds.now.end }
    ensures given { (setup : script.Setup) → within bounds.now.places.now bounds.now.end setup
        → script.timed_given setup bounds.now.least line words.old ≡ call_given result out.new.items }
    ensures fits { IfOk result (λ c. c.len ≤ length out.new.items) }
    ensures capacity { vec_capacity out.old ≤ vec_capacity out.new }
    ensures least { IfOk result (λ c. bounds.now.least ≤ c.tick) }
    ensures most { IfOk result (λ c. c.tick < bounds.now.end) }
{
    let tick = read_between(words, bounds.least, bounds.end - 1)?;
    match words.next() {
        None => return Err(ScriptFault::Missing),
        Some(word) => {
            if word != b"call".as_slice() {
                return Err(ScriptFault::UnknownWord);
            }
        }
    }
    let client = words.host()?;
    let server = words.host()?;
    let service = words.number(255)? as u8;
    let len = words.bytes(out)?;
    words.end()?;
    Ok(TimedCall {
        line,
        tick,
        client,
        server,
        service,
        len,
    })
}

// The client must be a host of this node, and the server one of the settings' hosts.
fn between_hosts(bounds: &Bounds<'_>, call: &TimedCall) -> bool
    ensures there { result ≡ true → (call.now.client.0 < length bounds.now.places.now) × (call.now.server.0 < length bounds.now.places.now) }
    ensures given { (setup : script.Setup) → within bounds.now.places.now bounds.now.end setup
        → result ≡ (script.is_local (script.place_of setup call.now.client) && is_some (script.place_of setup call.now.server)) }
{
    let is_local = matches!(
        bounds.places.get(call.client.0 as usize),
        Some(Place::Local { .. })
    );
    is_local && (call.server.0 as usize) < bounds.places.len()
}

/// What a line behind `go` stands for: a call, or nothing where it has no words or is a comment.
pub(crate) fn read_timed_line(
    bounds: &Bounds<'_>,
    number: u64,
    line: &[u8],
    out: &mut Vec<u8>,
) -> Result<Option<TimedCall>, LineFault>
    requires short { length line.now ≤ 2100000 }
    requires room { 1050000 ≤ vec_capacity out.old }
    requires end { 1 ≤ bounds.now.end }
    ensures given { (setup : script.Setup) → within bounds.now.places.now bounds.now.end setup
        → script.timed_of setup bounds.now.least number (Ok (script.spoken (words_of line.now))) ≡ timed_given result out.new.items }
    ensures there { IfOk result (λ r. IfSome r (λ c. (c.client.0 < length bounds.now.places.now) × (c.server.0 < length bounds.now.places.now))) }
    ensures fits { IfOk result (λ r. IfSome r (λ c. c.len ≤ length out.new.items)) }
    ensures capacity { vec_capacity out.old ≤ vec_capacity out.new }
    ensures least { IfOk result (λ r. IfSome r (λ c. bounds.now.least ≤ c.tick)) }
    ensures most { IfOk result (λ r. IfSome r (λ c. c.tick < bounds.now.end)) }
{
    let mut words = Words::new(line);
    let Some(word) = words.next() else {
        return Ok(None);
    };
    if is_comment(word) {
        return Ok(None);
    }
    if word != b"at".as_slice() {
        return Err(LineFault::Script(ScriptFault::UnknownWord));
    }
    let call = read_timed(bounds, number, &mut words, out).map_err(LineFault::Script)?;
    if !between_hosts(bounds, &call) {
        return Err(LineFault::World(WorldFault::NoSuchHost));
    }
    Ok(Some(call))
}
