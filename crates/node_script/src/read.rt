// The lines up to `go`, and the next call behind it.
ghost use Rattle.std.specs.Prelude.{◌≡◌, ◌≤◌, ◌<◌, ℕ, List, Some, length, vec_capacity, IfOk, IfSome};
ghost use Rattle.text_lines.specs.Lines.{reading};
ghost use Rattle.script_lines.specs.Place.{place_of, first_place, IsCounted, ReadsScript};
ghost use Rattle.script_lines.specs.Faults.{CountsFaults};
ghost use Rattle.node_script.specs.Heads.{IsSound, setup_seen};
ghost use Rattle.node_script.specs.Calls.{IsOpening, IsNext, IsOn};
ghost use Rattle.node_script.specs.Stops.{has_failed_read, has_failed_call};

use crate::head::Head;
use crate::heading::read_heading;
use crate::setup::Setup;
use crate::stop::{CallStop, SetupStop};
use crate::timed::{Bounds, TimedCall, read_timed_line};
use homa_io::Source;
use homa_plain::ScriptFault;
use script_lines::{last_line, next_line};
use std::alloc::Global;
use text_lines::Lines;

/// Reads the lines up to `go`, and gives what is to be done.
pub(crate) fn read_setup<S: Source>(
    alloc: Global,
    lines: &mut Lines,
    source: &mut S,
) -> Result<Setup, SetupStop>
    requires script { ReadsScript (reading lines.old) }
    requires first { place_of (reading lines.old) ≡ first_place (reading lines.old).limit }
    ensures setup { (bytes : List ℕ) → S.left source.old ≡ Some bytes
        → IsOpening (reading lines.old).limit (place_of (reading lines.new)) bytes (S.left source.new) result }
    ensures sound { IfOk result IsSound }
    ensures counted { IfOk result (λ setup. IsCounted (place_of (reading lines.new))) }
    ensures limit { (reading lines.new).limit ≡ (reading lines.old).limit }
    ensures longest { (reading lines.new).longest ≡ (reading lines.old).longest }
    ensures faults { CountsFaults S.faults S.is_same (has_failed_read result) source.old source.new }
{
    let mut head = Head::new(alloc)?;
    'lines: while next_line(lines, source)? {
        let heading = read_heading(last_line(lines))?;
        if head.says(heading)? {
            return head.setup(alloc);
        }
    }
    Err(SetupStop::Fault(ScriptFault::NoGo))
}

/// Reads the lines up to the next one with words, and gives the call that it is; nothing at the end.
pub(crate) fn read_call<S: Source>(
    lines: &mut Lines,
    setup: &Setup,
    least: u64,
    source: &mut S,
    out: &mut Vec<u8>,
) -> Result<Option<TimedCall>, CallStop>
    requires room { 1050000 ≤ vec_capacity out.old }
    requires end { 1 ≤ setup.now.end }
    requires script { ReadsScript (reading lines.old) }
    ensures call { (bytes : List ℕ) → S.left source.old ≡ Some bytes
        → IsNext (setup_seen setup.now) least (place_of (reading lines.old)) (place_of (reading lines.new)) out.new.items bytes (S.left source.new) result }
    ensures there { IfOk result (λ call. IfSome call (λ c. (c.client.0 < length setup.now.places.items) × (c.server.0 < length setup.now.places.items))) }
    ensures fits { IfOk result (λ call. IfSome call (λ c. c.len ≤ length out.new.items)) }
    ensures capacity { vec_capacity out.old ≤ vec_capacity out.new }
    ensures least { IfOk result (λ call. IfSome call (λ c. least ≤ c.tick)) }
    ensures most { IfOk result (λ call. IfSome call (λ c. c.tick < setup.now.end)) }
    ensures on { IfOk result (IsOn (place_of (reading lines.old)) (place_of (reading lines.new))) }
    ensures limit { (reading lines.new).limit ≡ (reading lines.old).limit }
    ensures longest { (reading lines.new).longest ≡ (reading lines.old).longest }
    ensures faults { CountsFaults S.faults S.is_same (has_failed_call result) source.old source.new }
{
    let bounds = Bounds {
        least,
        end: setup.end,
        places: &setup.places,
    };
    'lines: while next_line(lines, source)? {
        let number = lines.number();
        if let Some(call) = read_timed_line(&bounds, number, last_line(lines), out)? {
            return Ok(Some(call));
        }
    }
    Ok(None)
}
