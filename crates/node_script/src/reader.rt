// A reader of node scripts.
ghost use Rattle.std.specs.Prelude.{◌≡◌, ◌≤◌, ◌<◌, ◌-◌, ◌^◌, ℕ, List, Some, length, take, IfOk, IfSome};
ghost use Rattle.script_lines.specs.Place.{first_place, IsCounted};
ghost use Rattle.script_lines.specs.Faults.{CountsFaults};

use crate::read::{read_call, read_setup};
use crate::setup::Setup;
use crate::stop::{CallStop, SetupStop};
use crate::timed::TimedCall;
use homa_io::Source;
use std::alloc::{AllocError, Global};
use std::marker::Model;
use text_lines::Lines;

// The most bytes of a line, the line feed not counted.
const LONGEST_LINE: u32 = 2_100_000;

// Room for the bytes that a line can spell.
const ROOM: usize = 1_050_000;

/// A reader of a node script: of what stands before `go`, and then of the calls, one by one.
#[derive(Drop)]
pub struct Reader {
    lines: Lines,
    operand: Vec<u8>,
    // The tick of the last call.
    least: u64,
}

impl Model for Reader {
    ghost use Rattle.node_script.specs.Standing.{Standing};

    ghost Value = { Standing };

    ghost use Rattle.node_script.specs.Standing.{standing_of, IsReady};

    ghost view = { standing_of };

    ghost invariant = { IsReady };
}

impl Reader {
    ghost use Rattle.node_script.specs.Heads.{IsSound, setup_seen};
    ghost use Rattle.node_script.specs.Calls.{IsOpening, IsNext, IsOn};
    ghost use Rattle.node_script.specs.Standing.{tick_after};
    ghost use Rattle.node_script.specs.Stops.{has_failed_read, has_failed_call};

    /// A reader of a script of at most `limit` bytes.
    pub fn open(alloc: Global, limit: u64) -> Result<Reader, AllocError>
        requires limit { limit < 2 ^ 64 - 1 }
        ensures place { IfOk result (λ reader. reader.place ≡ first_place limit) }
        ensures least { IfOk result (λ reader. reader.least ≡ 0) }
        ensures counted { IfOk result (λ reader. IsCounted reader.place) }
    {
        Ok(Reader {
            lines: Lines::open(alloc, limit, LONGEST_LINE)?,
            operand: Vec::with_capacity(alloc, ROOM)?,
            least: 0,
        })
    }

    /// Reads up to `go`, and gives what is to be done. It is called once, before `next_call`.
    pub fn setup<S: Source>(&mut self, alloc: Global, source: &mut S) -> Result<Setup, SetupStop>
        requires counted { IsCounted self.old.place }
        requires first { self.old.place ≡ first_place self.old.place.limit }

        // It is that of the definition, whatever stands behind; or its refusal.
        ensures setup { (bytes : List ℕ) → S.left source.old ≡ Some bytes → IsOpening self.old.place.limit self.new.place bytes (S.left source.new) result }
        ensures sound { IfOk result IsSound }

        ensures counted { IfOk result (λ setup. IsCounted self.new.place) }
        ensures limit { self.new.place.limit ≡ self.old.place.limit }
        ensures least { self.new.least ≡ self.old.least }

        ensures faults { CountsFaults S.faults S.is_same (has_failed_read result) source.old source.new }
    {
        read_setup(alloc, &mut self.lines, source)
    }

    /// Reads up to the next line with words, and gives the call that it is; nothing at the end. It
    /// is called after `setup`, and not after the end or a stop.
    pub fn next_call<S: Source>(
        &mut self,
        setup: &Setup,
        source: &mut S,
    ) -> Result<Option<TimedCall>, CallStop>
        requires counted { IsCounted self.old.place }
        requires end { 1 ≤ setup.now.end }

        // It is the next call of the definition, or its refusal or end, whatever stands behind.
        ensures call { (bytes : List ℕ) → S.left source.old ≡ Some bytes
            → IsNext (setup_seen setup.now) self.old.least self.old.place self.new.place self.new.operand bytes (S.left source.new) result }
        ensures there { IfOk result (λ call. IfSome call (λ c. (c.client.0 < length setup.now.places.items) × (c.server.0 < length setup.now.places.items))) }
        ensures fits { IfOk result (λ call. IfSome call (λ c. c.len ≤ length self.new.operand)) }
        ensures most { IfOk result (λ call. IfSome call (λ c. c.tick < setup.now.end)) }

        ensures on { IfOk result (IsOn self.old.place self.new.place) }
        ensures limit { self.new.place.limit ≡ self.old.place.limit }
        ensures least { IfOk result (λ call. self.new.least ≡ tick_after self.old.least call) }

        ensures faults { CountsFaults S.faults S.is_same (has_failed_call result) source.old source.new }
    {
        let call = read_call(
            &mut self.lines,
            setup,
            self.least,
            source,
            &mut self.operand,
        )?;
        if let Some(c) = call {
            self.least = c.tick;
        }
        Ok(call)
    }

    /// The request of the last call, which has so many bytes.
    pub fn request(&self, len: usize) -> &[u8]
        requires fits { len ≤ length self.now.operand }
        ensures { result.now ≡ take len self.now.operand }
    {
        &self.operand[..len]
    }

    /// The number of the last line that was read, counted from 1; at the end of the input it is one more.
    pub fn line(&self) -> u64
        ensures { result ≡ self.now.place.number }
    {
        self.lines.number()
    }
}
