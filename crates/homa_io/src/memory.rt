// A source and a sink in memory, whose faults are planned.
ghost use Rattle.std.specs.Prelude.{◌≡◌, ◌≤◌, ◌<◌, ◌+◌, ◌-◌, ◌^◌, ◌↔◌, ◌⊎◌, Some, [], length, take, min, vec_capacity, Contains, IsErr, OnOk, OnErr};
ghost use Rattle.std.specs.Prelude.{IfOk, IfSome};
ghost use Rattle.homa_io.specs.Outside.{HasRisen, unread, appended, IsAtEnd};

use crate::faults::{FaultCount, FaultPlan};
use crate::input::Input;
use crate::{NoMemory, ReadFailed, Sink, Source, WriteFailed};
use std::alloc::Global;

/// A source of bytes in memory, of which chosen reads fail.
#[derive(Drop)]
pub struct MemSource {
    input: Input,
    plan: FaultPlan,
    faults: FaultCount,
}

impl MemSource {
    ghost use Rattle.homa_io.specs.Memory.{source_left, source_faults, source_fails, source_reads};

    /// A source of these bytes. `fails` has the numbers, from 0, of the reads that are to fail.
    pub fn new(bytes: Vec<u8>, fails: Vec<u64>) -> MemSource
        ensures left { source_left result ≡ Some bytes.items }
        ensures faults { source_faults result ≡ 0 }
        ensures fails { source_fails result ≡ fails.items }
        ensures reads { source_reads result ≡ 0 }
    {
        MemSource {
            input: Input::new(bytes),
            plan: FaultPlan::new(fails),
            faults: FaultCount::NONE,
        }
    }
}

impl Source for MemSource {
    ghost use Rattle.homa_io.specs.Memory.{source_left, source_faults, source_fails, source_reads};

    ghost left = { source_left };

    ghost faults = { source_faults };

    ghost is_same = { λ _ _. Unit {0} };

    ghost same_self = { λ _. tt };

    ghost same_on = { λ _ _ _ _ _. tt };

    /// Reads as many bytes as there are and fit.
    fn read(&mut self, buf: &mut [u8]) -> Result<usize, ReadFailed>
        ensures fits { IfOk result (λ n. n ≤ length buf.new) }
        ensures read { IfOk result (λ n.
            source_left self.old ≡ unread (take n buf.new) (source_left self.new)) }
        ensures end { IfOk result (λ n. n ≡ 0 → 0 < length buf.old → IsAtEnd (source_left self.old)) }
        ensures err { OnErr result (source_left self.new ≡ source_left self.old) }
        ensures risen { OnErr result (HasRisen (source_faults self.old) (source_faults self.new)) }
        ensures never_falls { source_faults self.old ≤ source_faults self.new }

        // A read fails exactly where the plan has its number, and only that counts a fault: one.
        ensures planned { IsErr result ↔ Contains (source_fails self.old) (source_reads self.old) }
        ensures counted { OnErr result
            (source_faults self.new ≡ min (source_faults self.old + 1) (2 ^ 64 - 1)) }
        ensures quiet { OnOk result (source_faults self.new ≡ source_faults self.old) }
        ensures numbered { source_reads self.new ≡ min (source_reads self.old + 1) (2 ^ 64 - 1) }
        ensures plan { source_fails self.new ≡ source_fails self.old }
        ensures count { IfOk result (λ n. IfSome (source_left self.old) (λ left.
            n ≡ min (length left) (length buf.old))) }
    {
        if self.plan.is_next_to_fail() {
            self.faults.raise();
            return Err(ReadFailed);
        }
        Ok(self.input.read_into(buf))
    }
}

/// A sink in memory, with room for so many bytes, of which chosen writes fail.
#[derive(Drop)]
pub struct MemSink {
    bytes: Vec<u8>,
    room: u32,
    plan: FaultPlan,
    faults: FaultCount,
    ghost within: { length bytes.items ≤ room },
    ghost reserved: { room ≤ vec_capacity bytes },
}

impl MemSink {
    ghost use Rattle.homa_io.specs.Memory.{sink_taken, sink_faults, sink_fails, sink_writes, sink_space};

    /// A sink that takes up to `room` bytes, whose memory is taken here. `fails` has the numbers,
    /// from 0, of the writes that are to fail.
    pub fn new(alloc: Global, room: u32, fails: Vec<u64>) -> Result<MemSink, NoMemory>
        ensures taken { IfOk result (λ s. sink_taken s ≡ Some []) }
        ensures faults { IfOk result (λ s. sink_faults s ≡ 0) }
        ensures fails { IfOk result (λ s. sink_fails s ≡ fails.items) }
        ensures writes { IfOk result (λ s. sink_writes s ≡ 0) }
        ensures space { IfOk result (λ s. sink_space s ≡ room) }
    {
        Ok(MemSink {
            bytes: Vec::with_capacity(alloc, room as usize)?,
            room,
            plan: FaultPlan::new(fails),
            faults: FaultCount::NONE,
        })
    }

    /// The bytes that were taken.
    pub fn bytes(&self) -> &[u8]
        ensures { sink_taken self.now ≡ Some result.now }
    {
        &self.bytes
    }
}

impl Sink for MemSink {
    ghost use Rattle.homa_io.specs.Memory.{sink_taken, sink_faults, sink_fails, sink_writes, sink_space};

    ghost taken = { sink_taken };

    ghost faults = { sink_faults };

    ghost is_same = { λ _ _. Unit {0} };

    ghost same_self = { λ _. tt };

    ghost same_on = { λ _ _ _ _ _. tt };

    /// Takes as many bytes as fit. A write of bytes of which none fits is a fault.
    fn write(&mut self, bytes: &[u8]) -> Result<usize, WriteFailed>
        ensures fits { IfOk result (λ n. n ≤ length bytes.now) }
        ensures some { IfOk result (λ n. 0 < length bytes.now → 0 < n) }
        ensures taken { IfOk result (λ n.
            sink_taken self.new ≡ appended (sink_taken self.old) (take n bytes.now)) }
        ensures err { OnErr result (sink_taken self.new ≡ sink_taken self.old) }
        ensures risen { OnErr result (HasRisen (sink_faults self.old) (sink_faults self.new)) }
        ensures never_falls { sink_faults self.old ≤ sink_faults self.new }

        // A write fails exactly where the plan has its number or where the sink is full.
        ensures planned { Contains (sink_fails self.old) (sink_writes self.old) → IsErr result }
        ensures full { 0 < length bytes.now → sink_space self.old ≡ 0 → IsErr result }
        ensures only { IsErr result →
            Contains (sink_fails self.old) (sink_writes self.old) ⊎ (sink_space self.old ≡ 0) }
        ensures count { IfOk result (λ n. n ≡ min (length bytes.now) (sink_space self.old)) }

        ensures counted { OnErr result
            (sink_faults self.new ≡ min (sink_faults self.old + 1) (2 ^ 64 - 1)) }
        ensures quiet { OnOk result (sink_faults self.new ≡ sink_faults self.old) }
        ensures numbered { sink_writes self.new ≡ min (sink_writes self.old + 1) (2 ^ 64 - 1) }
        ensures plan { sink_fails self.new ≡ sink_fails self.old }
        ensures space { IfOk result (λ n. sink_space self.old ≡ n + sink_space self.new) }
        ensures space_kept { OnErr result (sink_space self.new ≡ sink_space self.old) }
    {
        let is_to_fail = self.plan.is_next_to_fail();
        let n = bytes.len().min(self.room as usize - self.bytes.len());
        let is_full = n == 0 && !bytes.is_empty();
        if is_to_fail || is_full {
            self.faults.raise();
            return Err(WriteFailed);
        }
        // The room was reserved, so no memory is taken here, and this can't fail.
        self.bytes.extend_from_slice(&bytes[..n]).unwrap();
        Ok(n)
    }
}
