// A source that is read through a buffer.
ghost use Rattle.std.specs.Prelude.{◌≡◌, ◌≢◌, ◌<◌, ◌≤◌, [], length, drop, OnOk, OnErr, IfOk};
ghost use Rattle.homa_io.specs.Outside.{HasRisen, IsAtEnd};
ghost use Rattle.text_lines.specs.Rest.{Takes};

use homa_io::{ReadFailed, Source};
use std::alloc::{AllocError, Global};

// How many bytes are asked for at a time.
const ROOM: usize = 65536;

// A buffer, of which the bytes from `start` to `end` are pending.
#[derive(Drop)]
pub(crate) struct Input {
    buf: Vec<u8>,
    start: usize,
    end: usize,
    ghost ordered: { start ≤ end },
    ghost within: { end ≤ length buf.items },
    ghost sized: { length buf.items ≡ 65536 },
}

impl Input {
    ghost use Rattle.text_lines.specs.Input.{pending_of, rest_of};

    /// An empty buffer of 64 KiB.
    pub(crate) fn open(alloc: Global) -> Result<Input, AllocError>
        ensures { IfOk result (λ input. pending_of input ≡ []) }
    {
        Ok(Input {
            buf: vec![in alloc; 0; ROOM]?,
            start: 0,
            end: 0,
        })
    }

    /// Reads the source where no byte is pending. None is pending then only at the end.
    pub(crate) fn fill<S: Source>(&mut self, source: &mut S) -> Result<(), ReadFailed>
        ensures taken { Takes (rest_of self.old (S.left source.old)) (rest_of self.new (S.left source.new)) [] }
        ensures pending { pending_of self.old ≢ [] → (self.new ≡ self.old) × (source.new ≡ source.old) }
        ensures end { OnOk result (pending_of self.new ≡ [] → IsAtEnd (S.left source.new)) }
        ensures none { OnErr result (pending_of self.new ≡ []) }
        ensures risen { OnErr result (HasRisen (S.faults source.old) (S.faults source.new)) }
        ensures quiet { OnOk result (S.faults source.new ≡ S.faults source.old) }
        ensures never_falls { S.faults source.old ≤ S.faults source.new }
        ensures same { S.is_same source.old source.new }
    {
        if self.start < self.end {
            return Ok(());
        }
        let n = source.read(&mut self.buf)?;
        self.start = 0;
        self.end = n;
        Ok(())
    }

    /// The bytes that are pending.
    pub(crate) fn pending(&self) -> &[u8]
        ensures { result.now ≡ pending_of self.now }
    {
        &self.buf[self.start..self.end]
    }

    /// Takes the first `n` pending bytes off.
    pub(crate) fn take(&mut self, n: usize)
        requires { n ≤ length (pending_of self.old) }
        ensures { pending_of self.new ≡ drop n (pending_of self.old) }
    {
        self.start += n;
    }
}
