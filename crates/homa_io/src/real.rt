// The readers and writers of std as a source and a sink. What they move outside is trusted: no
// contract says it, and a read of theirs that returns 0 is taken for the end.
ghost use Rattle.std.specs.Prelude.{◌≡◌, ◌≤◌, ◌<◌, ◌+◌, ◌-◌, ◌^◌, None, length, min, OnOk, OnErr, IfOk};

use crate::faults::FaultCount;
use crate::{ReadFailed, Sink, Source, WriteFailed};
use std::io::{Read, Write};

/// A reader as a source, which isn't observable. Each error of the reader is a fault, an
/// interrupted read too.
#[derive(Drop)]
pub struct StdSource<R: Read + Drop> {
    reader: R,
    faults: FaultCount,
}

impl<R: Read + Drop> StdSource<R> {
    ghost use Rattle.homa_io.specs.Real.{std_source_faults};

    /// A source over this reader.
    pub fn new(reader: R) -> StdSource<R>
        ensures { std_source_faults result ≡ 0 }
    {
        StdSource {
            reader,
            faults: FaultCount::NONE,
        }
    }
}

impl<R: Read + Drop> Source for StdSource<R> {
    ghost use Rattle.homa_io.specs.Real.{std_source_faults};

    ghost left = { λ _. None };

    ghost faults = { λ s. std_source_faults s };

    ghost is_same = { λ _ _. Unit {0} };

    ghost same_self = { λ _. tt };

    ghost same_on = { λ _ _ _ _ _. tt };

    /// Reads what one call of the reader gives. An error counts one fault.
    fn read(&mut self, buf: &mut [u8]) -> Result<usize, ReadFailed>
        ensures fits { IfOk result (λ n. n ≤ length buf.new) }
        ensures counted { OnErr result
            (std_source_faults self.new ≡ min (std_source_faults self.old + 1) (2 ^ 64 - 1)) }
        ensures quiet { OnOk result (std_source_faults self.new ≡ std_source_faults self.old) }
        ensures never_falls { std_source_faults self.old ≤ std_source_faults self.new }
    {
        match self.reader.read(buf) {
            Ok(n) => Ok(n),
            Err(_) => {
                self.faults.raise();
                Err(ReadFailed)
            }
        }
    }
}

/// A writer as a sink, which isn't observable. Each error of the writer is a fault, and so
/// is a write of bytes of which it took none. The writer is never flushed, so let it have no buffer.
#[derive(Drop)]
pub struct StdSink<W: Write + Drop> {
    writer: W,
    faults: FaultCount,
}

impl<W: Write + Drop> StdSink<W> {
    ghost use Rattle.homa_io.specs.Real.{std_sink_faults};

    /// A sink over this writer.
    pub fn new(writer: W) -> StdSink<W>
        ensures { std_sink_faults result ≡ 0 }
    {
        StdSink {
            writer,
            faults: FaultCount::NONE,
        }
    }
}

impl<W: Write + Drop> Sink for StdSink<W> {
    ghost use Rattle.homa_io.specs.Real.{std_sink_faults};

    ghost taken = { λ _. None };

    ghost faults = { λ s. std_sink_faults s };

    ghost is_same = { λ _ _. Unit {0} };

    ghost same_self = { λ _. tt };

    ghost same_on = { λ _ _ _ _ _. tt };

    /// Hands the bytes to one call of the writer. An error counts one fault.
    fn write(&mut self, bytes: &[u8]) -> Result<usize, WriteFailed>
        ensures fits { IfOk result (λ n. n ≤ length bytes.now) }
        ensures some { IfOk result (λ n. 0 < length bytes.now → 0 < n) }
        ensures counted { OnErr result
            (std_sink_faults self.new ≡ min (std_sink_faults self.old + 1) (2 ^ 64 - 1)) }
        ensures quiet { OnOk result (std_sink_faults self.new ≡ std_sink_faults self.old) }
        ensures never_falls { std_sink_faults self.old ≤ std_sink_faults self.new }
    {
        match self.writer.write(bytes) {
            Ok(n) if n > 0 || bytes.is_empty() => Ok(n),
            _ => {
                self.faults.raise();
                Err(WriteFailed)
            }
        }
    }
}
