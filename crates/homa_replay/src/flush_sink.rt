// A sink that may hold lines back.
ghost use Rattle.std.specs.Prelude.{◌≡◌, OnOk, OnErr, [], ℕ, List};
ghost use Rattle.homa_io.specs.Outside.{HasRisen};
ghost use Rattle.homa_io.specs.Writing.{IsWritten};
ghost use Rattle.homa_plain.specs.Entries.{plain};
ghost use Rattle.homa_plain.specs.Text.{line_text};
ghost use Rattle.homa_plain.specs.Told.{HasLine};

use homa_io::{HeldSink, Sink, SureSink, WriteFailed};
use homa_plain::Entry;
use homa_text::{put_entry, put_held};

/// A sink that may hold lines back. What it took includes what it holds.
pub trait FlushSink: Sink {
    /// The bytes that are held.
    ghost held: { Self → List ℕ };

    /// Writes what is held. After an error the rest of it is held still.
    fn flush(&mut self) -> Result<(), WriteFailed>
        ensures whole { Self.taken self.new ≡ Self.taken self.old }
        ensures none { OnOk result (held self.new ≡ []) }
        ensures risen { OnErr result (HasRisen (Self.faults self.old) (Self.faults self.new)) }
        ensures quiet { OnOk result (Self.faults self.new ≡ Self.faults self.old) }
        ensures same { Self.is_same self.old self.new };

    /// Writes the line of an entry, as `put_entry` does. A sink that holds lines back may make the line where it holds
    /// them.
    fn put(&mut self, entry: &Entry<'_>) -> Result<(), WriteFailed>
        requires { HasLine (plain entry.now) }
        ensures { IsWritten Self.taken Self.faults Self.is_same result self.old self.new (line_text (plain entry.now)) };
}

impl<K: FlushSink> FlushSink for &mut K {
    ghost held = { λ s. K.held s.now };

    fn flush(&mut self) -> Result<(), WriteFailed> {
        (**self).flush()
    }

    fn put(&mut self, entry: &Entry<'_>) -> Result<(), WriteFailed> {
        (**self).put(entry)
    }
}

impl<K: Sink + Drop> FlushSink for HeldSink<K> {
    ghost use Rattle.homa_io.specs.Held.{held_bytes};

    ghost held = { λ h. held_bytes h };

    fn flush(&mut self) -> Result<(), WriteFailed> {
        HeldSink::flush(self)
    }

    fn put(&mut self, entry: &Entry<'_>) -> Result<(), WriteFailed> {
        put_held(self, entry)
    }
}

impl FlushSink for SureSink {
    ghost held = { λ s. [] };

    fn flush(&mut self) -> Result<(), WriteFailed> {
        Ok(())
    }

    fn put(&mut self, entry: &Entry<'_>) -> Result<(), WriteFailed> {
        put_entry(self, entry)
    }
}
