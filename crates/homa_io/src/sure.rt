// A source and a sink that never fail.
ghost use Rattle.std.specs.Prelude.{◌≡◌, ◌≤◌, ◌<◌, Some, None, length, take, min, IsOk, IfOk, IfSome};
ghost use Rattle.homa_io.specs.Outside.{unread, IsAtEnd};

use crate::input::Input;
use crate::{ReadFailed, Sink, Source, WriteFailed};

/// A source of bytes in memory, which has no faults.
#[derive(Drop)]
pub struct SureSource {
    input: Input,
}

impl SureSource {
    ghost use Rattle.homa_io.specs.Sure.{sure_source_left, sure_source_faults};

    /// A source of these bytes.
    pub fn new(bytes: Vec<u8>) -> SureSource
        ensures left { sure_source_left result ≡ Some bytes.items }
        ensures faults { sure_source_faults result ≡ 0 }
    {
        SureSource {
            input: Input::new(bytes),
        }
    }
}

impl Source for SureSource {
    ghost use Rattle.homa_io.specs.Sure.{sure_source_left, sure_source_faults};

    ghost left = { sure_source_left };

    ghost faults = { sure_source_faults };

    ghost is_same = { λ _ _. Unit {0} };

    ghost same_self = { λ _. tt };

    ghost same_on = { λ _ _ _ _ _. tt };

    /// Reads as many bytes as there are and fit, and never fails.
    fn read(&mut self, buf: &mut [u8]) -> Result<usize, ReadFailed>
        ensures never_fails { IsOk result }
        ensures fits { IfOk result (λ n. n ≤ length buf.new) }
        ensures read { IfOk result (λ n.
            sure_source_left self.old ≡ unread (take n buf.new) (sure_source_left self.new)) }
        ensures end { IfOk result (λ n. n ≡ 0 → 0 < length buf.old → IsAtEnd (sure_source_left self.old)) }
        ensures count { IfOk result (λ n. IfSome (sure_source_left self.old) (λ left.
            n ≡ min (length left) (length buf.old))) }
    {
        Ok(self.input.read_into(buf))
    }
}

/// A sink that takes every byte and keeps none, which has no faults.
#[derive(Clone, Copy, Debug, Default, PartialEq, Eq)]
pub struct SureSink;

impl SureSink {
    ghost use Rattle.homa_io.specs.Sure.{sure_sink_taken, sure_sink_faults};

    /// A sink that keeps nothing.
    pub fn new() -> SureSink
        ensures taken { sure_sink_taken result ≡ None }
        ensures faults { sure_sink_faults result ≡ 0 }
    {
        SureSink
    }
}

impl Sink for SureSink {
    ghost use Rattle.homa_io.specs.Sure.{sure_sink_taken, sure_sink_faults};

    ghost taken = { sure_sink_taken };

    ghost faults = { sure_sink_faults };

    ghost is_same = { λ _ _. Unit {0} };

    ghost same_self = { λ _. tt };

    ghost same_on = { λ _ _ _ _ _. tt };

    /// Takes all of the bytes, and never fails.
    fn write(&mut self, bytes: &[u8]) -> Result<usize, WriteFailed>
        ensures { result ≡ Ok (length bytes.now) }
    {
        Ok(bytes.len())
    }
}
