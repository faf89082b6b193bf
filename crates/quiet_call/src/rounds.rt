// In how many rounds the quiet call is done.
ghost use Rattle.std.specs.Prelude.{◌+◌, ◌*◌, ◌≤◌, IfOk};
ghost use Rattle.homa_io.specs.Writing.{IsWritten};
ghost use Rattle.homa_plain.specs.Quiet.{IsQuiet};
ghost use Rattle.quiet_laws.specs.Ends.{IsCalm};
ghost use Rattle.quiet_call.specs.Text.{quiet_text};

use crate::call::{QuietCall, bound};
use homa_io::{Sink, WriteFailed};
use homa_plain::Settings;
use std::alloc::{AllocError, Global};
use written_lines::{Word, put_line};

/// The round in which a call with a request of `n` bytes and a response of `m` is done, where every packet is delivered
/// once and in order.
pub fn quiet_rounds(alloc: Global, settings: &Settings, n: u32, m: u32) -> Result<u64, AllocError>
    requires calm { IsCalm settings.now n m }
    ensures quiet { IfOk result (λ rounds. IsQuiet settings.now n m rounds) }
    ensures within { IfOk result (λ rounds. rounds ≤ 2 * (n + m) + 8) }
{
    QuietCall::start(alloc, settings, n, m)?.finish(alloc)
}

/// Writes the line `quiet N M rounds R bound B`. After an error it took a front of the line.
pub fn put_quiet<K: Sink>(sink: &mut K, n: u32, m: u32, rounds: u64) -> Result<(), WriteFailed>
    ensures { IsWritten K.taken K.faults K.is_same result sink.old sink.new (quiet_text n m rounds) }
{
    put_line(
        sink,
        &[
            Word::Text(b"quiet"),
            Word::Number(u64::from(n)),
            Word::Number(u64::from(m)),
            Word::Text(b"rounds"),
            Word::Number(rounds),
            Word::Text(b"bound"),
            Word::Number(bound(n, m)),
        ],
    )
}
