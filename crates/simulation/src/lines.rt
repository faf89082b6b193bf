// The lines of a run's schedule.
ghost use Rattle.std.specs.Prelude.{◌≡◌, ◌++◌, codes};
ghost use Rattle.std.specs.Fmt.{decimal};
ghost use Rattle.homa_io.specs.Writing.{IsWritten};
ghost use Rattle.homa_plain.specs.Script.{settings_text};
ghost use Rattle.generated_runs.specs.Generated.{call_text};
ghost use Rattle.simulation.specs.Runs.{said};

use crate::setup::Setup;
use arrayvec::ArrayVec;
use homa_io::{Sink, WriteFailed};
use homa_plain::Event;
use homa_script::{put_event, put_settings};
use itoa::Buffer;
use written_lines::Word::{Host, Number, Text};
use written_lines::put_line;

// The word for so many counting bytes.
fn counting_word(n: usize) -> ArrayVec<u8, 24>
    ensures { result.items ≡ codes "*" ++ decimal n }
{
    let mut word = ArrayVec::<u8, 24>::new();
    word.push(b'*');
    let mut buffer = Buffer::new();
    word.try_extend_from_slice(buffer.format(n).as_bytes())
        .unwrap();
    word
}

// Prints an event; the request of a call by its length.
fn put<K: Sink>(sink: &mut K, event: &Event, bytes: &[u8]) -> Result<(), WriteFailed>
    ensures { IsWritten K.taken K.faults K.is_same result sink.old sink.new (call_text event.now bytes.now) }
{
    let Event::Call {
        client,
        server,
        number,
    } = *event
    else {
        return put_event(sink, event, bytes);
    };
    let word = counting_word(bytes.len());
    let words = [
        Text(b"call"),
        Host(client),
        Host(server),
        Number(u64::from(number)),
        Text(word.as_slice()),
    ];
    put_line(sink, &words)
}

/// Prints an event, if the events of this run are printed.
pub(crate) fn show<K: Sink>(
    setup: &Setup,
    sink: &mut K,
    event: &Event,
    bytes: &[u8],
) -> Result<(), WriteFailed>
    ensures { IsWritten K.taken K.faults K.is_same result sink.old sink.new (said setup.now.prints (call_text event.now bytes.now)) }
{
    if !setup.prints {
        return Ok(());
    }
    put(sink, event, bytes)
}

/// Prints the settings, if the events of this run are printed.
pub(crate) fn begin<K: Sink>(setup: &Setup, sink: &mut K) -> Result<(), WriteFailed>
    ensures { IsWritten K.taken K.faults K.is_same result sink.old sink.new (said setup.now.prints (settings_text setup.now.settings)) }
{
    if !setup.prints {
        return Ok(());
    }
    put_settings(sink, &setup.settings)
}
