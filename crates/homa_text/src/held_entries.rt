// Entries that are written to a sink that holds lines back.
ghost use Rattle.homa_io.specs.Writing.{IsWritten};
ghost use Rattle.homa_plain.specs.Entries.{plain};
ghost use Rattle.homa_plain.specs.Text.{line_text};
ghost use Rattle.homa_plain.specs.Told.{HasLine};

use crate::frequent_entries::{add_entry, room_of};
use crate::put_entry;
use homa_io::{HeldSink, Sink, WriteFailed};
use homa_plain::Entry;

/// Writes the line of an entry, as [`put_entry`] does, to a sink that holds lines back. The line of a frequent entry is made
/// where the sink holds it.
pub fn put_held<K: Sink + Drop>(
    sink: &mut HeldSink<K>,
    entry: &Entry<'_>,
) -> Result<(), WriteFailed>
    requires { HasLine (plain entry.now) }
    ensures { IsWritten ⟦<HeldSink<K> as Sink>⟧.taken ⟦<HeldSink<K> as Sink>⟧.faults ⟦<HeldSink<K> as Sink>⟧.is_same
        result sink.old sink.new (line_text (plain entry.now)) }
{
    let Some(room) = room_of(entry) else {
        return put_entry(sink, entry);
    };
    if sink.make_room(room)? && add_entry(&mut sink.text, entry) {
        return Ok(());
    }
    put_entry(sink, entry)
}
