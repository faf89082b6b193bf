// Schedules that are printed.
ghost use Rattle.std.specs.List.{flat_map};
ghost use Rattle.homa_io.specs.Writing.{IsWritten};
ghost use Rattle.homa_plain.specs.Script.{event_text, settings_text};
ghost use Rattle.homa_script.specs.Named.{named_text};

use homa_io::{Sink, WriteFailed};
use homa_plain::{Event, Name, Settings};
use text_lines::told_settings;
use written_lines::Word::{Hex, Host, Number, Text};
use written_lines::put_line;

/// Writes the line of an event, with these bytes where it is a call or an injection, as `put_line`
/// of `written_lines` does. After an error the sink took a front of the line.
#[tactic(auto, unfolding(homa_plain::specs::Script::event_text))]
pub fn put_event<K: Sink>(sink: &mut K, event: &Event, bytes: &[u8]) -> Result<(), WriteFailed>
    ensures { IsWritten K.taken K.faults K.is_same result sink.old sink.new (event_text event.now bytes.now) }
{
    match *event {
        Event::Call {
            client,
            server,
            number,
        } => {
            let number = Number(u64::from(number));
            let words = [
                Text(b"call"),
                Host(client),
                Host(server),
                number,
                Hex(bytes),
            ];
            put_line(sink, &words)
        }
        Event::Deliver { packet } => put_line(sink, &[Text(b"deliver"), Number(packet)]),
        Event::Clock => put_line(sink, &[Text(b"clock")]),
        Event::Turn { host } => put_line(sink, &[Text(b"turn"), Host(host)]),
        Event::Restart { host } => put_line(sink, &[Text(b"restart"), Host(host)]),
        Event::Inject { host } => put_line(sink, &[Text(b"inject"), Host(host), Hex(bytes)]),
        Event::Shift { host, n } => {
            put_line(sink, &[Text(b"shift"), Host(host), Number(u64::from(n))])
        }
    }
}

// Writes the lines of the settings that have these names.
fn put_named<K: Sink>(sink: &mut K, settings: &Settings, names: &[Name]) -> Result<(), WriteFailed>
    ensures { IsWritten K.taken K.faults K.is_same result sink.old sink.new (flat_map (named_text settings.now) names.now) }
{
    for name in names {
        let number = settings.get(*name);
        put_line(sink, &[Text(name.word()), Number(u64::from(number))])?;
    }
    Ok(())
}

/// Writes the lines of the settings that the `settings` line of a trace tells, and `go`. After an
/// error the sink took a front of them.
#[tactic(auto, unfolding(homa_plain::specs::Script::settings_text))]
pub fn put_settings<K: Sink>(sink: &mut K, settings: &Settings) -> Result<(), WriteFailed>
    ensures { IsWritten K.taken K.faults K.is_same result sink.old sink.new (settings_text settings.now) }
{
    put_named(sink, settings, &Name::ALL[..told_settings(settings)])?;
    put_line(sink, &[Text(b"go")])
}
