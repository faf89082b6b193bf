// An observer that prints a schedule.
ghost use Rattle.std.specs.Prelude.{◌≡◌, ◌≤◌, IsOk, IfOk};
ghost use Rattle.std.specs.Option.{option_map};
ghost use Rattle.homa_io.specs.Writing.{IsWritten};
ghost use Rattle.homa_plain.specs.Settings.{IsValid};
ghost use Rattle.homa_plain.specs.World.{last_tick};
ghost use Rattle.homa_plain.specs.Entries.{PlainSettings, PlainCall, PlainClock, PlainRecv};
ghost use Rattle.node_runs.specs.Course.{Tells};
ghost use Rattle.node_runs.specs.Recorder.{no_notes, clocks};
ghost use Rattle.homa_record.specs.Notes.{kind_seen};
ghost use Rattle.homa_record.specs.Seen.{texts, kind_text, strange_answer, Sees};

use crate::book::{Book, Kind};
use homa_io::{Sink, WriteFailed};
use homa_plain::{CallId, Entry, Event, HostId, Packet, Settings};
use homa_script::{put_event, put_settings};
use node_io::{NoMemory, Observer, SeenFault};
use std::alloc::Global;
use written_lines::Word::{Hex, Host, Text};
use written_lines::put_line;

// Writes so many ticks of the clock, one by one.
fn put_clocks<K: Sink>(sink: &mut K, n: u64) -> Result<(), WriteFailed>
    ensures { IsWritten K.taken K.faults K.is_same result sink.old sink.new (texts (clocks n)) }
{
    for _ in 0..n {
        match put_event(sink, &Event::Clock, &[]) {
            Err(failed) => return Err(failed),
            Ok(()) => {}
        }
    }
    Ok(())
}

// Writes the event that stands for a datagram that comes, or that it is strange.
fn put_kind<K: Sink>(
    sink: &mut K,
    host: HostId,
    from: HostId,
    bytes: &[u8],
    kind: Option<Kind>,
) -> Result<(), WriteFailed>
    ensures { IsWritten K.taken K.faults K.is_same result sink.old sink.new (kind_text host from bytes.now (option_map kind_seen kind)) }
{
    match kind {
        None => Ok(()),
        Some(Kind::Sent(packet)) => put_event(sink, &Event::Deliver { packet }, &[]),
        Some(Kind::Junk) => put_event(sink, &Event::Inject { host }, bytes),
        Some(Kind::Strange) => {
            let words = [Text(b"stranger"), Host(host), Host(from), Hex(bytes)];
            put_line(sink, &words)
        }
    }
}

// The answer to a datagram that comes.
fn answer_of(kind: Option<Kind>) -> Result<(), SeenFault>
    ensures { result ≡ strange_answer (option_map kind_seen kind) }
{
    match kind {
        None | Some(Kind::Sent(_)) | Some(Kind::Junk) => Ok(()),
        Some(Kind::Strange) => Err(SeenFault::Stranger),
    }
}

/// Prints the events that stand for a run, as a schedule. It keeps the datagrams of the last `life` ticks; a datagram that
/// comes and is a packet, but none of them, is strange to it.
#[derive(Drop)]
pub struct Recorder<K: Sink> {
    sink: K,
    book: Book,
}

impl<K: Sink> Recorder<K> {
    ghost use Rattle.homa_record.specs.Printing.{sink_of, notes_of};

    /// A recorder to this sink, with no notes. It takes no memory yet; the room of its index, 512 KiB, is taken with the first
    /// datagram. So the answer is always Ok.
    pub fn open(alloc: Global, sink: K) -> Result<Recorder<K>, NoMemory>
        ensures ok { IsOk result }
        ensures sink { IfOk result (λ r. sink_of r ≡ sink) }
        ensures notes { IfOk result (λ r. notes_of r ≡ no_notes) }
    {
        let book = Book::new(alloc);
        Ok(Recorder { sink, book })
    }

    /// Gives the sink back.
    pub fn into_sink(self) -> K
        ensures { result ≡ sink_of self }
    {
        self.sink
    }

    // The settings of the run.
    fn settle(&mut self, settings: &Settings) -> Result<(), SeenFault>
        requires valid { IsValid settings.now }
        ensures sees { Sees (Tells (PlainSettings settings.now)) (K.taken (sink_of self.old)) (K.taken (sink_of self.new)) (K.faults (sink_of self.old))
            (K.faults (sink_of self.new)) (notes_of self.old) (notes_of self.new) result }
        ensures same { K.is_same (sink_of self.old) (sink_of self.new) }
    {
        match put_settings(&mut self.sink, settings) {
            Err(failed) => Err(SeenFault::Write(failed)),
            Ok(()) => {
                self.book.settle(settings);
                Ok(())
            }
        }
    }

    // The clock stands at a tick.
    fn go_on(&mut self, now: u64) -> Result<(), SeenFault>
        requires most { now ≤ last_tick }
        ensures sees { Sees (Tells (PlainClock now)) (K.taken (sink_of self.old)) (K.taken (sink_of self.new)) (K.faults (sink_of self.old))
            (K.faults (sink_of self.new)) (notes_of self.old) (notes_of self.new) result }
        ensures same { K.is_same (sink_of self.old) (sink_of self.new) }
    {
        let ticks = now.saturating_sub(self.book.tick());
        match put_clocks(&mut self.sink, ticks) {
            Err(failed) => Err(SeenFault::Write(failed)),
            Ok(()) => {
                self.book.go_on(now);
                Ok(())
            }
        }
    }

    // A call is made.
    fn call(
        &mut self,
        id: CallId,
        server: HostId,
        service: u8,
        bytes: &[u8],
    ) -> Result<(), SeenFault>
        ensures sees { Sees (Tells (PlainCall id server service bytes.now)) (K.taken (sink_of self.old)) (K.taken (sink_of self.new))
            (K.faults (sink_of self.old)) (K.faults (sink_of self.new)) (notes_of self.old) (notes_of self.new) result }
        ensures same { K.is_same (sink_of self.old) (sink_of self.new) }
    {
        let event = Event::Call {
            client: id.client,
            server,
            number: service,
        };
        match put_event(&mut self.sink, &event, bytes) {
            Err(failed) => Err(SeenFault::Write(failed)),
            Ok(()) => Ok(()),
        }
    }

    // A datagram comes.
    fn hear(&mut self, host: HostId, from: HostId, bytes: &[u8]) -> Result<(), SeenFault>
        ensures sees { Sees (Tells (PlainRecv host from bytes.now)) (K.taken (sink_of self.old)) (K.taken (sink_of self.new)) (K.faults (sink_of self.old))
            (K.faults (sink_of self.new)) (notes_of self.old) (notes_of self.new) result }
        ensures same { K.is_same (sink_of self.old) (sink_of self.new) }
    {
        let kind = self.book.kind(host, from, bytes);
        match put_kind(&mut self.sink, host, from, bytes, kind) {
            Err(failed) => Err(SeenFault::Write(failed)),
            Ok(()) => answer_of(kind),
        }
    }
}

impl<K: Sink> Observer for Recorder<K> {
    ghost use Rattle.node_runs.specs.Recorder.{told, kept, strange};
    ghost use Rattle.homa_record.specs.Printing.{sink_of, notes_of};

    ghost taken = { λ r. K.taken (sink_of r) };

    ghost faults = { λ r. K.faults (sink_of r) };

    ghost is_same = { λ a b. K.is_same (sink_of a) (sink_of b) };

    ghost notes = { notes_of };

    ghost told = { told };

    ghost kept = { kept };

    ghost strange = { strange };

    fn seen(&mut self, entry: &Entry<'_>) -> Result<(), SeenFault> {
        match entry {
            Entry::Settings(settings) => self.settle(settings),
            Entry::Clock { tick } => self.go_on(*tick),
            Entry::Call {
                id,
                server,
                service,
                bytes,
            } => self.call(*id, *server, *service, bytes),
            Entry::Recv { host, from, bytes } => self.hear(*host, *from, bytes),
            Entry::Send {
                number,
                from,
                to,
                inc,
                role,
                id,
                level,
                body,
                payload,
            } => {
                let packet = Packet {
                    role: *role,
                    level: *level,
                    sender: *inc,
                    inc: id.inc,
                    seq: id.seq,
                    at: 0,
                    body: body.copied(),
                };
                match self.book.keep(*number, *from, *to, packet, payload) {
                    Err(_) => Err(SeenFault::NoMemory),
                    Ok(()) => Ok(()),
                }
            }
            _ => Ok(()),
        }
    }

    fn turning(&mut self, host: HostId) -> Result<(), SeenFault> {
        match put_event(&mut self.sink, &Event::Turn { host }, &[]) {
            Err(failed) => Err(SeenFault::Write(failed)),
            Ok(()) => Ok(()),
        }
    }

    ghost use Rattle.homa_record.specs.Seen.{strange_comes};

    ghost same_self = { λ a. K.same_self (sink_of a) };

    ghost same_on = { λ a b c p q. K.same_on (sink_of a) (sink_of b) (sink_of c) p q };

    ghost strange_comes = { strange_comes };
}
