// Lines of entries that are written: the frequent ones at once, any other word by word.
ghost use Rattle.std.specs.Prelude.{◌≡◌, ◌≤◌, ◌<◌, ◌+◌, length};
ghost use Rattle.homa_io.specs.Writing.{IsWritten};
ghost use Rattle.homa_plain.specs.Entries.{PlainCall, PlainInject, PlainRun, PlainDone, plain};
ghost use Rattle.homa_plain.specs.Text.{line_text};
ghost use Rattle.homa_text.specs.FrequentLines.{grant_sent, piece_sent, packet_sent, IsBare};
ghost use Rattle.homa_plain.specs.Told.{HasLine};

use crate::entry_words::words_of_entry;
use crate::frequent_calls::{call_line, done_line, inject_line, run_line};
use crate::frequent_entries::add_few;
use crate::frequent_lines::{
    Head, Piece, ShortLine, bare_line, grant_line, piece_line, piece_numbers,
};
use arrayvec::ArrayVec;
use homa_io::{Sink, WriteFailed, write_all};
use homa_plain::{Body, CallId, Entry, HostId};
use written_lines::{Held, append, put_hex, put_line};

// Room for the line of an entry of few bytes.
const SMALL: usize = 1024;

// Room for the numbers of a piece.
const NUMBERS: usize = 512;

// The most bytes of a piece whose line is made at once.
const MOST_PAYLOAD: usize = 1400;

// The most bytes of a message or a datagram whose line is made at once, in small room.
const FEW: usize = 350;

// Room for the line of few bytes.
type FewLine = ArrayVec<u8, SMALL>;

// Writes the line of an entry, word by word.
fn put_words_of<K: Sink>(sink: &mut K, entry: &Entry<'_>) -> Result<(), WriteFailed>
    ensures { IsWritten K.taken K.faults K.is_same result sink.old sink.new (line_text (plain entry.now)) }
{
    put_line(sink, words_of_entry(entry).as_slice())
}

// Writes the line of a GRANT.
fn put_grant<K: Sink>(
    sink: &mut K,
    head: Head,
    level: u8,
    offset: u64,
    prio: u64,
    payload: &[u8],
) -> Result<(), WriteFailed>
    ensures { IsWritten K.taken K.faults K.is_same result sink.old sink.new (line_text (grant_sent head level offset prio payload.now)) }
{
    let mut text = ShortLine::new();
    grant_line(&mut text, head, offset, prio);
    write_all(sink, text.as_slice())
}

// Writes the line of a RESEND, BUSY, UNKNOWN, NEED_ACK or ACK.
fn put_bare<K: Sink>(
    sink: &mut K,
    head: Head,
    level: u8,
    body: &Body,
    payload: &[u8],
) -> Result<(), WriteFailed>
    requires { IsBare body.now }
    ensures { IsWritten K.taken K.faults K.is_same result sink.old sink.new (line_text (packet_sent head level body.now payload.now)) }
{
    let mut text = ShortLine::new();
    bare_line(&mut text, head, body);
    write_all(sink, text.as_slice())
}

// Writes the line of a piece of few bytes. A function has at most one room as a variable: that is filled with zeros where
// the function begins, whether it is used or not.
fn put_short<K: Sink>(
    sink: &mut K,
    head: Head,
    piece: Piece,
    payload: &[u8],
) -> Result<(), WriteFailed>
    requires { length payload.now ≤ 350 }
    ensures { IsWritten K.taken K.faults K.is_same result sink.old sink.new (line_text (piece_sent head piece payload.now)) }
{
    let mut text = FewLine::new();
    piece_line(&mut text, head, piece, payload);
    write_all(sink, text.as_slice())
}

// Writes the line of any other piece: its numbers first, and its bytes without room for all of them.
fn put_long<K: Sink>(
    sink: &mut K,
    head: Head,
    piece: Piece,
    payload: &[u8],
) -> Result<(), WriteFailed>
    requires { 0 < length payload.now }
    ensures { IsWritten K.taken K.faults K.is_same result sink.old sink.new (line_text (piece_sent head piece payload.now)) }
{
    let mut text = Held::<NUMBERS>::new();
    piece_numbers(&mut text, head, piece);
    put_hex(sink, &mut text, payload)?;
    append(sink, &mut text, b"\n")?;
    write_all(sink, text.as_slice())
}

// Writes the line of a piece.
fn put_piece<K: Sink>(
    sink: &mut K,
    head: Head,
    piece: Piece,
    payload: &[u8],
) -> Result<(), WriteFailed>
    requires { length payload.now ≤ 1400 }
    ensures { IsWritten K.taken K.faults K.is_same result sink.old sink.new (line_text (piece_sent head piece payload.now)) }
{
    if payload.len() <= FEW {
        return put_short(sink, head, piece, payload);
    }
    put_long(sink, head, piece, payload)
}

// Writes the line of a call that starts.
fn put_call<K: Sink>(
    sink: &mut K,
    id: CallId,
    server: HostId,
    service: u64,
    bytes: &[u8],
) -> Result<(), WriteFailed>
    requires { length bytes.now ≤ 350 }
    ensures { IsWritten K.taken K.faults K.is_same result sink.old sink.new (line_text (PlainCall id server service bytes.now)) }
{
    let mut text = FewLine::new();
    call_line(&mut text, id, server, service, bytes);
    write_all(sink, text.as_slice())
}

// Writes the line of a service that was called.
fn put_run<K: Sink>(
    sink: &mut K,
    host: HostId,
    id: CallId,
    service: u64,
    request: &[u8],
    response: &[u8],
    hold: u64,
) -> Result<(), WriteFailed>
    requires { length request.now + length response.now ≤ 400 }
    ensures { IsWritten K.taken K.faults K.is_same result sink.old sink.new (line_text (PlainRun host id service request.now response.now hold)) }
{
    let mut text = FewLine::new();
    run_line(&mut text, host, id, service, request, response, hold);
    write_all(sink, text.as_slice())
}

// Writes the line of a call that is done.
fn put_done<K: Sink>(sink: &mut K, id: CallId, bytes: &[u8]) -> Result<(), WriteFailed>
    requires { length bytes.now ≤ 350 }
    ensures { IsWritten K.taken K.faults K.is_same result sink.old sink.new (line_text (PlainDone id bytes.now)) }
{
    let mut text = FewLine::new();
    done_line(&mut text, id, bytes);
    write_all(sink, text.as_slice())
}

// Writes the line of a datagram that is injected.
fn put_inject<K: Sink>(sink: &mut K, host: HostId, bytes: &[u8]) -> Result<(), WriteFailed>
    requires { length bytes.now ≤ 350 }
    ensures { IsWritten K.taken K.faults K.is_same result sink.old sink.new (line_text (PlainInject host bytes.now)) }
{
    let mut text = FewLine::new();
    inject_line(&mut text, host, bytes);
    write_all(sink, text.as_slice())
}

// Writes the line of an entry of a call, or of an injection.
fn put_messages<K: Sink>(sink: &mut K, entry: &Entry<'_>) -> Result<(), WriteFailed>
    ensures { IsWritten K.taken K.faults K.is_same result sink.old sink.new (line_text (plain entry.now)) }
{
    match *entry {
        Entry::Call {
            id,
            server,
            service,
            bytes,
        } if bytes.len() <= FEW => put_call(sink, id, server, u64::from(service), bytes),
        Entry::Run {
            host,
            id,
            service,
            request,
            response,
            hold,
        } if request.len() <= 200 && response.len() <= 200 => {
            let (service, hold) = (u64::from(service), u64::from(hold));
            put_run(sink, host, id, service, request, response, hold)
        }
        Entry::Done { id, bytes } if bytes.len() <= FEW => put_done(sink, id, bytes),
        Entry::Inject { host, bytes } if bytes.len() <= FEW => put_inject(sink, host, bytes),
        _ => put_words_of(sink, entry),
    }
}

// Writes the line of an entry of numbers and words.
fn put_few<K: Sink>(sink: &mut K, entry: &Entry<'_>) -> Result<(), WriteFailed>
    ensures { IsWritten K.taken K.faults K.is_same result sink.old sink.new (line_text (plain entry.now)) }
{
    let mut text = ShortLine::new();
    if add_few(&mut text, entry) {
        return write_all(sink, text.as_slice());
    }
    put_words_of(sink, entry)
}

// Writes the line of an entry that isn't a packet.
fn put_other<K: Sink>(sink: &mut K, entry: &Entry<'_>) -> Result<(), WriteFailed>
    ensures { IsWritten K.taken K.faults K.is_same result sink.old sink.new (line_text (plain entry.now)) }
{
    match *entry {
        Entry::Call { .. } | Entry::Run { .. } | Entry::Done { .. } | Entry::Inject { .. } => {
            put_messages(sink, entry)
        }
        _ => put_few(sink, entry),
    }
}

// Writes the line of this entry, which is a packet.
fn put_packet<K: Sink>(
    sink: &mut K,
    entry: &Entry<'_>,
    head: Head,
    level: u8,
    body: &Body,
    payload: &[u8],
) -> Result<(), WriteFailed>
    requires { plain entry.now ≡ packet_sent head level body.now payload.now }
    ensures { IsWritten K.taken K.faults K.is_same result sink.old sink.new (line_text (plain entry.now)) }
{
    match *body {
        Body::Grant { offset, prio } => {
            let (offset, prio) = (u64::from(offset), u64::from(prio));
            put_grant(sink, head, level, offset, prio, payload)
        }
        Body::Data {
            length: size,
            offset,
            version,
            service,
            ack,
        } if payload.len() <= MOST_PAYLOAD => {
            let piece = Piece {
                level,
                size,
                offset,
                version,
                service,
                ack,
            };
            put_piece(sink, head, piece, payload)
        }
        Body::Data { .. } | Body::Cutoffs(_) => put_words_of(sink, entry),
        Body::Resend { .. }
        | Body::Busy
        | Body::Unknown { .. }
        | Body::NeedAck
        | Body::Ack { .. } => put_bare(sink, head, level, body, payload),
    }
}

/// Writes the line of an entry, as `put_line` of `written_lines` does. Out of memory is the entry of no line, so no entry
/// of that is handed in.
pub fn put_entry<K: Sink>(sink: &mut K, entry: &Entry<'_>) -> Result<(), WriteFailed>
    requires { HasLine (plain entry.now) }
    ensures { IsWritten K.taken K.faults K.is_same result sink.old sink.new (line_text (plain entry.now)) }
{
    let Entry::Send {
        number,
        from,
        to,
        inc,
        role,
        id,
        level,
        body,
        payload,
    } = entry
    else {
        return put_other(sink, entry);
    };
    let head = Head {
        number: *number,
        from: *from,
        to: *to,
        inc: *inc,
        role: *role,
        id: *id,
    };
    put_packet(sink, entry, head, *level, body, payload)
}
