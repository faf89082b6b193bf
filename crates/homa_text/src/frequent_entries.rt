// The line of a frequent entry, in any buffer that has room for it.
ghost use Rattle.std.specs.Prelude.{◌≡◌, ◌≤◌, ◌+◌, ◌*◌, ◌++◌, true, false, length};
ghost use Rattle.std.specs.Option.{ForSome};
ghost use Rattle.homa_plain.specs.Entries.{plain};
ghost use Rattle.homa_plain.specs.Text.{line_text};
ghost use Rattle.homa_text.specs.FrequentLines.{packet_sent, shown_bytes};

use crate::frequent_calls::{
    bury_line, call_line, done_line, free_line, inject_line, junk_line, run_line,
};
use crate::frequent_lines::{
    Head, Piece, bare_line, clock_line, deliver_line, grant_line, piece_line,
};
use homa_plain::{Body, Entry};
use written_lines::LineBuffer;

// The most bytes of an entry whose line is made at once.
const MOST_BYTES: usize = 32_000;

/// How many bytes of room the line of an entry may take, beside those of its words: 512 and two digits of each byte. None
/// where it shows more than 32,000 bytes.
pub(crate) fn room_of(entry: &Entry<'_>) -> Option<usize>
    ensures room { ForSome result (λ n. n ≡ 2 * shown_bytes (plain entry.now) + 512) }
    ensures small { ForSome result (λ n. n ≤ 64512) }
{
    let bytes = match entry {
        Entry::Send { payload, .. } => payload.len(),
        Entry::Call { bytes, .. } => bytes.len(),
        Entry::Done { bytes, .. } => bytes.len(),
        Entry::Inject { bytes, .. } => bytes.len(),
        Entry::Run {
            request,
            response,
            ..
        } => request.len().saturating_add(response.len()),
        _ => 0,
    };
    if bytes > MOST_BYTES {
        return None;
    }
    Some(2 * bytes + 512)
}

// Adds the line of a packet. False, and nothing is added, where it is CUTOFFS.
fn add_packet<T: LineBuffer>(
    text: &mut T,
    head: Head,
    level: u8,
    body: &Body,
    payload: &[u8],
) -> bool
    requires { 2 * length payload.now + 512 ≤ T.space text.old }
    ensures added { result ≡ true → T.content text.new ≡ T.content text.old ++ line_text (packet_sent head level body.now payload.now) }
    ensures none { result ≡ false → text.new ≡ text.old }
{
    match *body {
        Body::Grant { offset, prio } => {
            grant_line(text, head, u64::from(offset), u64::from(prio));
        }
        Body::Data {
            length: size,
            offset,
            version,
            service,
            ack,
        } => {
            let piece = Piece {
                level,
                size,
                offset,
                version,
                service,
                ack,
            };
            piece_line(text, head, piece, payload);
        }
        Body::Cutoffs(_) => return false,
        Body::Resend { .. }
        | Body::Busy
        | Body::Unknown { .. }
        | Body::NeedAck
        | Body::Ack { .. } => bare_line(text, head, body),
    }
    true
}

// Adds the line of an entry of a call, or of an injection. False, and nothing is added, where it is another entry.
fn add_message<T: LineBuffer>(text: &mut T, entry: &Entry<'_>) -> bool
    requires { 2 * shown_bytes (plain entry.now) + 512 ≤ T.space text.old }
    ensures added { result ≡ true → T.content text.new ≡ T.content text.old ++ line_text (plain entry.now) }
    ensures none { result ≡ false → text.new ≡ text.old }
{
    match *entry {
        Entry::Call {
            id,
            server,
            service,
            bytes,
        } => call_line(text, id, server, u64::from(service), bytes),
        Entry::Run {
            host,
            id,
            service,
            request,
            response,
            hold,
        } => {
            let (service, hold) = (u64::from(service), u64::from(hold));
            run_line(text, host, id, service, request, response, hold);
        }
        Entry::Done { id, bytes } => done_line(text, id, bytes),
        Entry::Inject { host, bytes } => inject_line(text, host, bytes),
        _ => return false,
    }
    true
}

/// Adds the line of an entry of a few numbers. False, and nothing is added, where it is another entry.
pub(crate) fn add_few<T: LineBuffer>(text: &mut T, entry: &Entry<'_>) -> bool
    requires { 256 ≤ T.space text.old }
    ensures added { result ≡ true → T.content text.new ≡ T.content text.old ++ line_text (plain entry.now) }
    ensures none { result ≡ false → text.new ≡ text.old }
{
    match *entry {
        Entry::Clock { tick } => clock_line(text, tick),
        Entry::Deliver { packet } => deliver_line(text, packet),
        Entry::Junk { host } => junk_line(text, host),
        Entry::Bury { host, id, until } => bury_line(text, host, id, until),
        Entry::Free { host, id } => free_line(text, host, id),
        _ => return false,
    }
    true
}

/// Adds the line of an entry that a trace has many of. False, and nothing is added, where it is another entry.
pub(crate) fn add_entry<T: LineBuffer>(text: &mut T, entry: &Entry<'_>) -> bool
    requires { 2 * shown_bytes (plain entry.now) + 512 ≤ T.space text.old }
    ensures added { result ≡ true → T.content text.new ≡ T.content text.old ++ line_text (plain entry.now) }
    ensures none { result ≡ false → text.new ≡ text.old }
{
    match entry {
        Entry::Send {
            number,
            from,
            to,
            inc,
            role,
            id,
            level,
            body,
            payload,
        } => {
            let head = Head {
                number: *number,
                from: *from,
                to: *to,
                inc: *inc,
                role: *role,
                id: *id,
            };
            add_packet(text, head, *level, body, payload)
        }
        Entry::Call { .. } | Entry::Run { .. } | Entry::Done { .. } | Entry::Inject { .. } => {
            add_message(text, entry)
        }
        _ => add_few(text, entry),
    }
}
