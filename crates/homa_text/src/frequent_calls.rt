// Lines of calls and of datagrams that are injected, with few bytes, straight into one buffer.
ghost use Rattle.std.specs.Prelude.{◌∷◌, ◌≡◌, ◌≤◌, ◌+◌, ◌*◌, ◌++◌, length};
ghost use Rattle.homa_plain.specs.Text.{host_word, id_word, hex_word, line_text};
ghost use Rattle.homa_plain.specs.Entries.{PlainCall, PlainInject, PlainJunk, PlainRun, PlainDone, PlainBury, PlainFree};

use crate::frequent_lines::{add_bytes, add_id, add_spaced};
use homa_plain::{CallId, HostId};
use written_lines::{LineBuffer, add, add_number};

// Adds a space and a host.
#[inline(always)]
fn add_spaced_host<T: LineBuffer>(text: &mut T, host: HostId)
    requires { 21 ≤ T.space text.old }
    ensures items { T.content text.new ≡ T.content text.old ++ (32 ∷ host_word host) }
    ensures len { T.space text.old ≤ T.space text.new + 21 }
{
    add_spaced(text, u64::from(host.0));
}

// Adds a space and a call with its client.
#[inline(always)]
fn add_spaced_id<T: LineBuffer>(text: &mut T, id: CallId)
    requires { 63 ≤ T.space text.old }
    ensures items { T.content text.new ≡ T.content text.old ++ (32 ∷ id_word id) }
    ensures len { T.space text.old ≤ T.space text.new + 63 }
{
    add(text, b" ");
    add_id(text, id);
}

// Adds a space and bytes in hex, or a hyphen where there are none.
#[inline(always)]
fn add_spaced_bytes<T: LineBuffer>(text: &mut T, bytes: &[u8])
    requires { 2 * length bytes.now + 2 ≤ T.space text.old }
    ensures items { T.content text.new ≡ T.content text.old ++ (32 ∷ hex_word bytes.now) }
    ensures len { T.space text.old ≤ T.space text.new + 2 * length bytes.now + 2 }
{
    add(text, b" ");
    add_bytes(text, bytes);
}

/// A call that starts.
pub(crate) fn call_line<T: LineBuffer>(
    text: &mut T,
    id: CallId,
    server: HostId,
    service: u64,
    bytes: &[u8],
)
    requires { 2 * length bytes.now + 112 ≤ T.space text.old }
    ensures { T.content text.new ≡ T.content text.old ++ line_text (PlainCall id server service bytes.now) }
{
    add(text, b"call");
    add_spaced_id(text, id);
    add_spaced_host(text, server);
    add_spaced(text, service);
    add_spaced_bytes(text, bytes);
    add(text, b"\n");
}

/// A service that was called.
pub(crate) fn run_line<T: LineBuffer>(
    text: &mut T,
    host: HostId,
    id: CallId,
    service: u64,
    request: &[u8],
    response: &[u8],
    hold: u64,
)
    requires { 2 * (length request.now + length response.now) + 134 ≤ T.space text.old }
    ensures { T.content text.new ≡ T.content text.old ++ line_text (PlainRun host id service request.now response.now hold) }
{
    add(text, b"run");
    add_spaced_host(text, host);
    add_spaced_id(text, id);
    add_spaced(text, service);
    add_spaced_bytes(text, request);
    add_spaced_bytes(text, response);
    add_spaced(text, hold);
    add(text, b"\n");
}

/// A call that is done.
pub(crate) fn done_line<T: LineBuffer>(text: &mut T, id: CallId, bytes: &[u8])
    requires { 2 * length bytes.now + 70 ≤ T.space text.old }
    ensures { T.content text.new ≡ T.content text.old ++ line_text (PlainDone id bytes.now) }
{
    add(text, b"done");
    add_spaced_id(text, id);
    add_spaced_bytes(text, bytes);
    add(text, b"\n");
}

/// A datagram that is injected.
pub(crate) fn inject_line<T: LineBuffer>(text: &mut T, host: HostId, bytes: &[u8])
    requires { 2 * length bytes.now + 30 ≤ T.space text.old }
    ensures { T.content text.new ≡ T.content text.old ++ line_text (PlainInject host bytes.now) }
{
    add(text, b"inject");
    add_spaced_host(text, host);
    add_spaced_bytes(text, bytes);
    add(text, b"\n");
}

/// Bytes that are no packet.
#[tactic(auto, unfolding(homa_plain::specs::Text::line_text))]
pub(crate) fn junk_line<T: LineBuffer>(text: &mut T, host: HostId)
    requires { 256 ≤ T.space text.old }
    ensures { T.content text.new ≡ T.content text.old ++ line_text (PlainJunk host) }
{
    add(text, b"junk ");
    add_number(text, u64::from(host.0));
    add(text, b"\n");
}

/// A server keeps nothing of a call but that it ran, up to a tick.
pub(crate) fn bury_line<T: LineBuffer>(text: &mut T, host: HostId, id: CallId, until: u64)
    requires { 256 ≤ T.space text.old }
    ensures { T.content text.new ≡ T.content text.old ++ line_text (PlainBury host id until) }
{
    add(text, b"bury");
    add_spaced_host(text, host);
    add_spaced_id(text, id);
    add_spaced(text, until);
    add(text, b"\n");
}

/// A server forgets that a call ran.
pub(crate) fn free_line<T: LineBuffer>(text: &mut T, host: HostId, id: CallId)
    requires { 256 ≤ T.space text.old }
    ensures { T.content text.new ≡ T.content text.old ++ line_text (PlainFree host id) }
{
    add(text, b"free");
    add_spaced_host(text, host);
    add_spaced_id(text, id);
    add(text, b"\n");
}
