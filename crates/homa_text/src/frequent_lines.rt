// Lines of the entries that a trace has most of, straight into one buffer.
ghost use Rattle.std.specs.Prelude.{◌∷◌, codes, decimal, ◌≡◌, ◌≤◌, ◌+◌, ◌*◌, ◌++◌, ◌<◌, ℕ, List, length, map};
ghost use Rattle.homa_plain.specs.declared.packet.Body.TheVariants as body;
ghost use Rattle.homa_plain.specs.Text.{id_word, role_word, route_word, call_word, ack_word, hex_word, kind_word, body_words, line_text};
ghost use Rattle.homa_plain.specs.Entries.{PlainClock, PlainDeliver};
ghost use Rattle.homa_text.specs.FrequentLines.{head_text, numbers_text, piece_text, grant_sent, piece_sent, packet_sent, spaced_text, IsBare};

use arrayvec::ArrayVec;
use homa_plain::{Body, CallId, HostId, Role};
use written_lines::{LineBuffer, add, add_hex, add_number};

/// Room for a line of words without bytes.
pub(crate) type ShortLine = ArrayVec<u8, 256>;

/// What the line of a packet begins with: its number, from whom to whom, the sender's incarnation, who
/// sent it, and its call.
#[derive(Clone, Copy)]
pub(crate) struct Head {
    pub(crate) number: u64,
    pub(crate) from: HostId,
    pub(crate) to: HostId,
    pub(crate) inc: u32,
    pub(crate) role: Role,
    pub(crate) id: CallId,
}

/// The numbers of a piece, and the call that it acknowledges.
#[derive(Clone, Copy)]
pub(crate) struct Piece {
    pub(crate) level: u8,
    pub(crate) size: u32,
    pub(crate) offset: u32,
    pub(crate) version: u16,
    pub(crate) service: u8,
    pub(crate) ack: Option<(u32, u32)>,
}

/// A tick of the clock.
#[tactic(auto, unfolding(homa_plain::specs::Text::line_text))]
pub(crate) fn clock_line<T: LineBuffer>(text: &mut T, tick: u64)
    requires { 256 ≤ T.space text.old }
    ensures { T.content text.new ≡ T.content text.old ++ line_text (PlainClock tick) }
{
    add(text, b"clock ");
    add_number(text, tick);
    add(text, b"\n");
}

/// A packet that reaches its host.
#[tactic(auto, unfolding(homa_plain::specs::Text::line_text))]
pub(crate) fn deliver_line<T: LineBuffer>(text: &mut T, packet: u64)
    requires { 256 ≤ T.space text.old }
    ensures { T.content text.new ≡ T.content text.old ++ line_text (PlainDeliver packet) }
{
    add(text, b"deliver ");
    add_number(text, packet);
    add(text, b"\n");
}

// Adds an incarnation and a sequence number, of at most ten digits each.
#[inline(always)]
fn add_call<T: LineBuffer>(text: &mut T, inc: u32, seq: u32)
    requires { 41 ≤ T.space text.old }
    ensures items { T.content text.new ≡ T.content text.old ++ call_word (inc, seq) }
    ensures len { T.space text.old ≤ T.space text.new + 21 }
{
    add_number(text, u64::from(inc));
    add(text, b".");
    add_number(text, u64::from(seq));
}

/// Adds a call with its client.
#[inline(always)]
pub(crate) fn add_id<T: LineBuffer>(text: &mut T, id: CallId)
    requires { 62 ≤ T.space text.old }
    ensures items { T.content text.new ≡ T.content text.old ++ id_word id }
    ensures len { T.space text.old ≤ T.space text.new + 42 }
{
    add_number(text, u64::from(id.client.0));
    add(text, b".");
    add_call(text, id.inc, id.seq);
}

// Adds who sent a packet.
#[inline(always)]
fn add_role<T: LineBuffer>(text: &mut T, role: Role)
    requires { 1 ≤ T.space text.old }
    ensures items { T.content text.new ≡ T.content text.old ++ role_word role }
    ensures len { T.space text.new + 1 ≡ T.space text.old }
{
    match role {
        Role::Client => add(text, b"c"),
        Role::Server => add(text, b"s"),
    }
}

// Adds from whom to whom.
#[inline(always)]
fn add_route<T: LineBuffer>(text: &mut T, from: HostId, to: HostId)
    requires { 41 ≤ T.space text.old }
    ensures items { T.content text.new ≡ T.content text.old ++ route_word from to }
    ensures len { T.space text.old ≤ T.space text.new + 41 }
{
    add_number(text, u64::from(from.0));
    add(text, b">");
    add_number(text, u64::from(to.0));
}

// Adds a call that is acknowledged, if any.
#[inline(always)]
fn add_ack<T: LineBuffer>(text: &mut T, ack: Option<(u32, u32)>)
    requires { 41 ≤ T.space text.old }
    ensures items { T.content text.new ≡ T.content text.old ++ ack_word ack }
    ensures len { T.space text.old ≤ T.space text.new + 41 }
{
    match ack {
        None => add(text, b"-"),
        Some((inc, seq)) => add_call(text, inc, seq),
    }
}

/// Adds bytes in hex, or a hyphen where there are none.
#[inline(always)]
pub(crate) fn add_bytes<T: LineBuffer>(text: &mut T, bytes: &[u8])
    requires { 2 * length bytes.now + 1 ≤ T.space text.old }
    ensures items { T.content text.new ≡ T.content text.old ++ hex_word bytes.now }
    ensures len { T.space text.old ≤ T.space text.new + 2 * length bytes.now + 1 }
{
    if bytes.is_empty() {
        return add(text, b"-");
    }
    add_hex(text, bytes);
}

/// Adds a space and a number.
#[inline(always)]
pub(crate) fn add_spaced<T: LineBuffer>(text: &mut T, n: u64)
    requires { 21 ≤ T.space text.old }
    ensures items { T.content text.new ≡ T.content text.old ++ (32 ∷ decimal n) }
    ensures len { T.space text.old ≤ T.space text.new + 21 }
{
    add(text, b" ");
    add_number(text, n);
}

// Adds the first words of a packet's line. The kind has a space before it and after it.
#[inline(always)]
fn add_head<T: LineBuffer>(text: &mut T, head: Head, kind: &[u8])
    requires { length kind.now + 156 ≤ T.space text.old }
    ensures items { T.content text.new ≡ T.content text.old ++ head_text head kind.now }
    ensures len { T.space text.old ≤ T.space text.new + length kind.now + 136 }
{
    add(text, b"send");
    add_spaced(text, head.number);
    add(text, b" ");
    add_route(text, head.from, head.to);
    add_spaced(text, u64::from(head.inc));
    add(text, kind);
    add_role(text, head.role);
    add(text, b" ");
    add_id(text, head.id);
}

/// Makes the line of a GRANT.
pub(crate) fn grant_line<T: LineBuffer>(text: &mut T, head: Head, offset: u64, prio: u64)
    requires { 256 ≤ T.space text.old }
    ensures { (level : ℕ) (payload : List ℕ) → T.content text.new ≡ T.content text.old ++ line_text (grant_sent head level offset prio payload) }
{
    add_head(text, head, b" GRANT ");
    add_spaced(text, offset);
    add_spaced(text, prio);
    add(text, b"\n");
}

// The kind of a packet, with a space before it and after it.
#[inline(always)]
fn spaced_kind(body: &Body) -> &'static [u8]
    ensures kind { result.now ≡ 32 ∷ (kind_word body.now ++ codes " ") }
    ensures few { length result.now ≤ 10 }
{
    match body {
        Body::Data { .. } => b" DATA ",
        Body::Grant { .. } => b" GRANT ",
        Body::Resend { .. } => b" RESEND ",
        Body::Busy => b" BUSY ",
        Body::Cutoffs(_) => b" CUTOFFS ",
        Body::Unknown { .. } => b" UNKNOWN ",
        Body::NeedAck => b" NEED_ACK ",
        Body::Ack { .. } => b" ACK ",
    }
}

// Adds calls, each after a space.
#[inline(always)]
fn add_calls<T: LineBuffer>(text: &mut T, calls: &[(u32, u32)])
    requires { 22 * length calls.now + 20 ≤ T.space text.old }
    ensures items { T.content text.new ≡ T.content text.old ++ spaced_text (map call_word calls.now) }
    ensures len { T.space text.old ≤ T.space text.new + 22 * length calls.now }
{
    for (inc, seq) in calls {
        add(text, b" ");
        add_call(text, *inc, *seq);
    }
}

// Adds what a packet says, each word after a space.
#[inline(always)]
fn add_bare<T: LineBuffer>(text: &mut T, body: &Body)
    requires bare { IsBare body.now }
    requires room { 108 ≤ T.space text.old }
    ensures items { (level : ℕ) (payload : List ℕ) → T.content text.new ≡ T.content text.old ++ spaced_text (body_words level body.now payload) }
    ensures len { T.space text.old ≤ T.space text.new + 88 }
{
    match *body {
        Body::Resend { from, to, prio } => {
            add_spaced(text, u64::from(from));
            add_spaced(text, u64::from(to));
            add_spaced(text, u64::from(prio));
        }
        Body::Unknown { reason } => add_spaced(text, u64::from(reason)),
        Body::Ack { ref more } => add_calls(text, more.calls()),
        Body::Busy | Body::NeedAck => {}
        Body::Data { .. } | Body::Grant { .. } | Body::Cutoffs(_) => unreachable!(),
    }
}

/// Makes the line of a RESEND, BUSY, UNKNOWN, NEED_ACK or ACK.
pub(crate) fn bare_line<T: LineBuffer>(text: &mut T, head: Head, body: &Body)
    requires room { 256 ≤ T.space text.old }
    requires bare { IsBare body.now }
    ensures { (level : ℕ) (payload : List ℕ) → T.content text.new ≡ T.content text.old ++ line_text (packet_sent head level body.now payload) }
{
    add_head(text, head, spaced_kind(body));
    add_bare(text, body);
    add(text, b"\n");
}

// Adds the numbers of a piece, and a space.
#[inline(always)]
fn add_numbers<T: LineBuffer>(text: &mut T, piece: Piece)
    requires { 106 ≤ T.space text.old }
    ensures items { T.content text.new ≡ T.content text.old ++ numbers_text piece }
    ensures len { T.space text.old ≤ T.space text.new + 106 }
{
    add_spaced(text, u64::from(piece.level));
    add_spaced(text, u64::from(piece.size));
    add_spaced(text, u64::from(piece.offset));
    add_spaced(text, u64::from(piece.version));
    add_spaced(text, u64::from(piece.service));
    add(text, b" ");
}

// Adds the numbers of a piece and what it acknowledges, and a space.
#[inline(always)]
fn add_piece<T: LineBuffer>(text: &mut T, piece: Piece)
    requires { 148 ≤ T.space text.old }
    ensures items { T.content text.new ≡ T.content text.old ++ piece_text piece }
    ensures len { T.space text.old ≤ T.space text.new + 148 }
{
    add_numbers(text, piece);
    add_ack(text, piece.ack);
    add(text, b" ");
}

/// Makes the numbers of a piece of a message, with a space after them.
pub(crate) fn piece_numbers<T: LineBuffer>(text: &mut T, head: Head, piece: Piece)
    requires { 311 ≤ T.space text.old }
    ensures { T.content text.new ≡ T.content text.old ++ head_text head (codes " DATA ") ++ piece_text piece }
{
    add_head(text, head, b" DATA ");
    add_piece(text, piece);
}

/// Makes the line of a piece of a message.
pub(crate) fn piece_line<T: LineBuffer>(text: &mut T, head: Head, piece: Piece, payload: &[u8])
    requires { 2 * length payload.now + 312 ≤ T.space text.old }
    ensures { T.content text.new ≡ T.content text.old ++ line_text (piece_sent head piece payload.now) }
{
    add_head(text, head, b" DATA ");
    add_piece(text, piece);
    add_bytes(text, payload);
    add(text, b"\n");
}
