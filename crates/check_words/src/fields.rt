// Values that are read from the words of a line.
ghost use Rattle.std.specs.Prelude.{◌≡◌, ◌+◌, ◌*◌, ◌^◌, ◌≤◌, ◌∷◌, length, is_some, IfSome};
ghost use Rattle.std.specs.Option.{option_map};
ghost use Rattle.check_words.specs.Fields.{word_at, number_at, host_at, id_of, id_at, call_of, route_of, route_at, hex_of, hex_at};
ghost use Rattle.check_words.specs.Fields.{ack_of, ack_at, role_of, role_at, why_of, why_at, is_empty, parts, whole};
ghost use Rattle.check_words.specs.FieldsLeft.{byte_of, left, size, parts_left, length_or_none};

use crate::digits::read_pairs;
use homa_plain::{CallId, HostId, Role, Why};
use memchr::memchr;
use text_lines::read_number;

/// What stands between two words.
#[derive(Clone, Copy)]
pub enum Separator {
    /// Between two words of a line.
    Space,
    /// Between a client, an incarnation and a sequence number.
    Dot,
    /// Between the two hosts of a route.
    Arrow,
}

impl Separator {
    // Its byte.
    fn byte(self) -> u8
        ensures { result ≡ byte_of self }
    {
        match self {
            Separator::Space => b' ',
            Separator::Dot => b'.',
            Separator::Arrow => b'>',
        }
    }
}

/// What is left of a text's words.
#[derive(Clone, Copy)]
pub struct Fields<'a> {
    /// The text behind the words that were read and their separators. None where the last word was read.
    pub rest: Option<&'a [u8]>,
    /// What stands between two words.
    pub separator: Separator,
}

// What stands before the first separator, and what stands behind it, if there is one.
fn cut(text: &[u8], separator: u8) -> (&[u8], Option<&[u8]>)
    ensures parts { parts separator text.now ≡ result.0.now ∷ parts_left separator (option_map (λ x. x.now) result.1) }
    ensures shorter { length result.0.now + length_or_none (option_map (λ x. x.now) result.1) ≤ length text.now }
{
    match memchr(separator, text) {
        None => (text, None),
        Some(i) => (&text[..i], Some(&text[i + 1..])),
    }
}

impl<'a> Fields<'a> {
    /// The words of a text: of an empty text one empty word.
    pub fn of(text: &'a [u8], separator: Separator) -> Fields<'a>
        ensures words { left result ≡ parts (byte_of separator) text.now }
        ensures size { size result ≡ length text.now }
    {
        Fields {
            rest: Some(text),
            separator,
        }
    }

    /// The next word, and the words behind it. None where no word is left.
    pub fn next(self) -> Option<(&'a [u8], Fields<'a>)>
        ensures word { option_map (λ x. (x.0.now, left x.1)) result ≡ word_at (λ word. Some word) (left self.entry) }
        ensures shorter { IfSome result (λ x. length x.0.now + size x.1 ≤ size self.entry) }
    {
        let separator = self.separator;
        let (word, rest) = cut(self.rest?, separator.byte());
        Some((word, Fields { rest, separator }))
    }

    /// Whether no word is left.
    pub fn is_empty(self) -> bool
        ensures { result ≡ is_empty (left self.entry) }
    {
        self.rest.is_none()
    }

    /// Some where no word is left.
    pub fn end(self) -> Option<()>
        ensures { is_some result ≡ is_empty (left self.entry) }
    {
        if self.is_empty() { Some(()) } else { None }
    }
}

/// The next word as a number of eight bits, and the words behind it. None where it spells no such number.
pub fn read_u8(fields: Fields<'_>) -> Option<(u8, Fields<'_>)>
    ensures value { option_map (λ x. (x.0, left x.1)) result ≡ number_at (2 ^ 8) (left fields.entry) }
    ensures shorter { IfSome result (λ x. size x.1 ≤ size fields.entry) }
{
    let (word, rest) = fields.next()?;
    let n = u8::try_from(read_number(word)?).ok()?;
    Some((n, rest))
}

/// The next word as a number of 16 bits, and the words behind it. None where it spells no such number.
pub fn read_u16(fields: Fields<'_>) -> Option<(u16, Fields<'_>)>
    ensures value { option_map (λ x. (x.0, left x.1)) result ≡ number_at (2 ^ 16) (left fields.entry) }
    ensures shorter { IfSome result (λ x. size x.1 ≤ size fields.entry) }
{
    let (word, rest) = fields.next()?;
    let n = u16::try_from(read_number(word)?).ok()?;
    Some((n, rest))
}

/// The next word as a number of 32 bits, and the words behind it. None where it spells no such number.
pub fn read_u32(fields: Fields<'_>) -> Option<(u32, Fields<'_>)>
    ensures value { option_map (λ x. (x.0, left x.1)) result ≡ number_at (2 ^ 32) (left fields.entry) }
    ensures shorter { IfSome result (λ x. size x.1 ≤ size fields.entry) }
{
    let (word, rest) = fields.next()?;
    let n = u32::try_from(read_number(word)?).ok()?;
    Some((n, rest))
}

/// The next word as a number of 64 bits, and the words behind it. None where it spells no such number.
pub fn read_u64(fields: Fields<'_>) -> Option<(u64, Fields<'_>)>
    ensures value { option_map (λ x. (x.0, left x.1)) result ≡ number_at (2 ^ 64) (left fields.entry) }
    ensures shorter { IfSome result (λ x. size x.1 ≤ size fields.entry) }
{
    let (word, rest) = fields.next()?;
    Some((read_number(word)?, rest))
}

/// The next word as a host, and the words behind it. None where it spells no number of 16 bits.
#[tactic(auto, unfolding(crate::specs::Fields::host_of))]
pub fn read_host(fields: Fields<'_>) -> Option<(HostId, Fields<'_>)>
    ensures value { option_map (λ x. (x.0, left x.1)) result ≡ host_at (left fields.entry) }
    ensures shorter { IfSome result (λ x. size x.1 ≤ size fields.entry) }
{
    let (n, rest) = read_u16(fields)?;
    Some((HostId(n), rest))
}

// A call with its client, as a word.
#[tactic(auto, unfolding(crate::specs::Fields::id_of))]
fn id_from(word: &[u8]) -> Option<CallId>
    ensures { result ≡ id_of word.now }
{
    let parts = Fields::of(word, Separator::Dot);
    let (client, parts) = read_host(parts)?;
    let (inc, parts) = read_u32(parts)?;
    let (seq, parts) = read_u32(parts)?;
    parts.end()?;
    Some(CallId { client, inc, seq })
}

/// The next word as a call, `client.incarnation.sequence`, and the words behind it. None where it isn't one.
pub fn read_id(fields: Fields<'_>) -> Option<(CallId, Fields<'_>)>
    ensures value { option_map (λ x. (x.0, left x.1)) result ≡ id_at (left fields.entry) }
    ensures shorter { IfSome result (λ x. size x.1 ≤ size fields.entry) }
{
    let (word, rest) = fields.next()?;
    Some((id_from(word)?, rest))
}

/// The incarnation and the sequence number that a word spells, `incarnation.sequence`. None where it spells none.
#[tactic(auto, unfolding(crate::specs::Fields::call_of))]
pub fn call_from(word: &[u8]) -> Option<(u32, u32)>
    ensures { result ≡ call_of word.now }
{
    let parts = Fields::of(word, Separator::Dot);
    let (inc, parts) = read_u32(parts)?;
    let (seq, parts) = read_u32(parts)?;
    parts.end()?;
    Some((inc, seq))
}

// From whom to whom, as a word.
#[tactic(auto, unfolding(crate::specs::Fields::route_of))]
fn route_from(word: &[u8]) -> Option<(HostId, HostId)>
    ensures { result ≡ route_of word.now }
{
    let parts = Fields::of(word, Separator::Arrow);
    let (from, parts) = read_host(parts)?;
    let (to, parts) = read_host(parts)?;
    parts.end()?;
    Some((from, to))
}

/// The next word as a route, `from>to`, and the words behind it. None where it isn't one.
pub fn read_route(fields: Fields<'_>) -> Option<((HostId, HostId), Fields<'_>)>
    ensures value { option_map (λ x. (x.0, left x.1)) result ≡ route_at (left fields.entry) }
    ensures shorter { IfSome result (λ x. size x.1 ≤ size fields.entry) }
{
    let (word, rest) = fields.next()?;
    Some((route_from(word)?, rest))
}

// The call that a DATA acknowledges, if any, as a word.
#[tactic(auto, unfolding(crate::specs::Fields::ack_of))]
fn ack_from(word: &[u8]) -> Option<Option<(u32, u32)>>
    ensures { result ≡ ack_of word.now }
{
    if word == b"-".as_slice() {
        return Some(None);
    }
    Some(Some(call_from(word)?))
}

/// The next word as the call that a DATA acknowledges, or a hyphen for none, and the words behind it. None where it is neither.
pub fn read_ack(fields: Fields<'_>) -> Option<(Option<(u32, u32)>, Fields<'_>)>
    ensures value { option_map (λ x. (x.0, left x.1)) result ≡ ack_at (left fields.entry) }
    ensures shorter { IfSome result (λ x. size x.1 ≤ size fields.entry) }
{
    let (word, rest) = fields.next()?;
    Some((ack_from(word)?, rest))
}

// Who sent a packet, as a word.
#[tactic(auto, unfolding(crate::specs::Fields::role_of))]
fn role_from(word: &[u8]) -> Option<Role>
    ensures { result ≡ role_of word.now }
{
    match word {
        b"c" => Some(Role::Client),
        b"s" => Some(Role::Server),
        _ => None,
    }
}

/// The next word as who sent a packet, `c` or `s`, and the words behind it. None where it is neither.
pub fn read_role(fields: Fields<'_>) -> Option<(Role, Fields<'_>)>
    ensures value { option_map (λ x. (x.0, left x.1)) result ≡ role_at (left fields.entry) }
    ensures shorter { IfSome result (λ x. size x.1 ≤ size fields.entry) }
{
    let (word, rest) = fields.next()?;
    Some((role_from(word)?, rest))
}

// Why a call failed, as a word.
#[tactic(auto, unfolding(crate::specs::Fields::why_of))]
fn why_from(word: &[u8]) -> Option<Why>
    ensures { result ≡ why_of word.now }
{
    if word == b"timeout".as_slice() {
        return Some(Why::Timeout);
    }
    if word == b"forgotten".as_slice() {
        return Some(Why::Forgotten);
    }
    None
}

/// The next word as why a call failed, `timeout` or `forgotten`, and the words behind it. None where it is neither.
pub fn read_why(fields: Fields<'_>) -> Option<(Why, Fields<'_>)>
    ensures value { option_map (λ x. (x.0, left x.1)) result ≡ why_at (left fields.entry) }
    ensures shorter { IfSome result (λ x. size x.1 ≤ size fields.entry) }
{
    let (word, rest) = fields.next()?;
    Some((why_from(word)?, rest))
}

// Bytes in lower-case hex, or none for a hyphen, as a word. They are put into the front of `out`.
#[tactic(auto, unfolding(crate::specs::Fields::hex_of))]
fn hex_from<'a>(word: &[u8], out: &'a mut [u8]) -> Option<(&'a [u8], &'a mut [u8])>
    requires { length word.now ≤ 2 * length out.old }
    ensures value { option_map (λ x. x.0.now) result ≡ hex_of word.now }
    ensures room { IfSome result (λ x. 2 * length out.old ≤ length word.now + 2 * length x.1.now) }
{
    if word.is_empty() {
        return None;
    }
    if word == b"-".as_slice() {
        return Some((&[], out));
    }
    if word.len() % 2 == 1 {
        return None;
    }
    let (bytes, rest) = out.split_at_mut(word.len() / 2);
    if read_pairs(word, bytes) {
        Some((bytes, rest))
    } else {
        None
    }
}

/// The next word as bytes in lower-case hex, or a hyphen for none, which are put into the front of `out`; what is left of `out`,
/// and the words behind it. None where it spells no bytes, and then `out` holds anything.
pub fn read_hex<'a, 'b>(
    fields: Fields<'b>,
    out: &'a mut [u8],
) -> Option<(&'a [u8], &'a mut [u8], Fields<'b>)>
    requires { size fields ≤ 2 * length out.old }
    ensures value { option_map (λ x. (x.0.now, left x.2)) result ≡ hex_at (left fields.entry) }
    ensures room { IfSome result (λ x. size x.2 ≤ 2 * length x.1.now) }
{
    let (word, rest) = fields.next()?;
    let (bytes, out) = hex_from(word, out)?;
    Some((bytes, out, rest))
}

/// All that is left as bytes in lower-case hex, or a hyphen for none, which are put into the front of `out`. None where it isn't one
/// such word, and then `out` holds anything. No separator is looked for: it is no digit, so that hex in which one stands is refused.
pub fn read_last_hex<'a>(fields: Fields<'_>, out: &'a mut [u8]) -> Option<&'a [u8]>
    requires { size fields ≤ 2 * length out.old }
    ensures { option_map (λ x. x.now) result ≡ whole (λ bytes. bytes) hex_at (left fields.entry) }
{
    let (bytes, _) = hex_from(fields.rest?, out)?;
    Some(bytes)
}
