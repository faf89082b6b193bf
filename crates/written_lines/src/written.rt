// The words of a line that is written.
ghost use Rattle.std.specs.Prelude.{◌≡◌, ◌+◌, ◌≤◌, ◌++◌, decimal};
ghost use Rattle.homa_plain.specs.Text.{id_word, call_word, route_word};
ghost use Rattle.arrayvec.specs.ArrayVec.{array_vec_len};

use crate::adding::add_number;
use arrayvec::ArrayVec;
use homa_plain::{CallId, HostId};

/// A word of a line.
#[derive(Clone, Copy, Debug, PartialEq, Eq)]
pub enum Word<'a> {
    /// These bytes, as they are.
    Text(&'a [u8]),
    /// A number in decimal digits.
    Number(u64),
    /// Bytes in lower-case hex; a hyphen where there are none.
    Hex(&'a [u8]),
    /// A host's number, as `3`.
    Host(HostId),
    /// A call: its client, the client's incarnation and the sequence number, with dots between them.
    Id(CallId),
    /// From whom to whom, with `>` between them.
    Route(HostId, HostId),
    /// An incarnation and a sequence number, with a dot between them.
    Call(u32, u32),
}

impl Default for Word<'_> {
    ghost use Rattle.std.specs.Prelude.{◌≡◌, []};
    ghost use Rattle.written_lines.specs.Written.{word_text};

    ghost is_default = { λ word. word_text word ≡ [] };

    /// A text of no bytes.
    fn default() -> Self {
        Word::Text(b"")
    }
}

// A text of numbers, which are three at most.
pub(crate) type NumberText = ArrayVec<u8, 64>;

// The decimal digits of a number.
pub(crate) fn number_text(n: u64) -> NumberText
    ensures { result.items ≡ decimal n }
{
    let mut text = NumberText::new();
    add_number(&mut text, n);
    text
}

// From whom to whom.
pub(crate) fn route_text(from: HostId, to: HostId) -> NumberText
    ensures { result.items ≡ route_word from to }
{
    let mut text = NumberText::new();
    add_number(&mut text, u64::from(from.0));
    text.push(b'>');
    add_number(&mut text, u64::from(to.0));
    text
}

// Adds an incarnation and a sequence number.
fn add_call(text: &mut NumberText, inc: u32, seq: u32)
    requires { array_vec_len text.old + 41 ≤ 64 }
    ensures { text.new.items ≡ text.old.items ++ call_word (inc, seq) }
{
    add_number(text, u64::from(inc));
    text.push(b'.');
    add_number(text, u64::from(seq));
}

// An incarnation and a sequence number.
pub(crate) fn call_text(inc: u32, seq: u32) -> NumberText
    ensures { result.items ≡ call_word (inc, seq) }
{
    let mut text = NumberText::new();
    add_call(&mut text, inc, seq);
    text
}

// A call with its client.
pub(crate) fn id_text(id: CallId) -> NumberText
    ensures { result.items ≡ id_word id }
{
    let mut text = NumberText::new();
    add_number(&mut text, u64::from(id.client.0));
    text.push(b'.');
    add_call(&mut text, id.inc, id.seq);
    text
}
