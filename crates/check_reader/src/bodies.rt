// Packets that are read from the words behind their call.
ghost use Rattle.std.specs.Prelude.{◌≡◌, ◌*◌, ◌^◌, ◌≤◌, length, IfSome};
ghost use Rattle.std.specs.Option.{option_map};
ghost use Rattle.check_words.specs.Fields.{times, word_at, number_at, cutoffs_at, ended};
ghost use Rattle.check_words.specs.FieldsLeft.{left, size};
ghost use Rattle.check_reader.specs.Bodies.{bare, kind_of, calls_in, piece_at, data_in, grant_in, resend_in, body_in};

use check_words::{Fields, call_from, read_ack, read_last_hex, read_u8, read_u16, read_u32};
use homa_plain::{Body, Cutoffs, Kind, More};

// A packet's kind, as a word.
#[tactic(auto, unfolding(crate::specs::Bodies::kind_of))]
fn kind_from(word: &[u8]) -> Option<Kind>
    ensures { result ≡ kind_of word.now }
{
    Kind::ALL.iter().copied().find(|kind| word == kind.word())
}

// A packet's kind.
pub(crate) fn read_kind(words: Fields<'_>) -> Option<(Kind, Fields<'_>)>
    ensures value { option_map (λ x. (x.0, left x.1)) result ≡ word_at kind_of (left words.entry) }
    ensures shorter { IfSome result (λ x. size x.1 ≤ size words.entry) }
{
    let (word, rest) = words.next()?;
    Some((kind_from(word)?, rest))
}

// As many numbers as `numbers` has room for.
pub(crate) fn read_numbers<'a>(words: Fields<'a>, numbers: &mut [u32]) -> Option<Fields<'a>>
    ensures value { option_map (λ rest. (numbers.new, left rest)) result ≡ times (number_at (2 ^ 32)) (length numbers.old) (left words.entry) }
    ensures shorter { IfSome result (λ rest. size rest ≤ size words.entry) }
{
    let mut rest = words;
    for n in numbers.iter_mut() {
        let (value, behind) = read_u32(rest)?;
        *n = value;
        rest = behind;
    }
    Some(rest)
}

// A version and eight bounds.
#[tactic(auto, unfolding(check_words::specs::Fields::cutoffs_at))]
pub(crate) fn read_cutoffs(words: Fields<'_>) -> Option<(Cutoffs, Fields<'_>)>
    ensures value { option_map (λ x. (x.0, left x.1)) result ≡ cutoffs_at (left words.entry) }
    ensures shorter { IfSome result (λ x. size x.1 ≤ size words.entry) }
{
    let (version, words) = read_u16(words)?;
    let mut upto = [0; 8];
    let words = read_numbers(words, &mut upto)?;
    Some((Cutoffs { version, upto }, words))
}

// At most four calls, and no other word.
fn read_calls(words: Fields<'_>) -> Option<More>
    ensures { result ≡ calls_in 4 (left words.entry) }
{
    let mut more = More::empty();
    let mut rest = words;
    while let Some((word, behind)) = rest.next() {
        if more.calls().len() == 4 {
            return None;
        }
        let (inc, seq) = call_from(word)?;
        more.push(inc, seq);
        rest = behind;
    }
    Some(more)
}

// A DATA without its level and its payload.
#[tactic(auto, unfolding(crate::specs::Bodies::piece_at))]
fn read_piece(words: Fields<'_>) -> Option<(Body, Fields<'_>)>
    ensures value { option_map (λ x. (x.0, left x.1)) result ≡ piece_at (left words.entry) }
    ensures shorter { IfSome result (λ x. size x.1 ≤ size words.entry) }
{
    let (length, words) = read_u32(words)?;
    let (offset, words) = read_u32(words)?;
    let (version, words) = read_u16(words)?;
    let (service, words) = read_u8(words)?;
    let (ack, words) = read_ack(words)?;
    let body = Body::Data {
        length,
        offset,
        version,
        service,
        ack,
    };
    Some((body, words))
}

// A DATA.
#[tactic(auto, unfolding(crate::specs::Bodies::data_in))]
fn read_data<'a>(words: Fields<'_>, out: &'a mut [u8]) -> Option<(u8, Body, &'a [u8])>
    requires { size words ≤ 2 * length out.old }
    ensures { option_map (λ x. (x.0, x.1, x.2.now)) result ≡ data_in (left words.entry) }
{
    let (level, words) = read_u8(words)?;
    let (body, words) = read_piece(words)?;
    let payload = read_last_hex(words, out)?;
    Some((level, body, payload))
}

// A packet with no payload, whose level isn't told, where no word is left.
fn bare<'a>(words: Fields<'_>, body: Body) -> Option<(u8, Body, &'a [u8])>
    ensures { option_map (λ x. (x.0, x.1, x.2.now)) result ≡ ended (bare body) (left words.entry) }
{
    words.end()?;
    Some((7, body, &[]))
}

// A GRANT.
#[tactic(auto, unfolding(crate::specs::Bodies::grant_in))]
fn read_grant<'a>(words: Fields<'_>) -> Option<(u8, Body, &'a [u8])>
    ensures { option_map (λ x. (x.0, x.1, x.2.now)) result ≡ grant_in (left words.entry) }
{
    let (offset, words) = read_u32(words)?;
    let (prio, words) = read_u8(words)?;
    bare(words, Body::Grant { offset, prio })
}

// A RESEND.
#[tactic(auto, unfolding(crate::specs::Bodies::resend_in))]
fn read_resend<'a>(words: Fields<'_>) -> Option<(u8, Body, &'a [u8])>
    ensures { option_map (λ x. (x.0, x.1, x.2.now)) result ≡ resend_in (left words.entry) }
{
    let (from, words) = read_u32(words)?;
    let (to, words) = read_u32(words)?;
    let (prio, words) = read_u8(words)?;
    bare(words, Body::Resend { from, to, prio })
}

// Level, body and payload of a packet of this kind. But for DATA, the level isn't told and is 7.
#[tactic(auto, unfolding(crate::specs::Bodies::body_in))]
pub(crate) fn read_body<'a>(
    kind: Kind,
    words: Fields<'_>,
    out: &'a mut [u8],
) -> Option<(u8, Body, &'a [u8])>
    requires { size words ≤ 2 * length out.old }
    ensures { option_map (λ x. (x.0, x.1, x.2.now)) result ≡ body_in kind (left words.entry) }
{
    match kind {
        Kind::Data => read_data(words, out),
        Kind::Grant => read_grant(words),
        Kind::Resend => read_resend(words),
        Kind::Busy => bare(words, Body::Busy),
        Kind::Cutoffs => {
            let (cutoffs, words) = read_cutoffs(words)?;
            bare(words, Body::Cutoffs(cutoffs))
        }
        Kind::Unknown => {
            let (reason, words) = read_u8(words)?;
            bare(words, Body::Unknown { reason })
        }
        Kind::NeedAck => bare(words, Body::NeedAck),
        Kind::Ack => Some((
            7,
            Body::Ack {
                more: read_calls(words)?,
            },
            &[],
        )),
    }
}
