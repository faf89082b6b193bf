// The words of an entry.
ghost use Rattle.std.specs.Prelude.{◌≡◌, ◌+◌, ◌≤◌, ◌++◌, [], ◌∷◌, length, map, codes, decimal};
ghost use Rattle.arrayvec.specs.ArrayVec.{array_vec_len};
ghost use Rattle.homa_plain.specs.Entries.{plain};
ghost use Rattle.homa_plain.specs.Settings.{setting};
ghost use Rattle.homa_plain.specs.Text.{settings_words, cutoffs_words, call_word, host_word, id_word, hex_word, fault_words, ack_word, role_word};
ghost use Rattle.homa_plain.specs.Text.{body_words, why_word, entry_words};
ghost use Rattle.written_lines.specs.Written.{word_text};

use crate::fault_words::push_fault;
use arrayvec::ArrayVec;
use homa_plain::{Body, CallId, Cutoffs, Entry, HostId, LineFault, Name, Role, Settings, Why};
use text_lines::told_settings;
use written_lines::Word::{self, Call, Hex, Host, Id, Number, Route, Text};

// The words of a line; no entry has more than sixteen.
pub(crate) type WordList<'a> = ArrayVec<Word<'a>, 16>;

// Adds words to the end of the list.
pub(crate) fn push_all<'a>(list: &mut WordList<'a>, words: &[Word<'a>])
    requires { array_vec_len list.old + length words.now ≤ 16 }
    ensures texts { map word_text list.new.items ≡ map word_text list.old.items ++ map word_text words.now }
    ensures len { array_vec_len list.new ≡ array_vec_len list.old + length words.now }
{
    list.try_extend_from_slice(words).unwrap();
}

// Makes a name, and words after it.
fn list_of<'a>(name: &'a [u8], words: &[Word<'a>]) -> WordList<'a>
    requires { length words.now ≤ 15 }
    ensures texts { map word_text result.items ≡ name.now ∷ map word_text words.now }
    ensures len { array_vec_len result ≡ length words.now + 1 }
{
    let mut list = WordList::new();
    list.push(Text(name));
    push_all(&mut list, words);
    list
}

// Adds numbers, each as one word.
fn push_numbers(list: &mut WordList<'_>, numbers: &[u32])
    requires { array_vec_len list.old + length numbers.now ≤ 16 }
    ensures { map word_text list.new.items ≡ map word_text list.old.items ++ map decimal numbers.now }
{
    for n in numbers {
        list.push(Number(u64::from(*n)));
    }
}

// Adds calls, each as one word.
fn push_calls(list: &mut WordList<'_>, calls: &[(u32, u32)])
    requires { array_vec_len list.old + length calls.now ≤ 16 }
    ensures { map word_text list.new.items ≡ map word_text list.old.items ++ map call_word calls.now }
{
    for (inc, seq) in calls {
        list.push(Call(*inc, *seq));
    }
}

// Adds the numbers of the settings that have these names, each as one word.
fn push_settings(list: &mut WordList<'_>, s: &Settings, names: &[Name])
    requires { array_vec_len list.old + length names.now ≤ 16 }
    ensures { map word_text list.new.items ≡ map word_text list.old.items ++ map (λ name. decimal (setting s.now name)) names.now }
{
    for name in names {
        list.push(Number(u64::from(s.get(*name))));
    }
}

// The words of the settings' line: 13 to 15 numbers.
fn words_of_settings<'a>(s: &Settings) -> WordList<'a>
    ensures { map word_text result.items ≡ settings_words s.now }
{
    let mut list = list_of(b"settings", &[]);
    push_settings(&mut list, s, &Name::ALL[..told_settings(s)]);
    list
}

// Adds cutoffs: their version and eight bounds.
fn push_cutoffs(list: &mut WordList<'_>, cutoffs: &Cutoffs)
    requires { array_vec_len list.old ≤ 7 }
    ensures { map word_text list.new.items ≡ map word_text list.old.items ++ cutoffs_words cutoffs.now }
{
    push_all(list, &[Number(u64::from(cutoffs.version))]);
    push_numbers(list, &cutoffs.upto);
}

// Who sent a packet.
fn role_text<'a>(role: Role) -> Word<'a>
    ensures { word_text result ≡ role_word role }
{
    match role {
        Role::Client => Text(b"c"),
        Role::Server => Text(b"s"),
    }
}

// The call that a DATA acknowledges, if any.
fn ack_text<'a>(ack: Option<(u32, u32)>) -> Word<'a>
    ensures { word_text result ≡ ack_word ack }
{
    match ack {
        None => Text(b"-"),
        Some((inc, seq)) => Call(inc, seq),
    }
}

// Adds what a packet says.
fn push_body<'a>(list: &mut WordList<'a>, level: u8, body: &Body, payload: &'a [u8])
    requires { array_vec_len list.old ≤ 7 }
    ensures { map word_text list.new.items ≡ map word_text list.old.items ++ body_words level body.now payload.now }
{
    match *body {
        Body::Data {
            length,
            offset,
            version,
            service,
            ack,
        } => {
            let numbers = [
                u32::from(level),
                length,
                offset,
                u32::from(version),
                u32::from(service),
            ];
            push_numbers(list, &numbers);
            push_all(list, &[ack_text(ack), Hex(payload)]);
        }
        Body::Grant { offset, prio } => push_numbers(list, &[offset, u32::from(prio)]),
        Body::Resend { from, to, prio } => push_numbers(list, &[from, to, u32::from(prio)]),
        Body::Cutoffs(ref cutoffs) => push_cutoffs(list, cutoffs),
        Body::Unknown { reason } => push_numbers(list, &[u32::from(reason)]),
        Body::Ack { ref more } => push_calls(list, more.calls()),
        Body::Busy | Body::NeedAck => {}
    }
}

// Why a call failed.
fn why_text<'a>(why: Why) -> Word<'a>
    ensures { word_text result ≡ why_word why }
{
    match why {
        Why::Timeout => Text(b"timeout"),
        Why::Forgotten => Text(b"forgotten"),
    }
}

// A packet that is sent: who sends it, what it is and what it says.
fn words_of_send<'a>(
    sender: &[Word<'a>; 3],
    packet: &[Word<'a>; 3],
    level: u8,
    body: &Body,
    payload: &'a [u8],
) -> WordList<'a>
    ensures { map word_text result.items ≡ codes "send" ∷ map word_text sender.now ++ map word_text packet.now ++ body_words level body.now payload.now }
{
    let mut list = list_of(b"send", sender);
    push_all(&mut list, packet);
    push_body(&mut list, level, body, payload);
    list
}

// Rows or pages that a host lacks: two numbers of them.
fn full<'a>(host: HostId, id: CallId, what: &'a [u8], a: u32, b: u32) -> WordList<'a>
    ensures { map word_text result.items ≡ codes "full" ∷ host_word host ∷ id_word id ∷ what.now ∷ decimal a ∷ decimal b ∷ [] }
{
    let (a, b) = (Number(u64::from(a)), Number(u64::from(b)));
    list_of(b"full", &[Host(host), Id(id), Text(what), a, b])
}

// A call that starts.
fn words_of_call<'a>(id: CallId, server: HostId, service: u8, bytes: &'a [u8]) -> WordList<'a>
    ensures { map word_text result.items ≡ codes "call" ∷ id_word id ∷ host_word server ∷ decimal service ∷ hex_word bytes.now ∷ [] }
{
    let service = Number(u64::from(service));
    list_of(b"call", &[Id(id), Host(server), service, Hex(bytes)])
}

// A service that was called.
fn words_of_run<'a>(
    host: HostId,
    id: CallId,
    service: u8,
    request: &'a [u8],
    response: &'a [u8],
    hold: u32,
) -> WordList<'a>
    ensures { map word_text result.items ≡ codes "run" ∷ host_word host ∷ id_word id ∷ decimal service ∷ hex_word request.now
        ∷ hex_word response.now ∷ decimal hold ∷ [] }
{
    let mut list = list_of(b"run", &[Host(host), Id(id), Number(u64::from(service))]);
    push_all(
        &mut list,
        &[Hex(request), Hex(response), Number(u64::from(hold))],
    );
    list
}

// Cutoffs of a host.
fn words_of_balance<'a>(host: HostId, cutoffs: &Cutoffs) -> WordList<'a>
    ensures { map word_text result.items ≡ codes "balance" ∷ host_word host ∷ cutoffs_words cutoffs.now }
{
    let mut list = list_of(b"balance", &[Host(host)]);
    push_cutoffs(&mut list, cutoffs);
    list
}

// A line that is refused.
fn words_of_refusal<'a>(line: u64, fault: LineFault) -> WordList<'a>
    ensures { map word_text result.items ≡ codes "refused" ∷ decimal line ∷ fault_words fault }
{
    let mut list = list_of(b"refused", &[Number(line)]);
    push_fault(&mut list, fault);
    list
}

// A name and a word.
fn of_one<'a>(name: &'a [u8], a: Word<'a>) -> WordList<'a>
    ensures texts { map word_text result.items ≡ name.now ∷ word_text a.entry ∷ [] }
{
    list_of(name, &[a])
}

// A name and two words.
fn of_two<'a>(name: &'a [u8], a: Word<'a>, b: Word<'a>) -> WordList<'a>
    ensures texts { map word_text result.items ≡ name.now ∷ word_text a.entry ∷ word_text b.entry ∷ [] }
{
    list_of(name, &[a, b])
}

// A name and three words.
fn of_three<'a>(name: &'a [u8], a: Word<'a>, b: Word<'a>, c: Word<'a>) -> WordList<'a>
    ensures texts { map word_text result.items ≡ name.now ∷ word_text a.entry ∷ word_text b.entry ∷ word_text c.entry ∷ [] }
{
    list_of(name, &[a, b, c])
}

/// The words of an entry.
pub(crate) fn words_of_entry<'a>(entry: &Entry<'a>) -> WordList<'a>
    ensures { map word_text result.items ≡ entry_words (plain entry.now) }
{
    match *entry {
        Entry::Settings(ref settings) => words_of_settings(settings),
        Entry::Call {
            id,
            server,
            service,
            bytes,
        } => words_of_call(id, server, service, bytes),
        Entry::Deliver { packet } => of_one(b"deliver", Number(packet)),
        Entry::Clock { tick } => of_one(b"clock", Number(tick)),
        Entry::Restart { host, inc } => of_two(b"restart", Host(host), Number(u64::from(inc))),
        Entry::Inject { host, bytes } => of_two(b"inject", Host(host), Hex(bytes)),
        Entry::Shift { host, n } => of_two(b"shift", Host(host), Number(u64::from(n))),
        Entry::Junk { host } => of_one(b"junk", Host(host)),
        Entry::Stale { host, at, now } => of_three(b"stale", Host(host), Number(at), Number(now)),
        Entry::Send {
            number,
            from,
            to,
            inc,
            role,
            id,
            level,
            ref body,
            payload,
        } => {
            let sender = [Number(number), Route(from, to), Number(u64::from(inc))];
            let packet = [Text(body.kind().word()), role_text(role), Id(id)];
            words_of_send(&sender, &packet, level, body, payload)
        }
        Entry::Run {
            host,
            id,
            service,
            request,
            response,
            hold,
        } => words_of_run(host, id, service, request, response, hold),
        Entry::Done { id, bytes } => of_two(b"done", Id(id), Hex(bytes)),
        Entry::Fail { id, why } => of_two(b"fail", Id(id), why_text(why)),
        Entry::Drop { host, id } => of_two(b"drop", Host(host), Id(id)),
        Entry::Gaps { host, id } => of_two(b"gaps", Host(host), Id(id)),
        Entry::Bury { host, id, until } => of_three(b"bury", Host(host), Id(id), Number(until)),
        Entry::Free { host, id } => of_two(b"free", Host(host), Id(id)),
        Entry::FullRows {
            host,
            id,
            rows,
            limit,
        } => full(host, id, b"rows", rows, limit),
        Entry::FullPages {
            host,
            id,
            need,
            free,
        } => full(host, id, b"pages", need, free),
        Entry::Balance { host, ref cutoffs } => words_of_balance(host, cutoffs),
        Entry::Recv { host, from, bytes } => of_three(b"recv", Host(host), Host(from), Hex(bytes)),
        Entry::Finished { n } => of_one(b"ok", Number(n)),
        Entry::Refused { line, fault } => words_of_refusal(line, fault),
        Entry::Stalled { turns, now } => of_two(b"stalled", Number(turns), Number(now)),
    }
}
