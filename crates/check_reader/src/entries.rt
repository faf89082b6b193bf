// Entries that are read from the words of a line.
ghost use Rattle.std.specs.Prelude.{◌≡◌, ◌≢◌, ◌*◌, ◌≤◌, [], ◌∷◌, ◌++◌, length, IfSome, IfNone};
ghost use Rattle.std.specs.Option.{option_map};
ghost use Rattle.homa_plain.specs.Entries.{PlainEntry, plain};
ghost use Rattle.homa_plain.specs.Text.{line_text};
ghost use Rattle.check_words.specs.Fields.{ended};
ghost use Rattle.check_words.specs.FieldsLeft.{left, size};
ghost use Rattle.check_reader.specs.Forms.{form_name, form_of, last_two_in, with_numbers, settings_in, call_in, deliver_in, clock_in, restart_in, inject_in};
ghost use Rattle.check_reader.specs.Forms.{shift_in, stale_in, send_in, run_in, done_in, fail_in, drop_in, gaps_in, free_in, bury_in, junk_in};
ghost use Rattle.check_reader.specs.Forms.{lack_of, lack_in, full_in, balance_in, recv_in, finished_in, refused_in, stalled_in, form_in, entry_of};
ghost use Rattle.check_reader.specs.Told.{Fits, IsUsual};

use crate::bodies::{read_body, read_cutoffs, read_kind, read_numbers};
use crate::faults::read_fault;
use check_words::{
    Fields, Separator, read_hex, read_host, read_id, read_last_hex, read_role, read_route, read_u8,
    read_u32, read_u64, read_why,
};
use homa_plain::{Entry, Name, Settings};

// The first word of a line.
#[derive(Clone, Copy)]
pub(crate) enum Form {
    Settings,
    Call,
    Deliver,
    Clock,
    Restart,
    Inject,
    Shift,
    Junk,
    Stale,
    Send,
    Run,
    Done,
    Fail,
    Drop,
    Gaps,
    Bury,
    Free,
    Full,
    Balance,
    Recv,
    Finished,
    Refused,
    Stalled,
}

// What a host has no room for.
#[derive(Clone, Copy)]
pub(crate) enum Lack {
    Rows,
    Pages,
}

// All forms, the frequent ones first.
const FORMS: [Form; 23] = [
    Form::Send,
    Form::Deliver,
    Form::Clock,
    Form::Free,
    Form::Bury,
    Form::Call,
    Form::Run,
    Form::Done,
    Form::Fail,
    Form::Drop,
    Form::Stale,
    Form::Gaps,
    Form::Full,
    Form::Recv,
    Form::Inject,
    Form::Junk,
    Form::Restart,
    Form::Shift,
    Form::Balance,
    Form::Settings,
    Form::Finished,
    Form::Refused,
    Form::Stalled,
];

impl Form {
    // Its word.
    fn name(self) -> &'static [u8]
        ensures { result.now ≡ form_name self }
    {
        match self {
            Form::Settings => b"settings",
            Form::Call => b"call",
            Form::Deliver => b"deliver",
            Form::Clock => b"clock",
            Form::Restart => b"restart",
            Form::Inject => b"inject",
            Form::Shift => b"shift",
            Form::Junk => b"junk",
            Form::Stale => b"stale",
            Form::Send => b"send",
            Form::Run => b"run",
            Form::Done => b"done",
            Form::Fail => b"fail",
            Form::Drop => b"drop",
            Form::Gaps => b"gaps",
            Form::Bury => b"bury",
            Form::Free => b"free",
            Form::Full => b"full",
            Form::Balance => b"balance",
            Form::Recv => b"recv",
            Form::Finished => b"ok",
            Form::Refused => b"refused",
            Form::Stalled => b"stalled",
        }
    }
}

// The first word of a line.
#[tactic(auto, unfolding(crate::specs::Forms::form_of))]
pub(crate) fn form_from(word: &[u8]) -> Option<Form>
    ensures { result ≡ form_of word.now }
{
    FORMS.iter().copied().find(|form| word == form.name())
}

// `skew` and `wire`. From the end, `wire` is left out where it is 1, and then `skew` where it is 0.
#[tactic(auto, unfolding(crate::specs::Forms::last_two_in))]
fn read_last_two(words: Fields<'_>) -> Option<(u32, u32)>
    ensures { result ≡ last_two_in (left words.entry) }
{
    if words.is_empty() {
        return Some((0, 1));
    }
    let (skew, words) = read_u32(words)?;
    if words.is_empty() {
        return if skew == 0 { None } else { Some((skew, 1)) };
    }
    let (wire, words) = read_u32(words)?;
    words.end()?;
    if wire == 1 { None } else { Some((skew, wire)) }
}

// The settings whose first thirteen numbers these are.
fn with_numbers(numbers: &[u32; 13], skew: u32, wire: u32) -> Settings
    ensures { result ≡ with_numbers numbers.now (skew, wire) }
{
    let mut settings = Settings::usual();
    for (name, n) in Name::ALL.iter().zip(numbers) {
        settings.set(*name, *n);
    }
    Settings {
        skew,
        wire,
        ..settings
    }
}

// The settings: 13 to 15 numbers.
#[tactic(auto, unfolding(crate::specs::Forms::settings_in))]
fn read_settings(words: Fields<'_>) -> Option<Settings>
    ensures { result ≡ settings_in (left words.entry) }
{
    let mut numbers = [0; 13];
    let words = read_numbers(words, &mut numbers)?;
    let (skew, wire) = read_last_two(words)?;
    Some(with_numbers(&numbers, skew, wire))
}

// The entry, where no word is left.
fn ended<'a>(words: Fields<'_>, entry: Entry<'a>) -> Option<Entry<'a>>
    ensures { option_map plain result ≡ ended (plain entry.entry) (left words.entry) }
{
    words.end()?;
    Some(entry)
}

// A call that starts.
#[tactic(auto, unfolding(crate::specs::Forms::call_in))]
fn read_call<'a>(words: Fields<'_>, out: &'a mut [u8]) -> Option<Entry<'a>>
    requires { size words ≤ 2 * length out.old }
    ensures { option_map plain result ≡ call_in (left words.entry) }
{
    let (id, words) = read_id(words)?;
    let (server, words) = read_host(words)?;
    let (service, words) = read_u8(words)?;
    let bytes = read_last_hex(words, out)?;
    Some(Entry::Call {
        id,
        server,
        service,
        bytes,
    })
}

// A packet that reaches its host.
#[tactic(auto, unfolding(crate::specs::Forms::deliver_in))]
fn read_deliver<'a>(words: Fields<'_>) -> Option<Entry<'a>>
    ensures { option_map plain result ≡ deliver_in (left words.entry) }
{
    let (packet, words) = read_u64(words)?;
    ended(words, Entry::Deliver { packet })
}

// The clock's new tick.
#[tactic(auto, unfolding(crate::specs::Forms::clock_in))]
fn read_clock<'a>(words: Fields<'_>) -> Option<Entry<'a>>
    ensures { option_map plain result ≡ clock_in (left words.entry) }
{
    let (tick, words) = read_u64(words)?;
    ended(words, Entry::Clock { tick })
}

// Bytes that are no packet.
#[tactic(auto, unfolding(crate::specs::Forms::junk_in))]
fn read_junk<'a>(words: Fields<'_>) -> Option<Entry<'a>>
    ensures { option_map plain result ≡ junk_in (left words.entry) }
{
    let (host, words) = read_host(words)?;
    ended(words, Entry::Junk { host })
}

// A restart.
#[tactic(auto, unfolding(crate::specs::Forms::restart_in))]
fn read_restart<'a>(words: Fields<'_>) -> Option<Entry<'a>>
    ensures { option_map plain result ≡ restart_in (left words.entry) }
{
    let (host, words) = read_host(words)?;
    let (inc, words) = read_u32(words)?;
    ended(words, Entry::Restart { host, inc })
}

// An injection.
#[tactic(auto, unfolding(crate::specs::Forms::inject_in))]
fn read_inject<'a>(words: Fields<'_>, out: &'a mut [u8]) -> Option<Entry<'a>>
    requires { size words ≤ 2 * length out.old }
    ensures { option_map plain result ≡ inject_in (left words.entry) }
{
    let (host, words) = read_host(words)?;
    let bytes = read_last_hex(words, out)?;
    Some(Entry::Inject { host, bytes })
}

// A host's lead.
#[tactic(auto, unfolding(crate::specs::Forms::shift_in))]
fn read_shift<'a>(words: Fields<'_>) -> Option<Entry<'a>>
    ensures { option_map plain result ≡ shift_in (left words.entry) }
{
    let (host, words) = read_host(words)?;
    let (n, words) = read_u32(words)?;
    ended(words, Entry::Shift { host, n })
}

// A packet that comes too late.
#[tactic(auto, unfolding(crate::specs::Forms::stale_in))]
fn read_stale<'a>(words: Fields<'_>) -> Option<Entry<'a>>
    ensures { option_map plain result ≡ stale_in (left words.entry) }
{
    let (host, words) = read_host(words)?;
    let (at, words) = read_u64(words)?;
    let (now, words) = read_u64(words)?;
    ended(words, Entry::Stale { host, at, now })
}

// A packet that is sent.
#[tactic(auto, unfolding(crate::specs::Forms::send_in))]
fn read_send<'a>(words: Fields<'_>, out: &'a mut [u8]) -> Option<Entry<'a>>
    requires { size words ≤ 2 * length out.old }
    ensures { option_map plain result ≡ send_in (left words.entry) }
{
    let (number, words) = read_u64(words)?;
    let ((from, to), words) = read_route(words)?;
    let (inc, words) = read_u32(words)?;
    let (kind, words) = read_kind(words)?;
    let (role, words) = read_role(words)?;
    let (id, words) = read_id(words)?;
    let (level, body, payload) = read_body(kind, words, out)?;
    Some(Entry::Send {
        number,
        from,
        to,
        inc,
        role,
        id,
        level,
        body,
        payload,
    })
}

// A service that was called.
#[tactic(auto, unfolding(crate::specs::Forms::run_in))]
fn read_run<'a>(words: Fields<'_>, out: &'a mut [u8]) -> Option<Entry<'a>>
    requires { size words ≤ 2 * length out.old }
    ensures { option_map plain result ≡ run_in (left words.entry) }
{
    let (host, words) = read_host(words)?;
    let (id, words) = read_id(words)?;
    let (service, words) = read_u8(words)?;
    let (request, out, words) = read_hex(words, out)?;
    let (response, _, words) = read_hex(words, out)?;
    let (hold, words) = read_u32(words)?;
    let entry = Entry::Run {
        host,
        id,
        service,
        request,
        response,
        hold,
    };
    ended(words, entry)
}

// A response that is whole.
#[tactic(auto, unfolding(crate::specs::Forms::done_in))]
fn read_done<'a>(words: Fields<'_>, out: &'a mut [u8]) -> Option<Entry<'a>>
    requires { size words ≤ 2 * length out.old }
    ensures { option_map plain result ≡ done_in (left words.entry) }
{
    let (id, words) = read_id(words)?;
    let bytes = read_last_hex(words, out)?;
    Some(Entry::Done { id, bytes })
}

// A call that failed.
#[tactic(auto, unfolding(crate::specs::Forms::fail_in))]
fn read_fail<'a>(words: Fields<'_>) -> Option<Entry<'a>>
    ensures { option_map plain result ≡ fail_in (left words.entry) }
{
    let (id, words) = read_id(words)?;
    let (why, words) = read_why(words)?;
    ended(words, Entry::Fail { id, why })
}

// A request that is given up.
#[tactic(auto, unfolding(crate::specs::Forms::drop_in))]
fn read_drop<'a>(words: Fields<'_>) -> Option<Entry<'a>>
    ensures { option_map plain result ≡ drop_in (left words.entry) }
{
    let (host, words) = read_host(words)?;
    let (id, words) = read_id(words)?;
    ended(words, Entry::Drop { host, id })
}

// A message with too many gaps.
#[tactic(auto, unfolding(crate::specs::Forms::gaps_in))]
fn read_gaps<'a>(words: Fields<'_>) -> Option<Entry<'a>>
    ensures { option_map plain result ≡ gaps_in (left words.entry) }
{
    let (host, words) = read_host(words)?;
    let (id, words) = read_id(words)?;
    ended(words, Entry::Gaps { host, id })
}

// A call that is forgotten.
#[tactic(auto, unfolding(crate::specs::Forms::free_in))]
fn read_free<'a>(words: Fields<'_>) -> Option<Entry<'a>>
    ensures { option_map plain result ≡ free_in (left words.entry) }
{
    let (host, words) = read_host(words)?;
    let (id, words) = read_id(words)?;
    ended(words, Entry::Free { host, id })
}

// A call of which only that it ran is kept.
#[tactic(auto, unfolding(crate::specs::Forms::bury_in))]
fn read_bury<'a>(words: Fields<'_>) -> Option<Entry<'a>>
    ensures { option_map plain result ≡ bury_in (left words.entry) }
{
    let (host, words) = read_host(words)?;
    let (id, words) = read_id(words)?;
    let (until, words) = read_u64(words)?;
    ended(words, Entry::Bury { host, id, until })
}

// What a host has no room for, as a word.
#[tactic(auto, unfolding(crate::specs::Forms::lack_of))]
fn lack_from(word: &[u8]) -> Option<Lack>
    ensures { result ≡ lack_of word.now }
{
    if word == b"rows".as_slice() {
        return Some(Lack::Rows);
    }
    if word == b"pages".as_slice() {
        return Some(Lack::Pages);
    }
    None
}

// What a host has no room for: two numbers of rows or pages, and no other word.
#[tactic(auto, unfolding(crate::specs::Forms::lack_in))]
fn read_lack(words: Fields<'_>) -> Option<(Lack, u32, u32)>
    ensures { result ≡ lack_in (left words.entry) }
{
    let (word, words) = words.next()?;
    let lack = lack_from(word)?;
    let (a, words) = read_u32(words)?;
    let (b, words) = read_u32(words)?;
    words.end()?;
    Some((lack, a, b))
}

// A host that has no room for a call.
#[tactic(auto, unfolding(crate::specs::Forms::full_in))]
fn read_full<'a>(words: Fields<'_>) -> Option<Entry<'a>>
    ensures { option_map plain result ≡ full_in (left words.entry) }
{
    let (host, words) = read_host(words)?;
    let (id, words) = read_id(words)?;
    match read_lack(words)? {
        (Lack::Rows, rows, limit) => Some(Entry::FullRows {
            host,
            id,
            rows,
            limit,
        }),
        (Lack::Pages, need, free) => Some(Entry::FullPages {
            host,
            id,
            need,
            free,
        }),
    }
}

// Cutoffs of a host.
#[tactic(auto, unfolding(crate::specs::Forms::balance_in))]
fn read_balance<'a>(words: Fields<'_>) -> Option<Entry<'a>>
    ensures { option_map plain result ≡ balance_in (left words.entry) }
{
    let (host, words) = read_host(words)?;
    let (cutoffs, words) = read_cutoffs(words)?;
    ended(words, Entry::Balance { host, cutoffs })
}

// A datagram that reached a node's host.
#[tactic(auto, unfolding(crate::specs::Forms::recv_in))]
fn read_recv<'a>(words: Fields<'_>, out: &'a mut [u8]) -> Option<Entry<'a>>
    requires { size words ≤ 2 * length out.old }
    ensures { option_map plain result ≡ recv_in (left words.entry) }
{
    let (host, words) = read_host(words)?;
    let (from, words) = read_host(words)?;
    let bytes = read_last_hex(words, out)?;
    Some(Entry::Recv { host, from, bytes })
}

// A line that is refused.
#[tactic(auto, unfolding(crate::specs::Forms::refused_in))]
fn read_refused<'a>(words: Fields<'_>) -> Option<Entry<'a>>
    ensures { option_map plain result ≡ refused_in (left words.entry) }
{
    let (line, words) = read_u64(words)?;
    let fault = read_fault(words)?;
    Some(Entry::Refused { line, fault })
}

// A run that ended.
#[tactic(auto, unfolding(crate::specs::Forms::finished_in))]
fn read_finished<'a>(words: Fields<'_>) -> Option<Entry<'a>>
    ensures { option_map plain result ≡ finished_in (left words.entry) }
{
    let (n, words) = read_u64(words)?;
    ended(words, Entry::Finished { n })
}

// A node that did its last turn.
#[tactic(auto, unfolding(crate::specs::Forms::stalled_in))]
fn read_stalled<'a>(words: Fields<'_>) -> Option<Entry<'a>>
    ensures { option_map plain result ≡ stalled_in (left words.entry) }
{
    let (turns, words) = read_u64(words)?;
    let (now, words) = read_u64(words)?;
    ended(words, Entry::Stalled { turns, now })
}

// The entry of a line that begins with this word.
#[tactic(auto, unfolding(crate::specs::Forms::form_in))]
pub(crate) fn read_form<'a>(form: Form, words: Fields<'_>, out: &'a mut [u8]) -> Option<Entry<'a>>
    requires { size words ≤ 2 * length out.old }
    ensures { option_map plain result ≡ form_in form (left words.entry) }
{
    match form {
        Form::Settings => Some(Entry::Settings(read_settings(words)?)),
        Form::Call => read_call(words, out),
        Form::Deliver => read_deliver(words),
        Form::Clock => read_clock(words),
        Form::Restart => read_restart(words),
        Form::Inject => read_inject(words, out),
        Form::Shift => read_shift(words),
        Form::Junk => read_junk(words),
        Form::Stale => read_stale(words),
        Form::Send => read_send(words, out),
        Form::Run => read_run(words, out),
        Form::Done => read_done(words, out),
        Form::Fail => read_fail(words),
        Form::Drop => read_drop(words),
        Form::Gaps => read_gaps(words),
        Form::Bury => read_bury(words),
        Form::Free => read_free(words),
        Form::Full => read_full(words),
        Form::Balance => read_balance(words),
        Form::Recv => read_recv(words, out),
        Form::Finished => read_finished(words),
        Form::Refused => read_refused(words),
        Form::Stalled => read_stalled(words),
    }
}

/// The entry of a line.
#[tactic(auto, unfolding(crate::specs::Forms::entry_of, crate::specs::Forms::entry_in))]
fn read_line<'a>(line: &[u8], bytes: &'a mut [u8]) -> Option<Entry<'a>>
    requires { length line.now ≤ 2 * length bytes.old }
    ensures { option_map plain result ≡ entry_of line.now }
{
    let (word, words) = Fields::of(line, Separator::Space).next()?;
    let form = form_from(word)?;
    read_form(form, words, bytes)
}

/// Reads a line, without its line feed, as the entry whose line it is. The entry's bytes are put into the front
/// of `bytes`; no memory is taken. `None` exactly where it is the line of no entry. A line tells level and payload
/// of DATA alone; another packet is read with level 7 and no payload.
pub fn read_entry<'a>(line: &[u8], bytes: &'a mut [u8]) -> Option<Entry<'a>>
    requires { length line.now ≤ 2 * length bytes.old }
    ensures line { IfSome result (λ e. line_text (plain e) ≡ line.now ++ 10 ∷ []) }
    ensures fits { IfSome result (λ e. Fits (plain e)) }
    ensures usual { IfSome result (λ e. IsUsual (plain e)) }
    ensures none { IfNone result ((e : PlainEntry) → Fits e → line_text e ≢ line.now ++ 10 ∷ []) }
{
    read_line(line, bytes)
}
