// What a host asks and tells, as C has it.
ghost use Rattle.std.specs.Prelude.{◌≡◌};
ghost use Rattle.homa_c.specs.Shown.{shown_call, given_call, shown_asked, shown_why, shown_peer, shown_entry, shown_more};
ghost use Rattle.homa_c.specs.Shown.{no_call, of_call, of_none, of_service};
ghost use Rattle.homa_plain.specs.Entries.{plain};

use crate::results::{
    BALANCED, BURIED, CALLED, DONE, DROPPED, FORGOTTEN, FREED, GAPS, JUNK, NO_PAGES, NO_PEER,
    NO_ROW, OTHER, RAN, SENT, STALE, TIMEOUT,
};
use homa_host::Asked;
use homa_plain::{CallId, Entry, HostId, Why};

/// A call: its client, the client's incarnation at the call, and its number among that client's calls.
#[repr(C)]
#[derive(Drop)]
pub struct HomaCall {
    pub client: u16,
    pub inc: u32,
    pub seq: u32,
}

/// A call whose request is whole, and the number of the service that it asks, 0 to 255.
#[repr(C)]
#[derive(Drop)]
pub struct HomaAsked {
    pub id: HomaCall,
    pub service: u32,
}

/// What an entry tells: its kind, and the call, the service and the number that the kind has (`shown_entry`).
#[repr(C)]
#[derive(Drop)]
pub struct HomaEntry {
    pub kind: u32,
    pub service: u32,
    pub id: HomaCall,
    pub len: usize,
}

/// What more an entry tells: the other host, or 65,535, and a second number that the kind has (`shown_more`).
#[repr(C)]
#[derive(Drop)]
pub struct HomaMore {
    pub peer: u16,
    pub at: u64,
}

// A call as C has it.
pub(crate) fn call_of(id: CallId) -> HomaCall
    ensures { result ≡ shown_call id }
{
    HomaCall {
        client: id.client.0,
        inc: id.inc,
        seq: id.seq,
    }
}

// A call that C gives.
pub(crate) fn given_call(id: &HomaCall) -> CallId
    ensures { result ≡ given_call id.now }
{
    CallId {
        client: HostId(id.client),
        inc: id.inc,
        seq: id.seq,
    }
}

// A call that asks a service, as C has it.
pub(crate) fn asked_of(asked: Asked) -> HomaAsked
    ensures { result ≡ shown_asked asked }
{
    HomaAsked {
        id: call_of(asked.id),
        service: u32::from(asked.number),
    }
}

// A call that there isn't.
fn no_call() -> HomaCall
    ensures { result ≡ no_call }
{
    HomaCall {
        client: 0,
        inc: 0,
        seq: 0,
    }
}

// An entry of a call and a number alone.
fn of_call(kind: u32, id: CallId, len: usize) -> HomaEntry
    ensures { result ≡ of_call kind id len }
{
    HomaEntry {
        kind,
        service: 0,
        id: call_of(id),
        len,
    }
}

// An entry of a number alone.
fn of_none(kind: u32, len: usize) -> HomaEntry
    ensures { result ≡ of_none kind len }
{
    HomaEntry {
        kind,
        service: 0,
        id: no_call(),
        len,
    }
}

// An entry of a call of a service.
fn of_service(kind: u32, id: CallId, service: u8, len: usize) -> HomaEntry
    ensures { result ≡ of_service kind id service len }
{
    HomaEntry {
        kind,
        service: u32::from(service),
        id: call_of(id),
        len,
    }
}

// An entry as C has it.
pub(crate) fn entry_of(entry: &Entry<'_>) -> HomaEntry
    ensures { result ≡ shown_entry (plain entry.now) }
{
    match entry {
        Entry::Run {
            id,
            service,
            request,
            ..
        } => of_service(RAN, *id, *service, request.len()),
        Entry::Done { id, bytes } => of_call(DONE, *id, bytes.len()),
        Entry::Fail { id, why } => of_call(kind_of(*why), *id, 0),
        Entry::Junk { .. } => of_none(JUNK, 0),
        Entry::Stale { .. } => of_none(STALE, 0),
        Entry::FullRows { id, rows, .. } => of_call(NO_ROW, *id, *rows as usize),
        Entry::FullPages { id, need, .. } => of_call(NO_PAGES, *id, *need as usize),
        Entry::Gaps { id, .. } => of_call(GAPS, *id, 0),
        Entry::Drop { id, .. } => of_call(DROPPED, *id, 0),
        Entry::Bury { id, .. } => of_call(BURIED, *id, 0),
        Entry::Free { id, .. } => of_call(FREED, *id, 0),
        Entry::Call {
            id,
            service,
            bytes,
            ..
        } => of_service(CALLED, *id, *service, bytes.len()),
        Entry::Send { id, payload, .. } => of_call(SENT, *id, payload.len()),
        Entry::Balance { cutoffs, .. } => of_none(BALANCED, cutoffs.version as usize),
        _ => of_none(OTHER, 0),
    }
}

// The kind of a failure.
fn kind_of(why: Why) -> u32
    ensures { result ≡ shown_why why }
{
    match why {
        Why::Timeout => TIMEOUT,
        Why::Forgotten => FORGOTTEN,
    }
}

// The number of a host, or that there is none.
fn peer_of(host: Option<HostId>) -> u16
    ensures { result ≡ shown_peer host }
{
    match host {
        Some(host) => host.0,
        None => NO_PEER,
    }
}

// A host and a number.
fn more(peer: u16, at: u64) -> HomaMore
    ensures { result ≡ record { peer = peer; at = at } }
{
    HomaMore { peer, at }
}

// What more an entry tells, where this host sent the datagram of the step.
pub(crate) fn more_of(from: Option<HostId>, entry: &Entry<'_>) -> HomaMore
    ensures { result ≡ shown_more from (plain entry.now) }
{
    let sender = peer_of(from);
    match entry {
        Entry::Done { .. }
        | Entry::Fail {
            why: Why::Forgotten,
            ..
        }
        | Entry::Junk { .. }
        | Entry::Gaps { .. } => more(sender, 0),
        Entry::Stale { at, .. } => more(sender, *at),
        Entry::FullPages { free, .. } => more(sender, u64::from(*free)),
        Entry::Run { id, .. } | Entry::Drop { id, .. } | Entry::Free { id, .. } => {
            more(id.client.0, 0)
        }
        Entry::FullRows { id, limit, .. } => more(id.client.0, u64::from(*limit)),
        Entry::Bury { id, until, .. } => more(id.client.0, *until),
        Entry::Call { server, .. } => more(server.0, 0),
        Entry::Send { to, body, .. } => more(to.0, u64::from(body.kind().number())),
        _ => more(NO_PEER, 0),
    }
}
