// The tests of a packet's fields: which values, roles, levels and payloads each kind has.
ghost use Rattle.std.specs.Prelude.{◌≡◌, ◌&&◌, ◌<◌, ◌^◌, ℕ, nat_le, nat_lt, length, ◌+◌};
ghost use Rattle.std.specs.List.{list_all};
ghost use Rattle.homa_plain.specs.Wire.{is_call, is_bare, is_between, is_of_role, is_server, fits_kind, latest};

use homa_plain::{Body, Cutoffs, LAST_HOST_TICK, LONGEST_MESSAGE, LONGEST_PIECE, More, Role};

pub fn is_call(call: (u32, u32)) -> bool
    ensures { result ≡ is_call call }
{
    1 <= call.0
}

/// Whether a packet has level 7 and no payload.
pub fn is_bare(level: u8, payload: &[u8]) -> bool
    ensures { result ≡ is_bare level payload.now }
{
    level == 7 && payload.is_empty()
}

/// Whether a piece fits its role: only a request's may have a service other than 0 or an acknowledgement.
fn fits_role(role: Role, service: u8, ack: Option<(u32, u32)>) -> bool
    ensures { result ≡ is_of_role role service ack }
{
    match (role, ack) {
        (Role::Client, None) => true,
        (Role::Client, Some(call)) => is_call(call),
        (Role::Server, None) => service == 0,
        (Role::Server, Some(_)) => false,
    }
}

fn fits_message(size: u32, offset: u32, payload: &[u8]) -> bool
    ensures { result ≡ (is_between 1 LONGEST_MESSAGE size && is_between 1 1400 (length payload.now)
        && nat_le (offset + length payload.now) size) }
{
    1 <= size
        && size <= LONGEST_MESSAGE
        && 1 <= payload.len()
        && payload.len() <= LONGEST_PIECE as usize
        && offset as usize + payload.len() <= size as usize
}

/// Whether these are a receiver's cutoffs: eight, none above the longest message.
fn fits_bounds(upto: &[u32; 8]) -> bool
    ensures eight { length upto.now ≡ 8 }
    ensures all { result ≡ list_all (λ bound. nat_le bound LONGEST_MESSAGE) upto.now }
{
    upto.iter().all(|bound| *bound <= LONGEST_MESSAGE)
}

fn fits_calls(calls: &[(u32, u32)]) -> bool
    ensures { result ≡ list_all is_call calls.now }
{
    calls.iter().all(|call| is_call(*call))
}

/// Whether a piece fits its packet, whatever the version of its cutoffs.
pub fn fits_piece(
    role: Role,
    level: u8,
    piece: (u32, u32),
    service: u8,
    ack: Option<(u32, u32)>,
    payload: &[u8],
) -> bool
    ensures { (version : ℕ) → version < 2 ^ 16
        → result ≡ fits_kind role level (Body.Data piece.0 piece.1 version service ack) payload.now }
{
    level <= 7 && fits_message(piece.0, piece.1, payload) && fits_role(role, service, ack)
}

pub fn fits_grant(level: u8, offset: u32, prio: u8, payload: &[u8]) -> bool
    ensures { result ≡ (is_bare level payload.now && is_between 1 LONGEST_MESSAGE offset && nat_le prio 7) }
{
    is_bare(level, payload) && 1 <= offset && offset <= LONGEST_MESSAGE && prio <= 7
}

pub fn fits_resend(level: u8, from: u32, to: u32, prio: u8, payload: &[u8]) -> bool
    ensures { result ≡ (is_bare level payload.now && nat_lt from to && nat_le to LONGEST_MESSAGE && nat_le prio 7) }
{
    is_bare(level, payload) && from < to && to <= LONGEST_MESSAGE && prio <= 7
}

pub fn fits_cutoffs(level: u8, cutoffs: &Cutoffs, payload: &[u8]) -> bool
    ensures eight { length cutoffs.now.upto ≡ 8 }
    ensures fits { result
        ≡ (is_bare level payload.now && list_all (λ bound. nat_le bound LONGEST_MESSAGE) cutoffs.now.upto) }
{
    is_bare(level, payload) && fits_bounds(&cutoffs.upto)
}

pub fn fits_unknown(role: Role, level: u8, reason: u8, payload: &[u8]) -> bool
    ensures { result ≡ (is_bare level payload.now && is_server role && nat_le reason 1) }
{
    is_bare(level, payload) && role == Role::Server && reason <= 1
}

pub fn fits_need_ack(role: Role, level: u8, payload: &[u8]) -> bool
    ensures { result ≡ (is_bare level payload.now && is_server role) }
{
    is_bare(level, payload) && role == Role::Server
}

pub fn fits_acks(role: Role, level: u8, more: &More, payload: &[u8]) -> bool
    ensures { result ≡ fits_kind role level (Body.Ack more.now) payload.now }
{
    is_bare(level, payload) && role == Role::Client && fits_calls(more.calls())
}

/// The latest clock that a packet may carry, in ticks.
pub fn latest(wire: u32) -> u64
    ensures { result ≡ latest wire }
{
    if wire == 1 { 0 } else { LAST_HOST_TICK }
}
