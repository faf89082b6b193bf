// Whether a GRANT is one that its host may send.
ghost use Rattle.std.specs.Prelude.{◌≡◌, ◌+◌, ◌<◌, min, length};
ghost use Rattle.homa_check.specs.Grants.{new_end_of, is_told_to, is_grant_to, is_grant_among};
ghost use Rattle.trace_rules.specs.Judge.{is_role};

use check_call::Message;
use check_lines::{is_same, is_same_host};
use homa_plain::{CallId, HostId, Role};

/// A GRANT, with the words of its line.
#[derive(Clone, Copy, Debug, PartialEq, Eq)]
pub(crate) struct Grant {
    pub(crate) to: HostId,
    pub(crate) role: Role,
    pub(crate) id: CallId,
    pub(crate) offset: u32,
    pub(crate) prio: u8,
}

// Returns the end that is granted to a message, if it is chosen.
fn new_end(message: &Message, window: u32) -> u64
    ensures { result ≡ new_end_of window message.now }
{
    u64::from(message.length).min(u64::from(message.arrived) + u64::from(window))
}

// Whether two roles are the same.
fn is_same_role(a: Role, b: Role) -> bool
    ensures { result ≡ is_role a b }
{
    match a {
        Role::Client => b == Role::Client,
        Role::Server => b == Role::Server,
    }
}

// Whether a GRANT is for this message, up to this end, at this priority.
fn is_told(message: &Message, end: u64, prio: usize, grant: &Grant) -> bool
    ensures { result ≡ is_told_to end prio grant.now message.now }
{
    is_same_host(grant.to, message.peer)
        && is_same_role(grant.role, message.role)
        && is_same(grant.id, message.id)
        && u64::from(grant.offset) == end
        && grant.prio as usize == prio
}

// Whether a GRANT is for this message, which is chosen.
fn is_to(message: &Message, window: u32, prio: usize, grant: &Grant) -> bool
    ensures { result ≡ is_grant_to window prio grant.now message.now }
{
    let end = new_end(message, window);
    u64::from(message.granted) < end && is_told(message, end, prio, grant)
}

/// Whether a GRANT is for one of these messages, which are chosen, in order of rank.
pub(crate) fn is_granted(chosen: &[Message], window: u32, grant: &Grant) -> bool
    ensures { result ≡ is_grant_among window (length chosen.now) 0 grant.now chosen.now }
{
    for (rank, message) in chosen.iter().enumerate() {
        if is_to(message, window, chosen.len() - 1 - rank, grant) {
            return true;
        }
    }
    false
}
