// The messages that a host may grant to.
ghost use Rattle.std.specs.Prelude.{◌≡◌, take, slice_get, IfOk, OnOk};
ghost use Rattle.plain_sets.specs.Ordered.{is_below, ordered, firsts};
ghost use Rattle.check_call.specs.Entered.{entered};
ghost use Rattle.check_call.specs.Choices.{sender_of, key_of, place_in, is_blocked};

use homa_plain::{CallId, HostId, Role};
use std::alloc::{AllocError, Global};

/// An incoming message, as the choice sees it: at a host of this role, of this call, from this sender.
#[derive(Clone, Copy, Debug, PartialEq, Eq)]
pub struct Message {
    pub role: Role,
    pub id: CallId,
    pub peer: HostId,
    pub length: u32,
    pub arrived: u32,
    pub granted: u32,
    pub order: u64,
}

impl Message {
    // It is chosen before another one: fewer of its bytes are missing, or as many, and it is older.
    fn is_before(&self, other: &Message) -> bool
        ensures { result ≡ is_below (key_of self.now) (key_of other.now) }
    {
        let own = self.length.saturating_sub(self.arrived);
        let its = other.length.saturating_sub(other.arrived);
        own < its || own == its && self.order < other.order
    }
}

// Where a message would enter a list: at the first that it is chosen before, or that is of its sender.
fn place_in(chosen: &[Message], message: &Message) -> usize
    ensures { result ≡ place_in message.now chosen.now }
{
    for (place, other) in chosen.iter().enumerate() {
        if message.is_before(other) || other.peer.0 == message.peer.0 {
            return place;
        }
    }
    chosen.len()
}

// At its place stands one of its sender, which it isn't chosen before.
fn is_blocked(chosen: &[Message], place: usize, message: &Message) -> bool
    ensures { result ≡ is_blocked message.now (slice_get chosen.now place) }
{
    match chosen.get(place) {
        Some(other) => !message.is_before(other),
        None => false,
    }
}

// A message enters a list at its place, unless one of its sender stands before it; one of its sender behind it goes.
fn enter(chosen: &mut Vec<Message>, message: Message) -> Result<(), AllocError>
    ensures { OnOk result (chosen.new.items ≡ entered sender_of key_of message chosen.old.items) }
{
    let place = place_in(chosen, &message);
    if is_blocked(chosen, place, &message) {
        return Ok(());
    }
    chosen.retain(|other| other.peer.0 != message.peer.0);
    chosen.insert(place, message)?;
    Ok(())
}

/// Of all messages in their order, the first k with different senders.
pub fn choose(alloc: Global, messages: &[Message], k: usize) -> Result<Vec<Message>, AllocError>
    ensures { IfOk result (λ r. r.items ≡ take k (firsts sender_of (ordered key_of messages.now))) }
{
    let mut chosen = Vec::new(alloc);
    for i in 0..messages.len() {
        enter(&mut chosen, messages[messages.len() - 1 - i])?;
        chosen.truncate(k);
    }
    Ok(chosen)
}
