// How far a message is granted, and the GRANT that says so.
// Rule: up to `window` bytes beyond those that arrived. `grant_priorities` says at which priority.
ghost use Rattle.std.specs.Prelude.{◌≡◌, ◌+◌, ◌≤◌, IsSomeAnd, option_copied};
ghost use Rattle.homa_plain.specs.Grants.{new_end, seen as message_of};
ghost use Rattle.homa_plain.specs.Sending.{Arriving};
ghost use Rattle.homa_plain.specs.Work.{Work};
ghost use Rattle.msg_pool.specs.Pool.{Pool};
ghost use Rattle.homa_in.specs.Part.{IsIn, seen};
ghost use Rattle.homa_host.specs.Parts.{seen_of, IsKept};
ghost use Rattle.homa_host.specs.Granting.{ArrivesAt, IsPartOf, IsRaised};
ghost use Rattle.homa_host.specs.Amid.{Amid, Steady, HasRoom};
ghost use Rattle.host_books.specs.Ends.{grant_to};
ghost use Rattle.host_view.specs.Follow.{ChangesAt};

use crate::parts::{HostParts, Place, client_goes_on, server_goes_on};
use homa_in::Incoming;
use homa_plain::{Body, CallId, HostId, LONGEST_MESSAGE, Role};
use host_view::Outbox;

impl HostParts {
    // The message of a slot is granted to up to its new end, where that is more than it is granted already.
    pub(crate) fn grant(&mut self, slot: u32, prio: u8, out: &mut Outbox)
        requires kept { IsKept self.old }
        requires arrives { (a : Arriving) × ArrivesAt self.old slot a }
        requires prio { prio ≤ 7 }
        requires room { HasRoom 1 1 self.old out.old }
        ensures kept { IsKept self.new }
        ensures step { (a : Arriving) (w : Work) → ArrivesAt self.old slot a → Amid w self.old out.old
            → Amid (grant_to self.old.control.settings a prio w) self.new out.new }
        ensures changes { (a : Arriving) → ArrivesAt self.old slot a → ChangesAt a.place slot (seen_of self.old) (seen_of self.new) }
        ensures steady { Steady 1 1 0 self.old out.old self.new out.new }
    {
        let Some(part) = self.incoming(slot) else {
            unreachable!()
        };
        let offset = new_end_of(part, self.control.settings().window);
        if offset <= part.granted() {
            return;
        }
        let (role, id, server) = self.raise(slot, offset);
        let grant = Body::Grant { offset, prio };
        self.control.post(role, id, server, grant, out);
    }

    // The message that arrives in the row of a slot.
    fn incoming(&self, slot: u32) -> Option<&Incoming>
        requires kept { IsKept self.now }
        requires arrives { (a : Arriving) × ArrivesAt self.now slot a }
        ensures { (a : Arriving) → ArrivesAt self.now slot a → IsSomeAnd (option_copied result) (IsPartOf self.now.pool a) }
    {
        match self.place_of(slot) {
            Place::Client(place) => self.clients.incoming(place),
            Place::Server(place) => self.servers.incoming(place),
        }
    }

    // The row of a slot notes up to where its message is granted, and the books follow. The answer is the side of its call
    // at which the message comes in, the call, and the call's server.
    fn raise(&mut self, slot: u32, offset: u32) -> (Role, CallId, HostId)
        requires kept { IsKept self.old }
        requires arrives { (a : Arriving) × ArrivesAt self.old slot a × (a.message.granted ≤ offset) × (offset ≤ a.message.length) }
        ensures kept { IsKept self.new }
        ensures raised { (a : Arriving) → ArrivesAt self.old slot a → IsRaised self.old self.new slot a offset result.0 result.1 result.2 }
        ensures control { self.new.control ≡ self.old.control }
        ensures order { self.new.order ≡ self.old.order }
    {
        let calls = self.control.settings().calls;
        let now = self.control.last();
        match self.place_of(slot) {
            Place::Client(place) => {
                let facts = self.clients.row(place);
                self.clients.granted(place, offset, now);
                client_goes_on(&mut self.books, &self.clients, place);
                (Role::Client, facts.id, facts.peer)
            }
            Place::Server(place) => {
                let facts = self.servers.row(place);
                self.servers.granted(place, offset, now);
                server_goes_on(&mut self.books, &self.servers, calls, place);
                (Role::Server, facts.id, self.control.id())
            }
        }
    }
}

// How far a message that isn't whole is to be granted: `window` bytes beyond as many as have arrived.
fn new_end_of(part: &Incoming, window: u32) -> u32
    requires window { window ≤ LONGEST_MESSAGE }
    ensures end { (pool : Pool) → IsIn pool part.now → result ≡ new_end window (message_of (seen pool part.now)) }
    ensures within { result ≤ part.now.length }
    ensures small { result ≤ LONGEST_MESSAGE }
{
    part.len().min(part.arrived() + window)
}
