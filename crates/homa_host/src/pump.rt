// Which packets of messages go out, and how many.
// Rules: SRPT (the message with the fewest bytes left goes first), credit, and at most 64 packets a step.
ghost use Rattle.std.specs.Prelude.{◌≡◌, ◌+◌, Some, IsSome};
ghost use Rattle.std.specs.Option.{option_map};
ghost use Rattle.homa_plain.specs.SentNext.{least};
ghost use Rattle.homa_plain.specs.Work.{Work};
ghost use Rattle.homa_plain.specs.SentNext.{pump};
ghost use Rattle.host_places.specs.Placed.{spot_at};
ghost use Rattle.homa_pacer.specs.Pace.{ready_key};
ghost use Rattle.homa_host.specs.Parts.{IsKept};
ghost use Rattle.homa_host.specs.Amid.{Amid, Steady, HasRoom, IsPumped};

use crate::parts::{HostParts, Place, client_goes_on, server_goes_on};
use homa_plain::Emitted;
use host_state::Leaving;
use host_view::Outbox;

/// How many packets a step sends at most.
const MOST_PACKETS: usize = 64;

/// What became of a message that was to be sent.
#[derive(Clone, Copy)]
pub(crate) enum Pumped {
    /// Its next piece was sent.
    Sent,
    /// It may not be sent any more.
    Idle,
    /// Its next piece costs more than the credit.
    Short,
}

impl HostParts {
    // The message that comes first goes on, until none may be sent, the credit is too small, or 64 packets were sent.
    pub(crate) fn pump(&mut self, out: &mut Outbox)
        requires kept { IsKept self.old }
        requires room { HasRoom 64 0 self.old out.old }
        ensures kept { IsKept self.new }
        ensures step { (w : Work) → Amid w self.old out.old → Amid (pump self.old.control.settings w) self.new out.new }
        ensures settings { self.new.control.settings ≡ self.old.control.settings }
    {
        'pieces: while out.len() < MOST_PACKETS {
            let Some(slot) = self.books.pacer.pick() else {
                return;
            };
            if let Pumped::Short = self.leave(slot, out) {
                return;
            }
        }
    }

    // The next piece of the message of a slot goes out.
    fn leave(&mut self, slot: u32, out: &mut Outbox) -> Pumped
        requires kept { IsKept self.old }
        requires picked { option_map (λ r. r.slot) (least ready_key self.old.books.pacer.ready) ≡ Some slot }
        requires room { HasRoom 1 1 self.old out.old }
        ensures kept { IsKept self.new }
        ensures pumped { IsPumped self.old out.old self.new out.new result }
        ensures steady { Steady 1 1 0 self.old out.old self.new out.new }
    {
        match self.place_of(slot) {
            Place::Client(place) => self.request_leaves(place, out),
            Place::Server(place) => self.response_leaves(place, out),
        }
    }
    // The next piece of the request in the row at a place goes out.
    fn request_leaves(&mut self, place: u32, out: &mut Outbox) -> Pumped
        requires kept { IsKept self.old }
        requires stands { IsSome (spot_at self.old.clients.rows place) }
        requires picked { option_map (λ r. r.slot) (least ready_key self.old.books.pacer.ready) ≡ Some place }
        requires room { HasRoom 1 1 self.old out.old }
        ensures kept { IsKept self.new }
        ensures pumped { IsPumped self.old out.old self.new out.new result }
        ensures steady { Steady 1 1 0 self.old out.old self.new out.new }
    {
        let facts = self.clients.row(place);
        let credit = self.books.pacer.credit();
        match self.clients.emit(place, self.control.last(), credit) {
            Emitted::Rests => {
                self.books.pacer.idle(place);
                Pumped::Idle
            }
            Emitted::Short => Pumped::Short,
            Emitted::Sent(from, to) => {
                let Some(message) = facts.out else {
                    unreachable!()
                };
                let piece = Leaving {
                    length: message.length,
                    from,
                    to,
                    prio: message.prio,
                    service: message.service,
                };
                let request = self.clients.request(place);
                self.control
                    .send_request(facts.id, facts.peer, piece, request, out);
                self.books.pacer.spend(to - from);
                client_goes_on(&mut self.books, &self.clients, place);
                Pumped::Sent
            }
        }
    }

    // The next piece of the response in the row at a place goes out.
    fn response_leaves(&mut self, place: u32, out: &mut Outbox) -> Pumped
        requires kept { IsKept self.old }
        requires stands { IsSome (spot_at self.old.servers.rows place) }
        requires picked { option_map (λ r. r.slot) (least ready_key self.old.books.pacer.ready) ≡ Some (self.old.control.settings.calls + place) }
        requires room { HasRoom 1 1 self.old out.old }
        ensures kept { IsKept self.new }
        ensures pumped { IsPumped self.old out.old self.new out.new result }
        ensures steady { Steady 1 1 0 self.old out.old self.new out.new }
    {
        let calls = self.control.settings().calls;
        let facts = self.servers.row(place);
        let credit = self.books.pacer.credit();
        match self.servers.emit(place, self.control.last(), credit) {
            Emitted::Rests => {
                self.books.pacer.idle(calls + place);
                Pumped::Idle
            }
            Emitted::Short => Pumped::Short,
            Emitted::Sent(from, to) => {
                let Some(message) = facts.out else {
                    unreachable!()
                };
                let Some(response) = self.servers.response(facts.id) else {
                    unreachable!()
                };
                let piece = Leaving {
                    length: message.length,
                    from,
                    to,
                    prio: message.prio,
                    service: 0,
                };
                self.control.send_response(facts.id, piece, response, out);
                self.books.pacer.spend(to - from);
                server_goes_on(&mut self.books, &self.servers, calls, place);
                Pumped::Sent
            }
        }
    }
}
