// What rows do by themselves, when their timers are due.
// Rules: a RESEND after silence, a timeout after `tries` of them, NEED_ACK, and when a held response, a response or a
// tombstone goes.
ghost use Rattle.std.specs.Prelude.{◌≡◌, ◌+◌, ◌<◌, ◌≤◌, ◌^◌, Some, [], IsSome, IsSomeAnd};
ghost use Rattle.std.specs.Option.{option_map};
ghost use Rattle.plain_sets.specs.Ordered.{first_of};
ghost use Rattle.homa_plain.specs.declared.id.CallId.{CallId};
ghost use Rattle.homa_plain.specs.Timers.{due};
ghost use Rattle.homa_plain.specs.Timers.{OfClient, OfServer, server_deadline, timers, timer_key as plain_key};
ghost use Rattle.homa_plain.specs.Work.{Work, now_of};
ghost use Rattle.homa_plain.specs.Steps.{acts, acts_at};
ghost use Rattle.step_laws.specs.StepLaws.{first_acts};
ghost use Rattle.host_places.specs.Placed.{StandsAt, spot_at};
ghost use Rattle.homa_client.specs.Held.{HeldRow};
ghost use Rattle.homa_client.specs.AtTable.{IsDueAt};
ghost use Rattle.homa_server.specs.Held.{HeldServer, seen_server};
ghost use Rattle.homa_timers.specs.Armed.{timer_key};
ghost use Rattle.homa_host.specs.Parts.{IsKept};
ghost use Rattle.homa_host.specs.Amid.{Amid, Steady, HasRoom};
ghost use Rattle.homa_host.specs.ServerFollow.{server_act_change, server_act_orders};

use crate::outcome::{Change, client_act_change, client_act_outcome, server_act_outcome};
use crate::parts::{HostParts, Place, follow_client, follow_server};
use homa_server::ServerAct;
use host_view::Outbox;

/// How many rows act in a turn at most.
const MOST_ACTS: u32 = 32;

impl HostParts {
    // The rows that are due act once each, by deadline and then by order, at most 32.
    pub(crate) fn act_all(&mut self, out: &mut Outbox)
        requires kept { IsKept self.old }
        requires order { self.old.order < 2 ^ 63 }
        requires none { self.old.control.marks ≡ [] }
        requires out { out.old ≡ [] }
        ensures kept { IsKept self.new }
        ensures step { (w : Work) → Amid w self.old out.old → Amid (acts self.old.control.settings w) self.new out.new }
        ensures steady { Steady 32 32 32 self.old out.old self.new out.new }
    {
        for _ in 0..MOST_ACTS {
            let Some(slot) = self.books.timers.due(self.control.last()) else {
                return;
            };
            self.act(slot, out);
        }
    }

    // The row of a slot acts.
    fn act(&mut self, slot: u32, out: &mut Outbox)
        requires kept { IsKept self.old }
        requires due { option_map (λ t. t.slot) (first_of (due timer_key self.old.control.last self.old.books.timers.timers)) ≡ Some slot }
        requires order { self.old.order < 2 ^ 63 + 32 }
        requires room { HasRoom 1 1 self.old out.old }
        ensures kept { IsKept self.new }
        ensures step { (w : Work) → Amid w self.old out.old
            → Amid (first_acts self.old.control.settings (first_of (due plain_key (now_of w) (timers self.old.control.settings w.host))) w) self.new out.new }
        ensures steady { Steady 1 1 1 self.old out.old self.new out.new }
    {
        match self.place_of(slot) {
            Place::Client(place) => self.client_acts(place, out),
            Place::Server(place) => self.server_acts(place, out),
        }
    }

    // The row at a place, whose timer is due, acts.
    fn client_acts(&mut self, place: u32, out: &mut Outbox)
        requires kept { IsKept self.old }
        requires stands { IsSome (spot_at self.old.clients.rows place) }
        requires due { IsDueAt self.old.control.settings self.old.control.last self.old.pool self.old.clients.rows place }
        requires order { self.old.order < 2 ^ 63 + 32 }
        requires room { HasRoom 1 1 self.old out.old }
        ensures kept { IsKept self.new }
        ensures step { (id : CallId) (r : HeldRow) (w : Work) → StandsAt self.old.clients.rows id place r → Amid w self.old out.old
            → Amid (acts_at self.old.control.settings (OfClient id) w) self.new out.new }
        ensures steady { Steady 1 1 0 self.old out.old self.new out.new }
    {
        let facts = self.clients.row(place);
        let prio = self.control.settings().asking_level();
        let now = self.control.last();
        let act = self.clients.act(place, now, &mut self.pool);
        let change = client_act_change(act, place);
        follow_client(&mut self.books, &self.clients, change);
        let outcome = client_act_outcome(act, prio);
        self.control
            .settle_client(facts.id, facts.peer, outcome, out);
    }

    // The row at a place, whose timer is due, acts.
    fn server_acts(&mut self, place: u32, out: &mut Outbox)
        requires kept { IsKept self.old }
        requires stands { IsSome (spot_at self.old.servers.rows place) }
        requires due { (id : CallId) (r : HeldServer) → StandsAt self.old.servers.rows id place r
            → IsSomeAnd (server_deadline self.old.control.settings (seen_server self.old.pool r)) (λ at. at ≤ self.old.control.last) }
        requires order { self.old.order < 2 ^ 63 + 32 }
        requires room { HasRoom 1 1 self.old out.old }
        ensures kept { IsKept self.new }
        ensures step { (id : CallId) (r : HeldServer) (w : Work) → StandsAt self.old.servers.rows id place r → Amid w self.old out.old
            → Amid (acts_at self.old.control.settings (OfServer id) w) self.new out.new }
        ensures steady { Steady 1 1 1 self.old out.old self.new out.new }
    {
        let facts = self.servers.row(place);
        let settings = *self.control.settings();
        let now = self.control.last();
        let act = self.servers.act(place, now, self.order, &mut self.pool);
        // For the proof: the table's rows stand at different places.
        let _rows = self.servers.rows();
        let change = server_act_change(act, place);
        self.order += server_act_orders(act);
        follow_server(&mut self.books, &self.servers, settings.calls, change);
        let outcome = server_act_outcome(act, settings.asking_level());
        self.control.settle_server(facts.id, outcome, out);
    }
}

// What became of the row at a place that acted.
fn server_act_change(act: ServerAct, place: u32) -> Change
    ensures { result ≡ server_act_change act place }
{
    match act {
        ServerAct::Drop(_) | ServerAct::Free(_) => Change::Goes(place),
        _ => Change::Stays(place),
    }
}

// How many order numbers the row took.
fn server_act_orders(act: ServerAct) -> u64
    ensures orders { result ≡ server_act_orders act }
    ensures one { result ≤ 1 }
{
    match act {
        ServerAct::Release => 1,
        _ => 0,
    }
}
