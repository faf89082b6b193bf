// The parts of a host: how they are opened, how a call starts, how each step ends, and how the books follow a row.
// Rules: a step ends with GRANTs and then DATA; each row has its timer, its place among granted messages, and its place
// in SRPT order.
ghost use Rattle.std.specs.Prelude.{◌≡◌, ◌+◌, ◌<◌, ◌≤◌, ◌^◌, Some, None, [], IfOk, IfErr, OnOk, OnErr};
ghost use Rattle.plain_sets.specs.Maps.{empty};
ghost use Rattle.homa_plain.specs.Settings.{IsValid};
ghost use Rattle.homa_plain.specs.Host.{new_host};
ghost use Rattle.homa_plain.specs.Work.{Work, begun};
ghost use Rattle.homa_plain.specs.Steps.{starts, start_fault, next_id, ended};
ghost use Rattle.homa_host.specs.Parts.{host_of, seen_of, IsKept};
ghost use Rattle.homa_host.specs.Places.{IsPlaceOf};
ghost use Rattle.homa_host.specs.Amid.{Amid, HasRoom, IsBegun};
ghost use Rattle.homa_host.specs.ServerFollow.{CanFollowServer, FollowedServer, WentOnServer};
ghost use Rattle.homa_host.specs.Outcomes.{CanFollowClient, FollowedClient, WentOnClient};
ghost use Rattle.homa_host.specs.declared.outcome.Change.TheVariants.{Stays};

use crate::outcome::{
    Change, client_duties, client_timer, client_waiting, server_duties, server_timer,
    server_waiting,
};
use homa_client::ClientTable;
use homa_plain::{CallId, HostId, LAST_HOST_TICK, Settings, StartFault};
use homa_server::ServerTable;
use host_books::{Books, Duties};
use host_state::Control;
use host_view::{Mark, Outbox};
use msg_pool::MsgPool;
use std::alloc::{AllocError, Global};

/// A host's control state, its rows, its books and its pages, which a step changes together.
#[derive(Drop)]
pub struct HostParts {
    pub(crate) control: Control,
    pub(crate) clients: ClientTable,
    pub(crate) servers: ServerTable,
    pub(crate) pool: MsgPool,
    pub(crate) books: Books,
    // The number of whatever is opened next.
    pub(crate) order: u64,
}

/// In which table the row of a slot stands, and at which place of it.
#[derive(Clone, Copy)]
pub(crate) enum Place {
    Client(u32),
    Server(u32),
}

impl HostParts {
    // A host without calls, in this incarnation, whose own clock stood at `last` at its last step.
    pub(crate) fn open(
        alloc: Global,
        id: HostId,
        inc: u32,
        last: u64,
        settings: &Settings,
    ) -> Result<HostParts, AllocError>
        requires valid { IsValid settings.now }
        requires id { id.0 < settings.now.hosts }
        requires inc { 1 ≤ inc }
        requires last { last ≤ LAST_HOST_TICK }
        ensures kept { IfOk result IsKept }
        ensures seen { IfOk result (λ p. seen_of p ≡ record {
          settings = settings.now;
          host = new_host settings.now id inc last;
          client_places = empty;
          server_places = empty;
          marks = [];
        }) }
    {
        // All are opened before any is looked at: where one fails, the others are dropped in one place.
        match (
            Control::open(alloc, id, inc, last, settings),
            ClientTable::open(alloc, id, inc, 0, settings),
            ServerTable::open(alloc, id, settings),
            MsgPool::new(alloc, settings.pages),
            Books::open(alloc, settings),
        ) {
            (Ok(control), Ok(clients), Ok(servers), Ok(pool), Ok(books)) => Ok(HostParts {
                control,
                clients,
                servers,
                pool,
                books,
                order: 0,
            }),
            _ => Err(AllocError),
        }
    }

    // A call starts.
    pub(crate) fn start(
        &mut self,
        server: HostId,
        number: u8,
        request: Vec<u8>,
        now: u64,
    ) -> Result<CallId, (StartFault, Vec<u8>)>
        requires kept { IsKept self.old }
        requires server { server.0 < self.old.control.settings.hosts }
        requires now { now ≤ LAST_HOST_TICK }
        requires later { self.old.control.last ≤ now }
        requires order { self.old.order < 2 ^ 63 }
        ensures fault { IfErr result (λ e. start_fault self.old.control.settings (host_of self.old) server request.items ≡ Some e.0) }
        ensures back { IfErr result (λ e. e.1 ≡ request) }
        ensures same { OnErr result (self.new ≡ self.old) }
        ensures no_fault { OnOk result (start_fault self.old.control.settings (host_of self.old) server request.items ≡ None) }
        ensures id { IfOk result (λ id. id ≡ next_id (host_of self.old)) }
        ensures kept { IsKept self.new }
        ensures step { OnOk result (Amid (starts self.old.control.settings server number request.items (begun (host_of self.old) now)) self.new []) }
        ensures steady { OnOk result (IsBegun now 1 self.old self.new) }
    {
        let (place, id) = match self.clients.start(server, number, request, now, self.order) {
            Ok(started) => started,
            Err(refused) => return Err(refused),
        };
        self.control.begin(now);
        self.control.tell(Mark::Called {
            id,
            server,
            service: number,
        });
        self.order += 1;
        follow_client(&mut self.books, &self.clients, Change::Stays(place));
        Ok(id)
    }

    // A step ends.
    pub(crate) fn end_step(&mut self, out: &mut Outbox)
        requires kept { IsKept self.old }
        requires amid { (w : Work) × Amid w self.old out.old }
        requires room { HasRoom 71 7 self.old out.old }
        ensures kept { IsKept self.new }
        ensures step { (w : Work) → Amid w self.old out.old → Amid (ended self.old.control.settings w) self.new out.new }
        ensures settings { self.new.control.settings ≡ self.old.control.settings }
    {
        self.give_due_grants(out);
        self.pump(out);
    }

    // Where the row of a slot stands: the slots of a host's own calls come first.
    pub(crate) fn place_of(&self, slot: u32) -> Place
        ensures { IsPlaceOf self.now.control.settings.calls slot result }
    {
        let calls = self.control.settings().calls;
        if slot < calls {
            return Place::Client(slot);
        }
        Place::Server(slot - calls)
    }
}

// The books follow a change of a client's row.
pub(crate) fn follow_client(books: &mut Books, clients: &ClientTable, change: Change)
    requires { CanFollowClient clients.now books.old change }
    ensures { FollowedClient clients.now change books.old books.new }
{
    match change {
        Change::Nothing => {}
        Change::Stays(place) => {
            let duties = client_duties(clients, place);
            books.follow_timer(place, duties.timer);
            books.follow_arrival(place, duties.arrival);
            books.follow_waiting(place, duties.waiting);
        }
        Change::Goes(place) => books.follow(place, Duties::none()),
    }
}

// The books follow a client's row in which nothing new arrives: what arrives stays as it is booked, and its granted
// end may have changed.
pub(crate) fn client_goes_on(books: &mut Books, clients: &ClientTable, place: u32)
    requires { CanFollowClient clients.now books.old (Stays place) }
    ensures { WentOnClient clients.now place books.old books.new }
{
    books.follow_timer(place, client_timer(clients, place));
    books.note_arrival(place);
    books.follow_waiting(place, client_waiting(clients, place));
}

// The books follow a change of a server's row, whose slots stand behind those of `calls` clients' rows.
pub(crate) fn follow_server(books: &mut Books, servers: &ServerTable, calls: u32, change: Change)
    requires { CanFollowServer servers.now calls books.old change }
    ensures { FollowedServer servers.now calls change books.old books.new }
{
    match change {
        Change::Nothing => {}
        Change::Stays(place) => {
            let slot = calls + place;
            let duties = server_duties(servers, place);
            books.follow_timer(slot, duties.timer);
            books.follow_arrival(slot, duties.arrival);
            books.follow_waiting(slot, duties.waiting);
        }
        Change::Goes(place) => books.follow(calls + place, Duties::none()),
    }
}

// The books follow a server's row in which nothing new arrives: what arrives stays as it is booked, and its granted
// end may have changed.
pub(crate) fn server_goes_on(books: &mut Books, servers: &ServerTable, calls: u32, place: u32)
    requires { CanFollowServer servers.now calls books.old (Stays place) }
    ensures { WentOnServer servers.now calls place books.old books.new }
{
    let slot = calls + place;
    books.follow_timer(slot, server_timer(servers, place));
    books.note_arrival(slot);
    books.follow_waiting(slot, server_waiting(servers, place));
}
