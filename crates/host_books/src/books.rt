// The books of a host's rows: when each is to act, which messages are granted to, which are sent.
ghost use Rattle.std.specs.Prelude.{◌≡◌, ◌<◌, true, [], IfOk, IfSome, None};
ghost use Rattle.homa_plain.specs.Settings.{IsValid};
ghost use Rattle.homa_timers.specs.Armed as armed;
ghost use Rattle.homa_grants.specs.Entries as entry;
ghost use Rattle.homa_pacer.specs.Pace as pace;
ghost use Rattle.host_view.specs.Follow.{booked};
ghost use Rattle.host_books.specs.Duties.{timers_in, entries_in, ready_in, changed_by, noted, AreOwn, HaveRoom};

use homa_grants::GrantBook;
use homa_pacer::Pacer;
use homa_plain::{HostId, Settings};
use homa_timers::Timers;
use std::alloc::{AllocError, Global};

/// The books of a host. Each has at most one entry for a slot, which stands for the row there.
#[derive(Drop)]
pub struct Books {
    pub timers: Timers,
    pub grants: GrantBook,
    pub pacer: Pacer,
    /// Whether what arrives may have changed since messages were last granted to.
    pub changed: bool,
}

/// When a row is to act, and the row's order, which decides between rows with one deadline.
#[derive(Clone, Copy, Debug, PartialEq, Eq)]
pub struct Deadline {
    pub at: u64,
    pub order: u64,
}

/// A message that isn't whole: its sender, how many bytes are missing, and its order.
#[derive(Clone, Copy, Debug, PartialEq, Eq)]
pub struct Arrival {
    pub peer: HostId,
    pub remaining: u32,
    pub order: u64,
}

/// A message of which bytes wait to be sent: how many bytes lie above all that were sent, and its order.
#[derive(Clone, Copy, Debug, PartialEq, Eq)]
pub struct Waiting {
    pub left: u32,
    pub order: u64,
}

/// What a row has in the books.
#[derive(Clone, Copy, Debug, PartialEq, Eq)]
pub struct Duties {
    pub timer: Option<Deadline>,
    pub arrival: Option<Arrival>,
    pub waiting: Option<Waiting>,
}

impl Duties {
    /// The entries of a place without a row.
    pub fn none() -> Duties
        ensures { result ≡ record { timer = None; arrival = None; waiting = None } }
    {
        Duties {
            timer: None,
            arrival: None,
            waiting: None,
        }
    }
}

impl Books {
    /// Books without entries, with a slot for each row that a host may have, and the credit of one tick. Only this takes
    /// memory.
    pub fn open(alloc: Global, settings: &Settings) -> Result<Books, AllocError>
        requires { IsValid settings.now }
        ensures room { IfOk result (HaveRoom settings.now) }
        ensures timers { IfOk result (λ b. b.timers.timers ≡ []) }
        ensures grants { IfOk result (λ b. b.grants.entries ≡ []) }
        ensures pacer { IfOk result (λ b. b.pacer.ready ≡ []) }
        ensures credit { IfOk result (λ b. b.pacer.credit ≡ settings.now.rate) }
        ensures refilled { IfOk result (λ b. b.pacer.refilled ≡ 0) }
        ensures changed { IfOk result (λ b. b.changed ≡ true) }
    {
        Ok(Books {
            timers: Timers::open(alloc, settings)?,
            grants: GrantBook::open(alloc, settings)?,
            pacer: Pacer::open(alloc, settings)?,
            changed: true,
        })
    }

    /// Gives a slot this timer, or none. The other books stay.
    pub fn follow_timer(&mut self, slot: u32, timer: Option<Deadline>)
        requires slot { slot < self.old.timers.slots }
        requires own { IfSome timer (λ t. armed.IsOwnOrder slot t.order self.old.timers.timers) }
        ensures { self.new ≡ record self.old {
          timers = record self.old.timers {
            timers = booked armed.timer_key (λ t. t.slot) slot (timers_in slot timer) self.old.timers.timers;
          };
        } }
    {
        match timer {
            Some(timer) => self.timers.arm(slot, timer.at, timer.order),
            None => self.timers.disarm(slot),
        }
    }

    /// Gives a slot this message that arrives, or none, and notes that what arrives may have changed. The other
    /// books stay.
    pub fn follow_arrival(&mut self, slot: u32, arrival: Option<Arrival>)
        requires slot { slot < self.old.grants.slots }
        requires peer { IfSome arrival (λ a. a.peer.0 < self.old.grants.hosts) }
        requires own { IfSome arrival (λ a. entry.IsOwnOrder slot a.order self.old.grants.entries) }
        ensures { self.new ≡ record self.old {
          grants = record self.old.grants {
            entries = booked entry.entry_key (λ e. e.slot) slot (entries_in slot arrival) self.old.grants.entries;
          };
          changed = changed_by slot arrival self.old;
        } }
    {
        match arrival {
            Some(arrival) => {
                self.grants
                    .enter(slot, arrival.peer, arrival.remaining, arrival.order);
                self.changed = true;
            }
            None => {
                if self.grants.holds(slot) {
                    self.grants.leave(slot);
                    self.changed = true;
                }
            }
        }
    }

    /// Notes that the message that arrives under a slot may have changed, if there is one. The books stay.
    pub fn note_arrival(&mut self, slot: u32)
        requires { slot < self.old.grants.slots }
        ensures { self.new ≡ record self.old { changed = noted slot self.old } }
    {
        self.changed = self.changed || self.grants.holds(slot);
    }

    /// Gives a slot this message that waits to be sent, or none. The other books stay.
    pub fn follow_waiting(&mut self, slot: u32, waiting: Option<Waiting>)
        requires slot { slot < self.old.pacer.slots }
        requires own { IfSome waiting (λ w. pace.IsOwnOrder slot w.order self.old.pacer.ready) }
        ensures { self.new ≡ record self.old {
          pacer = record self.old.pacer {
            ready = booked pace.ready_key (λ r. r.slot) slot (ready_in slot waiting) self.old.pacer.ready;
          };
        } }
    {
        match waiting {
            Some(waiting) => self.pacer.ready(slot, waiting.left, waiting.order),
            None => self.pacer.idle(slot),
        }
    }

    /// Gives a slot these entries, and no others.
    pub fn follow(&mut self, slot: u32, duties: Duties)
        requires timers { slot < self.old.timers.slots }
        requires grants { slot < self.old.grants.slots }
        requires pacer { slot < self.old.pacer.slots }
        requires peer { IfSome duties.arrival (λ a. a.peer.0 < self.old.grants.hosts) }
        requires own { AreOwn self.old slot duties }
        ensures timers { self.new.timers ≡ record self.old.timers {
          timers = booked armed.timer_key (λ t. t.slot) slot (timers_in slot duties.timer) self.old.timers.timers;
        } }
        ensures grants { self.new.grants ≡ record self.old.grants {
          entries = booked entry.entry_key (λ e. e.slot) slot (entries_in slot duties.arrival) self.old.grants.entries;
        } }
        ensures pacer { self.new.pacer ≡ record self.old.pacer {
          ready = booked pace.ready_key (λ r. r.slot) slot (ready_in slot duties.waiting) self.old.pacer.ready;
        } }
        ensures changed { self.new.changed ≡ changed_by slot duties.arrival self.old }
    {
        self.follow_timer(slot, duties.timer);
        self.follow_arrival(slot, duties.arrival);
        self.follow_waiting(slot, duties.waiting);
    }
}
