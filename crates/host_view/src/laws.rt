// Laws of a host's books. No function here does anything: each states laws, and its body is empty.
ghost use Rattle.std.specs.Prelude.{◌≡◌, ◌≤◌, ℕ, [], Some, None, List, map, Contains};
ghost use Rattle.std.specs.Option.{option_map};
ghost use Rattle.plain_sets.specs.Ordered.{ordered, first_of};
ghost use Rattle.homa_plain.specs.Timers.{due};
ghost use Rattle.homa_plain.specs.Grants.{chosen_by, chosen};
ghost use Rattle.homa_plain.specs.Timers.{timer_key, timers};
ghost use Rattle.homa_plain.specs.SentNext.{Leaving, leaving_key, departures};
ghost use Rattle.homa_plain.specs.Sending.{arrivals};
ghost use Rattle.step_laws.specs.StepLaws.{HasOwnOrders};
ghost use Rattle.homa_timers.specs.Armed as armed;
ghost use Rattle.homa_grants.specs.Entries as entry;
ghost use Rattle.homa_pacer.specs.Pace as pace;
ghost use Rattle.std.specs.List.{AllByRecursion};
ghost use Rattle.homa_plain.specs.Host.{Told, packets_in, entries_from};
ghost use Rattle.host_view.specs.declared.outbox.SentFrame.{SentFrame};
ghost use Rattle.host_view.specs.Frames.{frames_of, IsFormed};
ghost use Rattle.host_view.specs.Marks.{marks_from, IsShown, shown_entries};
ghost use Rattle.host_view.specs.Done.{HoldsSent};
ghost use Rattle.host_view.specs.Seen.{Seen, AreArmed, AreEntered, AreReady, timer_of, entry_of, ready_of};

/// The first timer of the book that is due is that of the row that acts first.
pub fn due_by_book()
    ensures { (h : Seen) (book : List armed.Timer) (now : ℕ) → HasOwnOrders h.host → AreArmed h book
        → first_of (due armed.timer_key now book)
        ≡ option_map (timer_of h) (first_of (due timer_key now (timers h.settings h.host))) }
{}

/// The messages that the book chooses are those that are granted to.
pub fn grants_by_book()
    ensures { (h : Seen) (book : List entry.Entry) (k : ℕ) → HasOwnOrders h.host → AreEntered h book
        → chosen_by entry.entry_peer entry.entry_key k book
        ≡ map (entry_of h) (chosen (λ a. a.message) k (arrivals h.host)) }
{}

/// The pacer may hold more messages than may be sent. Where its first one may be sent, it is the one that is sent next,
/// and where it holds none, none is sent. As time goes on, no further message may be sent.
pub fn pump_by_picking()
    ensures first { (h : Seen) (book : List pace.Ready) (l : Leaving) → HasOwnOrders h.host → AreReady h book
        → first_of (ordered pace.ready_key book) ≡ Some (ready_of h l)
        → Contains (departures h.settings h.host.last h.host) l
        → first_of (ordered leaving_key (departures h.settings h.host.last h.host)) ≡ Some l }
    ensures none { (h : Seen) (book : List pace.Ready) → AreReady h book → book ≡ []
        → first_of (ordered leaving_key (departures h.settings h.host.last h.host)) ≡ None }
    ensures later { (h : Seen) (book : List pace.Ready) (now : ℕ) → h.host.last ≤ now → AreReady h book
        → AreReady (record h { host = record h.host { last = now } }) book }
{}

/// The marks of what was told, with its frames, are its entries, where each packet is well formed and each entry is that
/// of its mark.
pub fn marks_are_entries()
    ensures { (h : Seen) (whole : List ℕ) (frames : List SentFrame) (told : List Told)
        → h.marks ≡ marks_from 0 told → frames ≡ frames_of h.settings (packets_in told)
        → AllByRecursion (IsFormed h.settings) (packets_in told) → AllByRecursion (IsShown h whole) told
        → (shown_entries h frames whole ≡ entries_from 0 told) × HoldsSent h frames }
{}
