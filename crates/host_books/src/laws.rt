//! What the books of a host are after the row of one place changed.
//!
//! A book holds a thing of each row: its timer, its message that arrives, its message that is sent. The laws are about
//! a row that is made, changed or removed. The books are those of all rows again as soon as the slot of that row is
//! booked anew, and the order number with which that is done is no other row's. No function here does anything: each
//! states laws, and its body is empty.

ghost use Rattle.std.specs.Prelude.{◌≡◌, ◌<◌, ◌≤◌, ◌+◌, ◌-◌, ℕ, Some, None, List, ◌∷◌, length, Contains};
ghost use Rattle.std.specs.List.{AllByRecursion};
ghost use Rattle.plain_sets.specs.Maps.{get};
ghost use Rattle.homa_plain.specs.declared.id.CallId.{CallId};
ghost use Rattle.homa_plain.specs.declared.settings.Settings.{Settings};
ghost use Rattle.homa_plain.specs.Rows.{RowsOf};
ghost use Rattle.homa_plain.specs.Host.{Host, free_beside, packets_in};
ghost use Rattle.homa_plain.specs.Timers.{Place};
ghost use Rattle.plain_sets.specs.Ordered.{SendersDiffer, ordered, first_of};
ghost use Rattle.homa_plain.specs.Grants.{chosen, sender};
ghost use Rattle.homa_plain.specs.Sending.{Arriving, arrivals};
ghost use Rattle.homa_plain.specs.SentNext.{Leaving, departures};
ghost use Rattle.homa_plain.specs.Work.{Work};
ghost use Rattle.homa_plain.specs.Steps.{gives_grants};
ghost use Rattle.homa_plain.specs.SentNext.{leaves_from, pumped_once, pump};
ghost use Rattle.host_books.specs.Ends.{grant_to, granted_each};
ghost use Rattle.step_laws.specs.StepLaws.{HasOwnOrders};
ghost use Rattle.homa_timers.specs.Armed as armed;
ghost use Rattle.homa_grants.specs.Entries as entry;
ghost use Rattle.homa_pacer.specs.Pace as pace;
ghost use Rattle.host_view.specs.Seen.{Seen, slot_of, ready_of, AreArmed, AreEntered, AreReady};
ghost use Rattle.host_places.specs.Mapped.{mapped};
ghost use Rattle.host_places.specs.Placed.{Placed, ArePlaced};
ghost use Rattle.host_view.specs.Follow.{ChangesAt, HasPlaces, HasSlots, has_row, timer_at, arrival_at, waiting_at, armed_anew, entered_anew, readied_anew};
ghost use Rattle.host_books.specs.declared.books.Books.{Books};
ghost use Rattle.host_books.specs.Duties.{AreOwn, AreBooked};
ghost use Rattle.host_books.specs.Duty.{duty_at, followed};
ghost use Rattle.host_books.specs.Pages.{client_pages, server_pages, pages_at, row_pages};
ghost use Rattle.host_books.specs.SameRows.{SameRows};
ghost use Rattle.host_books.specs.Stood.{Stood};

/// The timers' book follows a change of one row.
pub fn timers_follow()
    ensures book { (place : Place) (n : ℕ) (old new : Seen) (book : List armed.Timer) → ChangesAt place n old new → Stood place old new
        → HasOwnOrders new.host → AreArmed old book → AreArmed new (armed_anew new place n book) }
    ensures order { (place : Place) (n : ℕ) (old new : Seen) (book : List armed.Timer) → ChangesAt place n old new → Stood place old new
        → HasOwnOrders new.host → AreArmed old book → AllByRecursion (λ t. armed.IsOwnOrder n t.order book) (timer_at new place) }
{}

/// The grants' book follows a change of one row.
pub fn grants_follow()
    ensures book { (place : Place) (n : ℕ) (old new : Seen) (book : List entry.Entry) → ChangesAt place n old new → Stood place old new
        → HasOwnOrders new.host → AreEntered old book → AreEntered new (entered_anew new place n book) }
    ensures order { (place : Place) (n : ℕ) (old new : Seen) (book : List entry.Entry) → ChangesAt place n old new → Stood place old new
        → HasOwnOrders new.host → AreEntered old book → AllByRecursion (λ a. entry.IsOwnOrder n a.message.order book) (arrival_at new place) }
{}

/// The pacer's book follows a change of one row.
pub fn pacer_follows()
    ensures book { (place : Place) (n : ℕ) (old new : Seen) (book : List pace.Ready) → ChangesAt place n old new → Stood place old new
        → AreReady old book → AreReady new (readied_anew new place n book) }
    ensures order { (place : Place) (n : ℕ) (old new : Seen) (book : List pace.Ready) → ChangesAt place n old new → Stood place old new
        → HasOwnOrders new.host → AreReady old book → AllByRecursion (λ l. pace.IsOwnOrder n l.order book) (waiting_at new place) }
{}

/// All three books follow a change of one row, if its slot is given what the row has in them now.
pub fn books_follow()
    ensures own { (place : Place) (n : ℕ) (old new : Seen) (b : Books) → ChangesAt place n old new → Stood place old new
        → HasOwnOrders new.host → AreBooked old b → AreOwn b n (duty_at new place) }
    ensures books { (place : Place) (n : ℕ) (old new : Seen) (b : Books) → ChangesAt place n old new → Stood place old new
        → HasOwnOrders new.host → AreBooked old b → AreBooked new (followed n (duty_at new place) b) }
{}

/// The grants of a step are given one by one, each to a message that still arrives then.
pub fn grants_one_by_one()
    ensures each { (s : Settings) (w : Work)
        → gives_grants s w ≡ granted_each s (chosen (λ a. a.message) s.overcommit (arrivals w.host)) w }
    ensures arrive { (k : ℕ) (w : Work) → AllByRecursion (λ a. Contains (arrivals w.host) a) (chosen (λ a. a.message) k (arrivals w.host)) }
    ensures differ { (k : ℕ) (w : Work) → SendersDiffer (λ a. sender a.message) (chosen (λ a. a.message) k (arrivals w.host)) }
    ensures rest { (s : Settings) (w : Work) (a : Arriving) (rest : List Arriving) (prio : ℕ)
        → SendersDiffer (λ b. sender b.message) (a ∷ rest) → AllByRecursion (λ b. Contains (arrivals w.host) b) (a ∷ rest)
        → AllByRecursion (λ b. (b.place ≡ a.place → ⊥) × Contains (arrivals (grant_to s a prio w).host) b) rest }
{}

/// The pump goes on with each piece that is sent, until none is or 64 packets were sent.
pub fn pump_one_by_one()
    ensures goes { (s : Settings) (w v : Work) → length (packets_in w.told) < 64 → pumped_once s w ≡ Some v
        → length (packets_in v.told) ≡ length (packets_in w.told) + 1 → pump s w ≡ pump s v }
    ensures ends { (s : Settings) (w : Work) → pumped_once s w ≡ None → pump s w ≡ w }
    ensures full { (s : Settings) (w : Work) → 64 ≤ length (packets_in w.told) → pump s w ≡ w }
{}

/// The first of the pacer is a message of its slot's row: where that may be sent, it is sent next, and where it may not,
/// it may leave the pacer.
pub fn pacer_picks()
    ensures sends { (h : Seen) (p : Place) (n : ℕ) (book : List pace.Ready) (w : Work) (l : Leaving) → HasSlots h → has_row h p
        → slot_of h p ≡ n → HasOwnOrders h.host → AreReady h book → first_of (ordered pace.ready_key book) ≡ Some (ready_of h l)
        → l.place ≡ p → Contains (departures h.settings h.host.last h.host) l → w.host ≡ h.host
        → pumped_once h.settings w ≡ leaves_from h.settings p w }
    ensures idles { (h : Seen) (p : Place) (n : ℕ) (book : List pace.Ready) → HasSlots h → has_row h p → slot_of h p ≡ n
        → AreReady h book
        → ((l : Leaving) → Contains (departures h.settings h.host.last h.host) l → l.place ≡ p → ⊥)
        → AreReady h (pace.without n book) }
{}

/// The books say nothing of what a host has beside its rows.
pub fn books_stay()
    ensures { (g h : Seen) (b : Books) → SameRows g h → AreBooked g b → AreBooked h b }
{}

/// The pages of all rows follow a change of one row, and tell how many are free for a call's message.
pub fn pages_follow()
    ensures changed { (place : Place) (n : ℕ) (old new : Seen) → ChangesAt place n old new
        → row_pages new.host + pages_at old.host place ≡ row_pages old.host + pages_at new.host place }
    ensures free { (s : Settings) (h : Host) (id : CallId) → row_pages h ≤ s.pages
        → free_beside s h id ≡ (s.pages - row_pages h) + (client_pages (get h.clients id) + server_pages (get h.servers id)) }
{}

/// Rows at places have places, whatever is seen of the host.
pub fn rows_have_places()
    ensures { (room : ℕ) (rows : RowsOf (Placed ℕ)) (f : Placed ℕ → ℕ) → ArePlaced room rows
        → HasPlaces room (mapped f rows) (mapped (λ x. x.place) rows) }
{}

/// The slot of a row is below the number of slots, and no other row's.
pub fn rows_have_slots()
    ensures within { (h : Seen) (place : Place) → HasSlots h → has_row h place → slot_of h place < h.settings.calls + h.settings.served }
    ensures differ { (h : Seen) (p q : Place) → HasSlots h → has_row h p → has_row h q → slot_of h p ≡ slot_of h q → p ≡ q }
    ensures stay { (place p : Place) (n : ℕ) (old new : Seen) → ChangesAt place n old new → (place ≡ p → ⊥) → slot_of new p ≡ slot_of old p }
{}
