// Laws of rows and entries. No function here does anything: each states laws, and its body is empty.
ghost use Rattle.std.specs.Prelude.{◌≡◌, ℕ, Option, IfSome, List};
ghost use Rattle.homa_plain.specs.declared.id.CallId.{CallId};
ghost use Rattle.homa_plain.specs.declared.id.HostId.{HostId};
ghost use Rattle.homa_plain.specs.declared.settings.Settings.{Settings};
ghost use Rattle.homa_plain.specs.Packets.{Packet};
ghost use Rattle.homa_plain.specs.Rows.{ClientRow, ServerRow, set_row};
ghost use Rattle.homa_plain.specs.Host.{Host};
ghost use Rattle.homa_plain.specs.Rules.{Moment, Answer};
ghost use Rattle.homa_plain.specs.AtClient.{client_gets};
ghost use Rattle.homa_plain.specs.Timers.{client_acts};
ghost use Rattle.homa_plain.specs.Sending.{client_granted, client_sends};
ghost use Rattle.std.specs.List.{AllByRecursion};
ghost use Rattle.homa_plain.specs.declared.packet.Role.TheVariants.{Server as OfServer};
ghost use Rattle.homa_plain.specs.Work.{Work};
ghost use Rattle.homa_plain.specs.Steps.{ended, call_step, arrival_step, turn_step};
ghost use Rattle.host_view.specs.Seen.{Seen};
ghost use Rattle.host_view.specs.Marks.{marks_from, IsAnswer, IsWhole, IsShown};
ghost use Rattle.host_laws.specs.Bytes.{KeepsBytes};
ghost use Rattle.host_laws.specs.Peers.{KnowsServer, KnowsClient, KnowsPeers};

/// The hosts that a host's rows name are among so many after each rule, and where one row becomes one whose hosts are
/// among them, so are those of all.
pub fn rows_know_peers()
    ensures gets { (n : ℕ) (s : Settings) (m : Moment) (p : Packet) (o : Option ClientRow) → IfSome o (KnowsServer n)
        → IfSome (client_gets s m p o).row (KnowsServer n) }
    ensures acts { (n : ℕ) (s : Settings) (m : Moment) (id : CallId) (r : ClientRow) → KnowsServer n r
        → IfSome (client_acts s m id r).row (KnowsServer n) }
    ensures granted { (n now offset : ℕ) (r : ClientRow) → KnowsServer n r → KnowsServer n (client_granted now offset r) }
    ensures sends { (n : ℕ) (s : Settings) (now : ℕ) (r : ClientRow) → KnowsServer n r → KnowsServer n (client_sends s now r) }
    ensures client { (s : Settings) (h new : Host) (id : CallId) (row : Option ClientRow) → new.id ≡ h.id → new.inc ≡ h.inc → KnowsPeers s h
        → new.clients ≡ set_row h.clients id row → new.servers ≡ h.servers
        → IfSome row (λ r. KnowsServer s.hosts r × ((id.client ≡ h.id) × (id.inc ≡ h.inc))) → KnowsPeers s new }
    ensures server { (s : Settings) (h new : Host) (id : CallId) (row : Option ServerRow) → new.id ≡ h.id → new.inc ≡ h.inc → KnowsPeers s h
        → new.servers ≡ set_row h.servers id row → new.clients ≡ h.clients → IfSome row (KnowsClient s.hosts id) → KnowsPeers s new }
{}

/// While a step ends, no request and no response of a host's rows changes.
pub fn rows_keep_bytes()
    ensures { (s : Settings) (w : Work) → KeepsBytes w.host (ended s w).host }
{}

/// The entries of a whole step are those of its marks, once the host is as after the step. Those of a call and of a
/// turn are so whatever stands in the scratch. Those of an arrival are so where the service answered what the marks
/// say, and the message that became whole stands in the scratch.
pub fn entries_are_marks()
    ensures call { (s : Settings) (h : Host) (now : ℕ) (server : HostId) (service : ℕ) (request : List ℕ) (new : Seen) (whole : List ℕ)
        → new.host ≡ (call_step s h now server service request).host
        → AllByRecursion (IsShown new whole) (call_step s h now server service request).told }
    ensures arrival { (s : Settings) (h : Host) (now : ℕ) (p : Option Packet) (a : Answer) (new : Seen) (whole : List ℕ)
        → new.host.id ≡ h.id → new.host.last ≡ now → IfSome p (λ p. p.role ≡ OfServer → p.id.client ≡ h.id)
        → new.marks ≡ marks_from 0 (arrival_step s h now p a).told → IsAnswer new a
        → AllByRecursion (IsWhole whole) (arrival_step s h now p a).told
        → AllByRecursion (IsShown new whole) (arrival_step s h now p a).told }
    ensures turn { (s : Settings) (h : Host) (now : ℕ) (new : Seen) (whole : List ℕ) → new.host.id ≡ h.id → new.host.last ≡ now
        → AllByRecursion (IsShown new whole) (turn_step s h now).told }
{}
