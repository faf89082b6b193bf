//! What each event does to the plain world, in terms of the step of one host.
//!
//! The model: the plain world of `homa_plain`, with answers that its services are still to give. No code stands here, only
//! laws; each is the contract of a function that does nothing.
//! Main promise: an event is the step of one host with that host's answer, if its service was asked, and whatever is
//! answered later stays for later. Or it is refused for the cause that its words say, whatever is answered.
#![tactic(auto)]

ghost use Rattle.std.specs.Prelude.{◌≡◌, ◌≢◌, ◌<◌, ◌≤◌, ◌+◌, ℕ, suc, true, false, is_some, Option, Some, None, List, [], ◌∷◌, map, slice_get};
ghost use Rattle.std.specs.Option.{IfSome};
ghost use Rattle.std.specs.List.{AllByRecursion};
ghost use Rattle.homa_plain.specs.declared.id.HostId.{HostId};
ghost use Rattle.homa_plain.specs.declared.settings.Settings.{Settings};
ghost use Rattle.homa_plain.specs.declared.event.Event.TheVariants as event;
ghost use Rattle.homa_plain.specs.declared.fault.StartFault.{StartFault};
ghost use Rattle.homa_plain.specs.declared.fault.WorldFault.TheVariants as fault;
ghost use Rattle.homa_plain.specs.Settings.{band};
ghost use Rattle.homa_plain.specs.Wire.{packet_in};
ghost use Rattle.homa_plain.specs.Entries.{PlainClock, PlainRestart, PlainShift, PlainDeliver, PlainInject};
ghost use Rattle.homa_plain.specs.Packets.{Packet, sender, receiver};
ghost use Rattle.homa_plain.specs.Host.{Host, Told, new_host, entries_from};
ghost use Rattle.homa_plain.specs.Rules.{Answer};
ghost use Rattle.homa_plain.specs.Steps.{call_step, arrival_step, turn_step, start_fault};
ghost use Rattle.homa_plain.specs.World.{World, SentPacket, host_at, own_clock, is_late, last_tick};
ghost use Rattle.step_moves.specs.Worlds.{HasOwnName};
ghost use Rattle.event_laws.specs.Apart.{IsApart, IsApartStep};
ghost use Rattle.event_laws.specs.Among.{IsAmong, IsAmongStep, IsBelow};
ghost use Rattle.event_laws.specs.Named.{IsOfStep, IsOwnStep, numbered};
ghost use Rattle.event_laws.specs.Stepping.{IsStep, IsStepWith, IsChange, IsRefusal, ticked_world, restarted_world, shifted_world};

/// A call and a turn are steps of their host, of whose service nothing is asked.
pub fn calls_and_turns()
    ensures call { (s : Settings) (w : World) (client server : HostId) (number : ℕ) (request : List ℕ) (h : Host)
        → is_some (host_at w server) ≡ true → host_at w client ≡ Some h → start_fault s h server request ≡ None
        → IsStep s w client (event.Call client server number) request [] (call_step s h (own_clock w client) server number request) }
    ensures turn { (s : Settings) (w : World) (id : HostId) (h : Host)
        → host_at w id ≡ Some h → IsStep s w id (event.Turn id) [] [] (turn_step s h (own_clock w id)) }
{}

/// A delivery and an injection are arrivals at their host; where its service is asked, this is what it answers.
pub fn deliveries_and_injections()
    ensures deliver { (s : Settings) (w : World) (n : ℕ) (sent : SentPacket) (h : Host) (a : Answer)
        → slice_get w.packets n ≡ Some sent → is_late s w sent.tick ≡ false → host_at w (receiver sent.packet) ≡ Some h
        → IsStepWith a s w (receiver sent.packet) (event.Deliver n) [] (PlainDeliver n ∷ [])
        (arrival_step s h (own_clock w (receiver sent.packet)) (Some sent.packet) a) }
    ensures inject { (s : Settings) (w : World) (id : HostId) (bytes : List ℕ) (h : Host) (a : Answer)
        → host_at w id ≡ Some h → packet_in s.wire bytes ≡ None
        → IsStepWith a s w id (event.Inject id) bytes (PlainInject id bytes ∷ []) (arrival_step s h (own_clock w id) None a) }
{}

/// The clock, a restart and a shift.
pub fn other_events()
    ensures clock { (s : Settings) (w : World) → w.clock ≢ last_tick
        → IsChange s w event.Clock (ticked_world w) (PlainClock (w.clock + 1) ∷ []) }
    ensures restart { (s : Settings) (w : World) (id : HostId) (h : Host) (spares : ℕ) → host_at w id ≡ Some h → w.spares ≡ suc spares
        → IsChange s w (event.Restart id) (restarted_world s w id h spares) (PlainRestart id (h.inc + 1) ∷ []) }
    ensures shift { (s : Settings) (w : World) (id : HostId) (n : ℕ) (h : Host) → host_at w id ≡ Some h → n ≤ band s → h.last ≤ w.clock + n
        → IsChange s w (event.Shift id n) (shifted_world w id n) (PlainShift id n ∷ []) }
{}

/// Why an event is refused.
pub fn refusals()
    ensures no_server { (s : Settings) (w : World) (client server : HostId) (number : ℕ) (request : List ℕ) → host_at w server ≡ None
        → IsRefusal s w (event.Call client server number) request fault.NoSuchHost }
    ensures no_client { (s : Settings) (w : World) (client server : HostId) (number : ℕ) (request : List ℕ) → host_at w client ≡ None
        → IsRefusal s w (event.Call client server number) request fault.NoSuchHost }
    ensures start { (s : Settings) (w : World) (client server : HostId) (number : ℕ) (request : List ℕ) (h : Host) (why : StartFault)
        → is_some (host_at w server) ≡ true → host_at w client ≡ Some h → start_fault s h server request ≡ Some why
        → IsRefusal s w (event.Call client server number) request (fault.Start why) }
    ensures no_packet { (s : Settings) (w : World) (n : ℕ) → slice_get w.packets n ≡ None → IsRefusal s w (event.Deliver n) [] fault.NoSuchPacket }
    ensures late { (s : Settings) (w : World) (n : ℕ) (sent : SentPacket) → slice_get w.packets n ≡ Some sent → is_late s w sent.tick ≡ true
        → IsRefusal s w (event.Deliver n) [] (fault.Late sent.tick w.clock) }
    ensures clock { (s : Settings) (w : World) → w.clock ≡ last_tick → IsRefusal s w event.Clock [] fault.ClockEnd }
    ensures turn { (s : Settings) (w : World) (id : HostId) → host_at w id ≡ None → IsRefusal s w (event.Turn id) [] fault.NoSuchHost }
    ensures restart { (s : Settings) (w : World) (id : HostId) → host_at w id ≡ None → IsRefusal s w (event.Restart id) [] fault.NoSuchHost }
    ensures no_spare { (s : Settings) (w : World) (id : HostId) (h : Host) → host_at w id ≡ Some h → w.spares ≡ 0
        → IsRefusal s w (event.Restart id) [] fault.NoSpare }
    ensures inject { (s : Settings) (w : World) (id : HostId) (bytes : List ℕ) → host_at w id ≡ None → IsRefusal s w (event.Inject id) bytes fault.NoSuchHost }
    ensures decodes { (s : Settings) (w : World) (id : HostId) (bytes : List ℕ) (h : Host) → host_at w id ≡ Some h
        → is_some (packet_in s.wire bytes) ≡ true → IsRefusal s w (event.Inject id) bytes fault.Decodes }
    ensures shift { (s : Settings) (w : World) (id : HostId) (n : ℕ) → host_at w id ≡ None → IsRefusal s w (event.Shift id n) [] fault.NoSuchHost }
    ensures band { (s : Settings) (w : World) (id : HostId) (n : ℕ) (h : Host) → host_at w id ≡ Some h → band s < n
        → IsRefusal s w (event.Shift id n) [] (fault.OutOfBand n (band s)) }
    ensures back { (s : Settings) (w : World) (id : HostId) (n : ℕ) (h : Host) → host_at w id ≡ Some h → n ≤ band s → w.clock + n < h.last
        → IsRefusal s w (event.Shift id n) [] (fault.Back h.last (w.clock + n)) }
{}

/// A host keeps its name through each step: its rows as a client are of its own calls, its packets are sent by it, and no
/// `send` line is said but by a packet. Packets that are numbered from n on have the numbers from 0 on, each greater by n.
pub fn steps_keep_names()
    ensures call { (s : Settings) (id : HostId) (h : Host) (now : ℕ) (server : HostId) (service : ℕ) (request : List ℕ)
        → HasOwnName id h → IsOwnStep id (call_step s h now server service request) }
    ensures arrival { (s : Settings) (id : HostId) (h : Host) (now : ℕ) (o : Option Packet) (a : Answer)
        → HasOwnName id h → IfSome o (λ p. receiver p ≡ id) → IsOwnStep id (arrival_step s h now o a) }
    ensures turn { (s : Settings) → 1 ≤ s.resend → (id : HostId) (h : Host) (now : ℕ) → HasOwnName id h → IsOwnStep id (turn_step s h now) }
    ensures new { (s : Settings) (id : HostId) (inc last : ℕ) → HasOwnName id (new_host s id inc last) }
    ensures renumber { (n : ℕ) (told : List Told) → AllByRecursion IsOfStep told
        → entries_from n told ≡ map (numbered n) (entries_from 0 told) }
{}

/// No host sends to itself. Let no row of a host be of a call to itself, and let the packet that comes be of another
/// host. Then the packets of its step go to other hosts, and after the step no row is of such a call.
pub fn steps_stay_apart()
    ensures call { (s : Settings) (id : HostId) (h : Host) (now : ℕ) (server : HostId) (service : ℕ) (request : List ℕ)
        → HasOwnName id h → IsApart id h → server ≢ id → IsApartStep id (call_step s h now server service request) }
    ensures arrival { (s : Settings) (id : HostId) (h : Host) (now : ℕ) (o : Option Packet) (a : Answer)
        → HasOwnName id h → IsApart id h → IfSome o (λ p. (receiver p ≡ id) × (sender p ≢ id)) → IsApartStep id (arrival_step s h now o a) }
    ensures turn { (s : Settings) → 1 ≤ s.resend → (id : HostId) (h : Host) (now : ℕ)
        → HasOwnName id h → IsApart id h → IsApartStep id (turn_step s h now) }
    ensures new { (s : Settings) (id : HostId) (inc last : ℕ) → IsApart id (new_host s id inc last) }
{}

/// Let the servers of a host's calls, the clients of those that it serves, and the sender of the packet that comes be
/// among so many hosts. Then so are those to whom the packets of its step go, and those of its rows after it. A call is
/// one more that the host made, and no other step is.
pub fn steps_stay_among()
    ensures call { (s : Settings) (id : HostId) (hosts : ℕ) (h : Host) (now : ℕ) (server : HostId) (service : ℕ) (request : List ℕ)
        → HasOwnName id h → IsAmong (IsBelow hosts) h → server.0 < hosts
        → IsAmongStep (IsBelow hosts) (h.seq + 1) (call_step s h now server service request) }
    ensures arrival { (s : Settings) (id : HostId) (hosts : ℕ) (h : Host) (now : ℕ) (o : Option Packet) (a : Answer)
        → HasOwnName id h → IsAmong (IsBelow hosts) h → IfSome o (λ p. (receiver p ≡ id) × ((sender p).0 < hosts))
        → IsAmongStep (IsBelow hosts) h.seq (arrival_step s h now o a) }
    ensures turn { (s : Settings) → 1 ≤ s.resend → (id : HostId) (hosts : ℕ) (h : Host) (now : ℕ)
        → HasOwnName id h → IsAmong (IsBelow hosts) h → IsAmongStep (IsBelow hosts) h.seq (turn_step s h now) }
    ensures new { (s : Settings) (id : HostId) (hosts inc last : ℕ) → IsAmong (IsBelow hosts) (new_host s id inc last) }
{}
