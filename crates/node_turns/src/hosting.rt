// Hosts that act at a clock that is read outside.
ghost use Rattle.std.specs.Prelude.{◌≡◌, ◌≢◌, ◌≤◌, ◌<◌, ◌^◌, ℕ, List, [], ◌∷◌, Some, length, slice_get, Ok, IfErr, OnOk, OnErr, IfOk};
ghost use Rattle.std.specs.List.{AllByRecursion};
ghost use Rattle.homa_plain.specs.declared.settings.Settings.{Settings};
ghost use Rattle.homa_plain.specs.declared.id.HostId.{HostId as Host};
ghost use Rattle.homa_plain.specs.declared.event.Event.TheVariants as event;
ghost use Rattle.homa_plain.specs.declared.fault.WorldFault.TheVariants as fault_word;
ghost use Rattle.homa_plain.specs.Entries.{PlainEntry, PlainClock, PlainRecv, plain};
ghost use Rattle.homa_plain.specs.Rules.{Answer};
ghost use Rattle.homa_plain.specs.World.{World, outcome};
ghost use Rattle.homa_plain.specs.Told.{HasLine};
ghost use Rattle.host_view.specs.declared.outbox.SentFrame.{SentFrame};
ghost use Rattle.node_io.specs.Observer.{IsSeen};
ghost use Rattle.node_runs.specs.Course.{arrival_outcome, Arrival};
ghost use Rattle.node_turns.specs.Acting.{IsRefused};
ghost use Rattle.node_turns.specs.Acting.{IsStep, IsBegun, IsOwn, Asks};
ghost use Rattle.node_turns.specs.Same.{HaveStepped};

use homa_plain::{Entry, HostId, LAST_TICK, StartFault, WorldFault};
use host_view::Outbox;
use std::alloc::{AllocError, Global};

/// The hosts of a node, with their boxes. Its clock is set from outside; its packets go outside, as frames.
pub trait LoopHosts {
    /// The plain worlds that they may be, whatever the services will answer.
    ghost stands: { Self → World → Type 0 };

    ghost settings: { Self → Settings };

    /// The tick of their clock.
    ghost clock: { Self → ℕ };

    /// How many steps were done.
    ghost steps: { Self → ℕ };

    /// What the last step told.
    ghost told: { Self → List PlainEntry };

    /// What it sent.
    ghost frames: { Self → List SentFrame };

    /// The entries whose answers the boxes allow, from now on.
    ghost allows: { Self → List PlainEntry → Type 0 };

    /// The clock.
    fn now(&self) -> u64
        ensures clock { result ≡ clock self.now }
        ensures stands { (w : World) → stands self.now w → result ≡ w.clock };

    /// The clock stands at this tick.
    fn stand_at(&mut self, now: u64)
        requires rises { clock self.old ≤ now }
        requires most { now ≤ LAST_TICK }
        ensures stands { (w : World) → stands self.old w → stands self.new (record w { clock = now }) }
        ensures clock { clock self.new ≡ now }
        ensures settings { settings self.new ≡ settings self.old }
        ensures steps { steps self.new ≡ steps self.old }
        ensures allows { (told : List PlainEntry) → allows self.new told → allows self.old told };

    /// A call, or why it can't start.
    fn call(
        &mut self,
        alloc: Global,
        client: HostId,
        server: HostId,
        number: u8,
        request: &[u8],
    ) -> Result<Result<(), StartFault>, AllocError>
        requires client { client.0 < (settings self.old).hosts }
        requires server { server.0 < (settings self.old).hosts }
        requires few { steps self.old < 2 ^ 57 }
        ensures done { result ≡ Ok (Ok tt) → (w : World) → stands self.old w
            → IsStep (λ v. outcome (settings self.old) v (event.Call client server number) request.now) [] (settings self.old) w (stands self.new)
            (told self.new) (frames self.new) (allows self.old) (allows self.new) }
        ensures fault { IfOk result (λ r.
            IfErr r (λ fault. (w : World) → stands self.old w
            → IsRefused (settings self.old) w (event.Call client server number) request.now (fault_word.Start fault))) }
        ensures own { AllByRecursion IsOwn (told self.new) }
        ensures stepped { HaveStepped settings clock steps self.old self.new 1 };

    /// A datagram comes to a host from another one. Memory is wanted only where it asks the host's service.
    fn hear(
        &mut self,
        alloc: Global,
        host: HostId,
        from: HostId,
        bytes: &[u8],
    ) -> Result<(), AllocError>
        requires host { host.0 < (settings self.old).hosts }
        requires from { from.0 < (settings self.old).hosts }
        requires other { from ≢ host }
        requires few { steps self.old < 2 ^ 57 }
        ensures done { OnOk result ((w : World) → stands self.old w
            → IsStep (λ v. arrival_outcome (settings self.old) v host (record { from = from; bytes = bytes.now })) (PlainRecv host from bytes.now ∷ [])
            (settings self.old) w (stands self.new) (told self.new) (frames self.new) (allows self.old) (allows self.new)) }
        ensures asks { OnErr result ((w : World) → stands self.old w → (a : Answer)
            → Asks (λ v. arrival_outcome (settings self.old) v host (record { from = from; bytes = bytes.now })) w a) }
        ensures own { AllByRecursion IsOwn (told self.new) }
        ensures stepped { HaveStepped settings clock steps self.old self.new 1 };

    /// A turn of a host. It takes no memory.
    fn turn(&mut self, host: HostId)
        requires host { host.0 < (settings self.old).hosts }
        requires few { steps self.old < 2 ^ 57 }
        ensures done { (w : World) → stands self.old w
            → IsStep (λ v. outcome (settings self.old) v (event.Turn host) []) [] (settings self.old) w (stands self.new) (told self.new) (frames self.new)
            (allows self.old) (allows self.new) }
        ensures own { AllByRecursion IsOwn (told self.new) }
        ensures stepped { HaveStepped settings clock steps self.old self.new 1 };

    /// How many entries the last step has.
    fn entries(&self) -> usize
        ensures { result ≡ length (told self.now) };

    /// One of them.
    fn entry(&self, i: usize) -> Entry<'_>
        requires { i < length (told self.now) }
        ensures entry { slice_get (told self.now) i ≡ Some (plain result) }
        ensures line { HasLine (plain result) }
        ensures seen { IsSeen (plain result) }
        ensures own { IsOwn (plain result) };

    /// The frames of the last step.
    fn outbox(&self) -> &Outbox
        ensures { result.now ≡ frames self.now };

    /// No box has to allow nothing.
    ghost allows_none: { (h : Self) → allows h [] };

    /// What comes from the net asks nothing of a box.
    ghost allows_recv: { (h : Self) (host from : Host) (bytes : List ℕ) → allows h (PlainRecv host from bytes ∷ []) };

    /// Nor does the clock.
    ghost allows_clock: { (h : Self) (now : ℕ) (told : List PlainEntry) → allows h told → allows h (PlainClock now ∷ told) };

    /// A datagram that comes to a host that is there is told first, whatever is answered.
    ghost comes: { (h : Self) (w : World) → stands h w → (host : Host) (a : Arrival) → host.0 < (settings h).hosts → (later : List Answer)
        → IsBegun (λ v. arrival_outcome (settings h) v host a) (PlainRecv host a.from a.bytes ∷ []) (settings h) w later };

    /// A host that is there can have its turn, whatever is answered.
    ghost turns: { (h : Self) (w : World) → stands h w → (host : Host) → host.0 < (settings h).hosts → (later : List Answer)
        → IsBegun (λ v. outcome (settings h) v (event.Turn host) []) [] (settings h) w later };
}
