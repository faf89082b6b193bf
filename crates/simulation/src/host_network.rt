// What surrounds a world in a run.
ghost use Rattle.std.specs.Prelude.{◌≡◌, ℕ, Option, IfOk, OnOk};
ghost use Rattle.homa_plain.specs.Entries.{PlainEntry, plain};
ghost use Rattle.homa_world.specs.declared.shown.Passing.{Passing};
ghost use Rattle.simulated_network.specs.declared.step.RunStep.{RunStep};

use homa_plain::Entry;
use homa_world::Passing;
use simulated_network::{NetworkStop, RunStep};

/// A network of hosts, which isn't the world: it gives the events of a run, and heeds what they tell.
pub trait HostNetwork {
    /// From one state to the next, it gave this step at a tick of the world's clock.
    ghost gives: { Self → ℕ → RunStep → Self → Type 0 };

    /// From one state to the next, it heeded this entry, with what the world shows of its packet.
    ghost heeds: { Self → PlainEntry → Option Passing → Self → Type 0 };

    /// From one state to the next, it heard that the call which it gave last isn't made.
    ghost leaves: { Self → Self → Type 0 };

    /// The moment, in picoseconds.
    ghost moment: { Self → ℕ };

    /// How many calls were drawn.
    ghost count: { Self → ℕ };

    /// Gives the next step of a run, at a tick of the world's clock. Fails if there is no memory, or a moment is too late.
    fn next(&mut self, tick: u64) -> Result<RunStep, NetworkStop>
        ensures { IfOk result (λ step. gives self.old tick step self.new) };

    /// Hears that the call which it gave last isn't made, as its client has as many live ones as it may.
    fn leave_out(&mut self)
        ensures { leaves self.old self.new };

    /// Heeds an entry of the last event. `passing` is what the world shows of the packet, if the entry is of one that was sent.
    fn heed(&mut self, entry: &Entry<'_>, passing: Option<Passing>) -> Result<(), NetworkStop>
        ensures { OnOk result (heeds self.old (plain entry.now) passing self.new) };

    /// The moment, in picoseconds.
    fn now(&self) -> u64
        ensures { result ≡ moment self.now };

    /// How many calls were drawn; one that wasn't made counts.
    fn drawn(&self) -> u32
        ensures { result ≡ count self.now };
}
