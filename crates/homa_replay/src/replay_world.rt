// A world that is played.
ghost use Rattle.std.specs.Prelude.{◌≡◌, ◌<◌, ◌≤◌, ◌+◌, ◌^◌, ℕ, List, [], Some, length, slice_get, IfErr, OnOk, OnErr};
ghost use Rattle.std.specs.List.{flat_map};
ghost use Rattle.homa_io.specs.Writing.{IsWritten};
ghost use Rattle.homa_plain.specs.declared.settings.Settings.{Settings};
ghost use Rattle.homa_plain.specs.Entries.{PlainEntry, plain};
ghost use Rattle.homa_plain.specs.World.{World};
ghost use Rattle.homa_plain.specs.Text.{line_text};
ghost use Rattle.homa_plain.specs.Told.{HasLine};
ghost use Rattle.homa_replay.specs.ReplayWorld.{IsApplied, IsNotApplied};

use crate::FlushSink;
use homa_io::WriteFailed;
use homa_plain::{Entry, Event, WorldFault};
use std::alloc::Global;

/// A world that is played event by event, and tells the entries of the last one.
pub trait ReplayWorld {
    /// The plain worlds that it may be: they are one but for packets of which no delivery shows more, and but for what the
    /// services will answer, which isn't known.
    ghost stands: { Self → World → Type 0 };

    ghost settings: { Self → Settings };

    /// How many events were applied.
    ghost events: { Self → ℕ };

    /// The entries of the last event.
    ghost told: { Self → List PlainEntry };

    /// The entries whose answers the boxes allow, from now on.
    ghost allows: { Self → List PlainEntry → Type 0 };

    /// Applies an event, with the request of a call or the datagram that is injected beside it. It is the plain world's
    /// outcome, or the plain world's fault, or there is no memory. After an error it stands for the plain worlds that it stood
    /// for, and its boxes allow no more than before.
    fn apply(&mut self, alloc: Global, event: &Event, bytes: &[u8]) -> Result<(), WorldFault>
        requires few { events self.old < 2 ^ 57 }
        ensures done { OnOk result ((w : World) → stands self.old w
            → IsApplied (settings self.old) w (record { event = event.now; bytes = bytes.now }) (stands self.new) (told self.new) (allows self.old)
            (allows self.new)) }
        ensures fault { IfErr result (λ fault. (w : World) → stands self.old w
            → IsNotApplied (settings self.old) w (record { event = event.now; bytes = bytes.now }) fault) }
        ensures kept { OnErr result ((w : World) → stands self.old w → stands self.new w) }
        ensures allows { OnErr result ((told : List PlainEntry) → allows self.new told → allows self.old told) }
        ensures settings { settings self.new ≡ settings self.old }
        ensures counted { events self.new ≤ events self.old + 1 };

    /// How many entries the last event has.
    fn entries(&self) -> usize
        ensures { result ≡ length (told self.now) };

    /// One of them.
    fn entry(&self, i: usize) -> Entry<'_>
        requires { i < length (told self.now) }
        ensures entry { slice_get (told self.now) i ≡ Some (plain result) }
        ensures line { HasLine (plain result) };

    /// Prints the entries of the last event, each where it is made.
    fn put_entries<K: FlushSink>(&self, sink: &mut K) -> Result<(), WriteFailed>
        ensures { IsWritten K.taken K.faults K.is_same result sink.old sink.new (flat_map line_text (told self.now)) };

    /// No box has to allow nothing.
    ghost allows_none: { (w : Self) → allows w [] };
}
