// What the last event of a world told.
ghost use Rattle.std.specs.Prelude.{◌≡◌, ◌≤◌, ◌<◌, ℕ, Some, List, length, slice_get};
ghost use Rattle.homa_plain.specs.Entries.{plain};
ghost use Rattle.homa_plain.specs.Told.{HasLine};
ghost use Rattle.host_table.specs.Staged.{frames_of};
ghost use Rattle.homa_world.specs.Counting.{kind_before, unmarked_kind, Stands, IsKindOf, AreMarksOf};
ghost use Rattle.homa_world.specs.Standing.{first_told, told_of, IsKept};

use crate::kinds::LineKind;
use crate::parts::{First, Last, WorldParts};
use homa_plain::{Entry, HostId};
use homa_service::Service;
use host_table::number_on;
use host_view::Mark;

impl First {
    // How many entries it is.
    fn entries(self) -> usize
        ensures told { (host : HostId) (bytes : List ℕ) → result ≡ length (first_told host self bytes) }
        ensures few { result ≤ 1 }
    {
        match self {
            First::Nothing => 0,
            First::Delivered(_) | First::Injected => 1,
        }
    }

    // The kind of its line, if it is counted.
    fn kind(self) -> Option<LineKind>
        ensures { result ≡ kind_before self }
    {
        match self {
            First::Delivered(_) => Some(LineKind::Deliver),
            First::Nothing | First::Injected => None,
        }
    }
}

impl<S: Service> WorldParts<S> {
    /// How many entries the last event has. Behind an event that was refused there may be none, or those of the event before it.
    pub fn entries(&self) -> usize
        requires kept { IsKept S.served self.now }
        ensures { result ≡ length (told_of self.now) }
    {
        match self.last {
            Last::Nothing => 0,
            Last::Ticked | Last::Restarted { .. } | Last::Shifted { .. } => 1,
            Last::Stepped { host, first, .. } => first.entries() + self.stage.entries(host),
        }
    }

    /// The entry of the last event with this number, counted from 0.
    pub fn entry(&self, i: usize) -> Entry<'_>
        requires kept { IsKept S.served self.now }
        requires i { i < length (told_of self.now) }
        ensures entry { slice_get (told_of self.now) i ≡ Some (plain result) }
        ensures line { HasLine (plain result) }
    {
        match self.last {
            Last::Nothing => unreachable!(),
            Last::Ticked => Entry::Clock { tick: self.clock },
            Last::Restarted { host, inc } => Entry::Restart { host, inc },
            Last::Shifted { host, n } => Entry::Shift { host, n },
            Last::Stepped { host, first, base } => {
                let before = first.entries();
                if i < before {
                    return self.first_entry(host, first);
                }
                let mut entry = self.stage.entry(host, i - before);
                number_on(base, &mut entry);
                entry
            }
        }
    }

    /// The kind of the line of the last event's entry that no mark shows, if it is counted.
    pub fn unmarked_kind(&self) -> Option<LineKind>
        ensures { result ≡ unmarked_kind self.now.last }
    {
        match self.last {
            Last::Ticked => Some(LineKind::Clock),
            Last::Stepped { first, .. } => first.kind(),
            Last::Nothing | Last::Restarted { .. } | Last::Shifted { .. } => None,
        }
    }

    /// The marks of the last event's entries, if it was a step of a host.
    pub fn marks(&self) -> &[Mark]
        requires kept { IsKept S.served self.now }
        ensures { AreMarksOf self.now self.now.last result.now }
    {
        match self.last {
            Last::Stepped { host, .. } => self.stage.marks(host),
            _ => &[],
        }
    }

    /// The kind of the line of the entry that a mark shows, if it is counted.
    pub fn mark_kind(&self, mark: &Mark) -> Option<LineKind>
        requires stands { Stands (frames_of self.now.stage) mark.now }
        ensures { IsKindOf (frames_of self.now.stage) mark.now result }
    {
        LineKind::of_mark(mark, self.stage.outbox())
    }

    // The entry that stands before those of a host's step.
    fn first_entry(&self, host: HostId, first: First) -> Entry<'_>
        requires some { 0 < length (first_told host first self.now.injected.items) }
        ensures entry { slice_get (first_told host first self.now.injected.items) 0 ≡ Some (plain result) }
        ensures line { HasLine (plain result) }
    {
        match first {
            First::Nothing => unreachable!(),
            First::Delivered(packet) => Entry::Deliver { packet },
            First::Injected => Entry::Inject {
                host,
                bytes: &self.injected,
            },
        }
    }
}
