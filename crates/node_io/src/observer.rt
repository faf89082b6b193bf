// What a node's run is told to.
ghost use Rattle.std.specs.Prelude.{◌≡◌, ◌≤◌, ℕ, Bool, true, false, Option, List, OnErr, OnOk};
ghost use Rattle.homa_io.specs.Outside.{appended, HasRisen, TookFront};
ghost use Rattle.homa_plain.specs.Entries.{plain};
ghost use Rattle.homa_plain.specs.Told.{HasLine};
ghost use Rattle.node_runs.specs.Course.{Report, Tells, Turning};
ghost use Rattle.node_runs.specs.Recorder.{Notes};
ghost use Rattle.node_io.specs.Observer.{IsSeen, IsComing, OnWrite, UnlessWrite, OnStranger};

use homa_io::WriteFailed;
use homa_plain::{Entry, HostId};

/// Why an observer doesn't take a report.
#[derive(Clone, Copy, Debug, PartialEq, Eq)]
pub enum SeenFault {
    /// Its sink failed, which took a front of what was to be told.
    Write(WriteFailed),
    /// A datagram is strange. That is told.
    Stranger,
    /// There is no memory. The sink took a front of what was to be told.
    NoMemory,
}

/// What is told each report of a node's run, in order. What it tells of them goes to its sink.
pub trait Observer {
    /// The bytes that its sink took, where that can tell.
    ghost taken: { Self → Option (List ℕ) };

    /// How many faults its sink had; the count stays at its last value, 2^64 - 1.
    ghost faults: { Self → ℕ };

    /// It is the same observer, and a reference in it refers to the same one.
    ghost is_same: { Self → Self → Type 0 };

    /// What it keeps of the reports so far.
    ghost notes: { Self → Notes };

    /// What it tells of a report, by its notes.
    ghost told: { Notes → Report → List ℕ };

    /// What it keeps after a report.
    ghost kept: { Notes → Report → Notes };

    /// Whether a report is strange to it.
    ghost strange: { Notes → Report → Bool };

    /// Takes an entry: tells it, and keeps what it keeps of it. An Ok answer comes only where the entry isn't strange. After
    /// an error the sink took a front of what was to be told, and all of it where the entry is strange; then nothing is
    /// kept. Only an error of the sink counts a fault.
    fn seen(&mut self, entry: &Entry<'_>) -> Result<(), SeenFault>
        requires seen { IsSeen (plain entry.now) }
        requires line { HasLine (plain entry.now) }
        ensures told { OnOk result (taken self.new ≡ appended (taken self.old) (told (notes self.old) (Tells (plain entry.now)))) }
        ensures kept { OnOk result (notes self.new ≡ kept (notes self.old) (Tells (plain entry.now))) }
        ensures usual { OnOk result (strange (notes self.old) (Tells (plain entry.now)) ≡ false) }
        ensures err { OnErr result (TookFront (taken self.old) (taken self.new) (told (notes self.old) (Tells (plain entry.now)))) }
        ensures stranger { OnStranger result (strange (notes self.old) (Tells (plain entry.now)) ≡ true) }
        ensures stranger_told { OnStranger result (taken self.new ≡ appended (taken self.old) (told (notes self.old) (Tells (plain entry.now)))) }
        ensures stranger_kept { OnStranger result (notes self.new ≡ notes self.old) }
        ensures risen { OnWrite result (HasRisen (faults self.old) (faults self.new)) }
        ensures quiet { UnlessWrite result (faults self.new ≡ faults self.old) }
        ensures never_falls { faults self.old ≤ faults self.new }
        ensures same { is_same self.old self.new };

    /// Takes that a turn of a host begins: as an entry, but that it is never strange.
    fn turning(&mut self, host: HostId) -> Result<(), SeenFault>
        ensures told { OnOk result (taken self.new ≡ appended (taken self.old) (told (notes self.old) (Turning host))) }
        ensures kept { OnOk result (notes self.new ≡ kept (notes self.old) (Turning host)) }
        ensures err { OnErr result (TookFront (taken self.old) (taken self.new) (told (notes self.old) (Turning host))) }
        ensures stranger { OnStranger result ⊥ }
        ensures risen { OnWrite result (HasRisen (faults self.old) (faults self.new)) }
        ensures quiet { UnlessWrite result (faults self.new ≡ faults self.old) }
        ensures never_falls { faults self.old ≤ faults self.new }
        ensures same { is_same self.old self.new };

    /// An observer is the same as itself.
    ghost same_self: { (a : Self) → is_same a a };

    /// What is the same over two steps is the same over both.
    ghost same_on: { (a b c : Self) → is_same a b → is_same b c → is_same a c };

    /// Only a datagram that comes is strange.
    ghost strange_comes: { (n : Notes) (report : Report) → strange n report ≡ true → IsComing report };
}
