// The count of faults, and a plan of which calls are to fail.
ghost use Rattle.std.specs.Prelude.{◌≡◌, ◌≤◌, ◌+◌, ◌-◌, ◌^◌, ◌↔◌, ◌⊎◌, false, min, Contains, IsErr, OnOk, OnErr};
ghost use Rattle.homa_io.specs.Outside.{HasRisen};

use crate::NetFailed;

/// A number of faults, which stays at its last value.
#[derive(Clone, Copy, Debug, PartialEq, Eq)]
pub(crate) struct FaultCount(pub(crate) u64);

impl FaultCount {
    pub(crate) const NONE: FaultCount = FaultCount(0);

    /// Counts one more fault.
    pub(crate) fn raise(&mut self)
        ensures risen { HasRisen self.old.0 self.new.0 }
        ensures never_falls { self.old.0 ≤ self.new.0 }
    {
        self.0 = self.0.saturating_add(1);
    }
}

/// Numbers the calls from 0, knows which of them are to fail, and counts the faults.
#[derive(Drop)]
pub(crate) struct Calls {
    pub(crate) fails: Vec<u64>,
    pub(crate) next: u64,
    pub(crate) faults: FaultCount,
}

impl Calls {
    /// Before the first call, without a fault.
    pub(crate) fn new(fails: Vec<u64>) -> Calls
        ensures fails { result.fails ≡ fails }
        ensures first { result.next ≡ 0 }
        ensures faults { result.faults.0 ≡ 0 }
    {
        Calls {
            fails,
            next: 0,
            faults: FaultCount::NONE,
        }
    }

    /// Numbers a call. It fails exactly where that is planned or there is no room for it, and only that counts a fault.
    pub(crate) fn begin(&mut self, has_room: bool) -> Result<(), NetFailed>
        ensures planned { IsErr result ↔ (Contains self.old.fails.items self.old.next ⊎ (has_room ≡ false)) }
        ensures numbered { self.new.next ≡ min (self.old.next + 1) (2 ^ 64 - 1) }
        ensures kept { self.new.fails ≡ self.old.fails }
        ensures risen { OnErr result (HasRisen self.old.faults.0 self.new.faults.0) }
        ensures quiet { OnOk result (self.new.faults ≡ self.old.faults) }
        ensures never_falls { self.old.faults.0 ≤ self.new.faults.0 }
    {
        let call = self.next;
        self.next = call.saturating_add(1);
        let is_to_fail = self.fails.contains(&call);
        if is_to_fail || !has_room {
            self.faults.raise();
            return Err(NetFailed);
        }
        Ok(())
    }
}
