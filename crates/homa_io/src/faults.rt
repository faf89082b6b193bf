// The count of faults, and a plan of which calls are to fail.
ghost use Rattle.std.specs.Prelude.{◌≡◌, ◌≤◌, ◌+◌, ◌-◌, ◌^◌, ◌↔◌, min, IsTrue, Contains};

/// A number of faults, which stays at its last value.
#[derive(Clone, Copy, Debug, PartialEq, Eq)]
pub(crate) struct FaultCount(pub(crate) u64);

impl FaultCount {
    pub(crate) const NONE: FaultCount = FaultCount(0);

    /// Counts one more fault.
    pub(crate) fn raise(&mut self)
        ensures raised { self.new.0 ≡ min (self.old.0 + 1) (2 ^ 64 - 1) }
        ensures never_falls { self.old.0 ≤ self.new.0 }
    {
        self.0 = self.0.saturating_add(1);
    }
}

/// Numbers the calls from 0, and says which of them are to fail.
#[derive(Drop)]
pub(crate) struct FaultPlan {
    pub(crate) fails: Vec<u64>,
    pub(crate) next: u64,
}

impl FaultPlan {
    /// The plan before the first call.
    pub(crate) fn new(fails: Vec<u64>) -> FaultPlan
        ensures fails { result.fails ≡ fails }
        ensures first { result.next ≡ 0 }
    {
        FaultPlan { fails, next: 0 }
    }

    /// Numbers a call, and returns whether it is to fail.
    pub(crate) fn is_next_to_fail(&mut self) -> bool
        ensures planned { IsTrue result ↔ Contains self.old.fails.items self.old.next }
        ensures numbered { self.new.next ≡ min (self.old.next + 1) (2 ^ 64 - 1) }
        ensures kept { self.new.fails ≡ self.old.fails }
    {
        let call = self.next;
        self.next = call.saturating_add(1);
        self.fails.contains(&call)
    }
}
