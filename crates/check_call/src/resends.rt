// The RESENDs of a call since its last renewal.
ghost use Rattle.std.specs.Prelude.{◌≡◌, ◌+◌, ◌==◌, ◌&&◌, nat_le, ℕ, List, ◌∷◌, length};
ghost use Rattle.trace_rules.specs.Judge.{are_spaced};
ghost use Rattle.check_call.specs.Kept.{AreResends, own_value};

/// A tick by a host's own clock: the clock's, and by how many ticks the host's is ahead of it.
#[derive(Clone, Copy, Debug, PartialEq, Eq)]
pub struct OwnTick {
    pub tick: u64,
    pub lead: u32,
}

impl OwnTick {
    // The tick as a number.
    fn value(self) -> u128
        ensures { result ≡ own_value self }
    {
        u128::from(self.tick) + u128::from(self.lead)
    }
}

/// How many there were, the tick of the latest, and whether each was at least `resend` ticks above the one before it.
#[derive(Clone, Copy)]
pub struct Resends {
    pub count: u64,
    pub latest: OwnTick,
    pub are_spaced: bool,
}

// Whether a tick is at least a gap above one before it.
fn is_above(tick: OwnTick, before: OwnTick, gap: u32) -> bool
    ensures { result ≡ nat_le (own_value before + gap) (own_value tick) }
{
    before.value() + u128::from(gap) <= tick.value()
}

impl Resends {
    /// None yet.
    pub const NONE: Resends = Resends {
        count: 0,
        latest: OwnTick { tick: 0, lead: 0 },
        are_spaced: true,
    };

    /// Whether a tick is at least a gap above the latest, and each one above the one before it.
    pub fn are_spaced_up_to(self, tick: OwnTick, gap: u32) -> bool
        ensures { (ticks : List ℕ) → AreResends gap self ticks → result ≡ are_spaced gap (own_value tick ∷ ticks) }
    {
        self.count == 0 || is_above(tick, self.latest, gap) && self.are_spaced
    }

    /// With one more.
    pub fn told(self, tick: OwnTick, gap: u32) -> Resends
        ensures { (ticks : List ℕ) → AreResends gap self ticks → AreResends gap result (own_value tick ∷ ticks) }
    {
        Resends {
            count: self.count.saturating_add(1),
            latest: tick,
            are_spaced: self.are_spaced_up_to(tick, gap),
        }
    }

    /// There were `tries`, each `gap` ticks behind the one before, and now it is as long again.
    pub fn are_unanswered(self, tick: OwnTick, tries: u32, gap: u32) -> bool
        ensures { (ticks : List ℕ) → AreResends gap self ticks → result ≡ (length ticks == tries && are_spaced gap (own_value tick ∷ ticks)) }
    {
        self.count == u64::from(tries) && self.are_spaced_up_to(tick, gap)
    }
}
