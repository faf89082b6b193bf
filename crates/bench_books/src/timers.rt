// The mix over timers.
ghost use Rattle.std.specs.Prelude.{◌≡◌, ◌<◌};
ghost use Rattle.std.specs.List.{AllByRecursion};

use crate::mix::{Checksum, Mix, Numbers};
use homa_plain::Settings;
use homa_timers::Timers;
use std::alloc::{AllocError, Global};

// Arms the timer of a slot. Its order is the slot, as that of every other.
#[tactic(auto, using(crate::proofs::Orders::own_order, crate::proofs::Orders::order_kept))]
fn arm(timers: &mut Timers, slot: u32, at: u32)
    requires slot { slot < timers.old.slots }
    requires orders { AllByRecursion (λ t. t.order ≡ t.slot) timers.old.timers }
    ensures slots { timers.new.slots ≡ timers.old.slots }
    ensures orders { AllByRecursion (λ t. t.order ≡ t.slot) timers.new.timers }
{
    timers.arm(slot, u64::from(at), u64::from(slot));
}

/// All answers of `due`, in rounds in which the row that is due is armed for a later tick.
pub(crate) fn by_timers(alloc: Global, mix: Mix) -> Result<u64, AllocError> {
    let mut timers = Timers::open(alloc, &Settings::usual())?;
    let mut numbers = Numbers::new();
    let mut checksum = Checksum::new();
    'fills: for slot in 0..mix.rows {
        arm(&mut timers, slot, mix.key(0, numbers.next()));
    }
    'rounds: for round in 0..mix.rounds {
        if let Some(slot) = timers.due(u64::MAX) {
            checksum.add(slot);
            arm(&mut timers, slot, mix.key(round, numbers.next()));
        }
    }
    Ok(checksum.sum())
}
