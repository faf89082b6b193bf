// The host of a slot, to be changed.
ghost use Rattle.std.specs.Prelude.{◌≡◌, true};
ghost use types.Logic.{sem};
ghost use Rattle.homa_c.specs.Followed.{slot_follows};

use super::Slot;
use late_host::LateHost;

impl Slot {
    // The host that the slot holds; what is written to it is the slot's.
    pub(crate) fn as_mut(&mut self) -> &mut LateHost
        requires { self.old.is_held ≡ true }
        ensures* writes_back { sem 𝓛 (slot_follows self.entry result) }
        ensures value { result.now ≡ self.old.held }
    {
        unsafe { &mut *(self.at as *mut LateHost) }
    }
}
