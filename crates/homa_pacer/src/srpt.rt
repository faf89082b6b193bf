//! What is sent next, by SRPT: the message with the fewest bytes left goes first, and the oldest of several with as many.
//! `homa_host/src/pump` sends its next piece.
ghost use Rattle.std.specs.Prelude.{◌≡◌, ◌<◌, ◌↔◌, [], IsNone, IfSome};
ghost use Rattle.std.specs.Option.{option_map};
ghost use Rattle.plain_sets.specs.Ordered.{placed};
ghost use Rattle.homa_plain.specs.SentNext.{least};
ghost use Rattle.homa_pacer.specs.Pace.{ready_key, without, IsOwnOrder, IsSound};

use crate::Pacer;
use host_heap::{first, put, take_out};
use place_heap::Key;

impl Pacer {
    /// The message of a slot may be sent, and `left` bytes of it are left, whatever stood under the slot. Of two with
    /// as many bytes left the one with the lower `order` is sent first.
    pub fn ready(&mut self, slot: u32, left: u32, order: u64)
        requires slot { slot < self.old.slots }
        requires order { IsOwnOrder slot order self.old.ready }
        ensures ready { self.new ≡ record self.old {
          ready =
              placed ready_key (record { slot = slot; left = left; order = order }) (without slot self.old.ready);
        } }
        ensures sound { IsSound self.new }
    {
        let key = Key {
            first: u64::from(left),
            second: order,
        };
        put(&mut self.heap, slot, key);
    }

    /// The message of a slot may not be sent any more, if it might.
    pub fn idle(&mut self, slot: u32)
        requires { slot < self.old.slots }
        ensures idle { self.new ≡ record self.old { ready = without slot self.old.ready } }
        ensures sound { IsSound self.new }
    {
        take_out(&mut self.heap, slot);
    }

    /// The slot of the message to be sent next, if any may be sent.
    pub fn pick(&self) -> Option<u32>
        ensures least { result ≡ option_map (λ r. r.slot) (least ready_key self.now.ready) }
        ensures none { IsNone result ↔ (self.now.ready ≡ []) }
        ensures within { IfSome result (λ slot. slot < self.now.slots) }
    {
        let (slot, _) = first(&self.heap)?;
        Some(slot)
    }
}
