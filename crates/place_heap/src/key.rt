//! What orders a heap.
ghost use Rattle.std.specs.Prelude.{◌≡◌};
ghost use Rattle.place_heap.specs.Order.{is_before};

/// Keys are ordered by `first`, and then by `second`.
#[derive(Clone, Copy, Debug, Default, PartialEq, Eq, PartialOrd, Ord)]
pub struct Key {
    pub first: u64,
    pub second: u64,
}

/// A slot with its key.
pub type Item = (u32, Key);

/// Whether a slot with its key stands before another: by key, and then by slot.
#[tactic(auto, unfolding(crate::specs::Order::is_before))]
pub(crate) fn stands_before(slot: u32, key: Key, other_slot: u32, other: Key) -> bool
    ensures { result ≡ is_before (slot, key) (other_slot, other) }
{
    key.first < other.first
        || key.first == other.first
            && (key.second < other.second || key.second == other.second && slot < other_slot)
}
