// A handle of a host.
ghost use Rattle.std.specs.Prelude.{◌≡◌};

pub(crate) mod slot;

use slot::Slot;

/// A host, as C holds it. While it is open, it owns the host of its slot.
#[repr(C)]
#[derive(Drop)]
pub struct Handle {
    pub slot: Slot,
    pub is_open: bool,
    pub ghost fits: { is_open ≡ slot.is_held },
}
