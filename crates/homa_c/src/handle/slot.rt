// Room for a host.
ghost use Rattle.std.specs.Prelude.{◌≡◌, Bool, true, false};
ghost use Rattle.std.specs.Coded.{coded_bool};
ghost use Rattle.late_host.specs.Late.{Late};
ghost use Rattle.homa_c.specs.Owned.{held_coded, slot_owns};

mod lend;
mod parts;

use late_host::LateHost;
use parts::Parts;
use std::alloc::Global;
use std::marker::Model;
use std::ptr::null_mut;

/// What a slot points to, as C sees it.
#[repr(C)]
#[derive(Drop)]
pub struct Opaque {
    pub none: u8,
}

/// Room for a host: while it holds one, it owns the block in which that lies.
#[repr(C)]
#[derive(Drop)]
pub struct Slot {
    at: *mut Opaque,
    alloc: Global,
    pub ghost is_held: { Bool } by { coded_bool },
    pub ghost held: { Late } by { held_coded },
}

impl Model for Slot {
    ghost also_owns = { λ s. slot_owns s.alloc s.at s.is_held s.held };
}

impl Slot {
    // No host.
    pub(crate) fn none(alloc: Global) -> Slot
        ensures { result.is_held ≡ false }
    {
        Slot {
            at: null_mut(),
            alloc,
        }
    }

    // The host of a box.
    pub(crate) fn of(value: Box<LateHost>) -> Slot
        ensures is_held { result.is_held ≡ true }
        ensures held { result.held ≡ value.value }
    {
        Slot::of_parts(Parts::of(value))
    }

    fn of_parts(parts: Parts<LateHost, Global>) -> Slot
        ensures { (result.is_held ≡ true) × (result.held ≡ parts.value) }
    {
        let Parts { ptr, alloc } = parts;
        Slot {
            at: ptr as *mut Opaque,
            alloc,
        }
    }

    // The box of the host.
    pub(crate) fn into_box(self) -> Box<LateHost>
        requires { self.is_held ≡ true }
        ensures { result.value ≡ self.held }
    {
        self.into_parts().into_box()
    }

    fn into_parts(self) -> Parts<LateHost, Global>
        requires { self.is_held ≡ true }
        ensures { result.value ≡ self.held }
    {
        let Slot { at, alloc } = self;
        Parts {
            ptr: at as *mut LateHost,
            alloc,
        }
    }
}
