//! The timers of a host's rows: when each is to act, and which is due first.
//! Rules: the timers of RESEND after silence, of timeouts, of held responses, of NEED_ACK and of tombstones; the first
//! due acts first.
//!
//! The model: a [`Timers`] is how many slots there are, and the list of the timers that are armed, in the order of
//! their deadlines, ties by an order number. A slot is a row's place. The promise: a call changes the timer of its
//! own slot and no other, and `due` answers the slot that the definition of due rows lists first. Only `open` takes
//! memory.
#![tactic(auto)]

ghost use Rattle.std.specs.Prelude.{◌≡◌, ◌+◌, ◌<◌, ◌↔◌, [], length, map, IsNone, IfSome, IfOk};
ghost use Rattle.std.specs.Option.{option_map};
ghost use Rattle.place_heap.specs.Held.{list_of};
ghost use Rattle.plain_sets.specs.Ordered.{placed, first_of};
ghost use Rattle.homa_plain.specs.Timers.{due};
ghost use Rattle.homa_plain.specs.Settings.{IsValid};
ghost use Rattle.homa_timers.specs.Armed.{timer_key, without, IsOwnOrder, NoneDue, IsSound, item_of};

use homa_plain::Settings;
use host_heap::{first, put, take_out};
use place_heap::{Key, PlaceHeap};
use std::alloc::{AllocError, Global};
use std::marker::Model;

/// The timers of the rows of a host, at most one for each slot.
#[derive(Drop)]
pub struct Timers {
    heap: PlaceHeap,
}

impl Model for Timers {
    ghost use Rattle.homa_timers.specs.Armed.{Armed, armed_by, IsSound};

    ghost Value = { Armed };

    ghost view = { λ t. armed_by t.heap };

    ghost invariant = { λ t. IsSound (armed_by t.heap) };
}

impl Timers {
    /// Timers of as many slots as a host may have rows with these settings, none of them armed. Fails where memory
    /// runs out.
    pub fn open(alloc: Global, settings: &Settings) -> Result<Timers, AllocError>
        requires { IsValid settings.now }
        ensures slots { IfOk result (λ timers. timers.slots ≡ settings.now.calls + settings.now.served) }
        ensures none { IfOk result (λ timers. timers.timers ≡ []) }
        ensures sound { IfOk result IsSound }
    {
        Ok(Timers {
            heap: PlaceHeap::new(alloc, settings.slots())?,
        })
    }

    /// Arms the timer of a slot for tick `at`, in place of the one that it had. Of two with one deadline the one with
    /// the lower `order` is due first.
    pub fn arm(&mut self, slot: u32, at: u64, order: u64)
        requires slot { slot < self.old.slots }
        requires order { IsOwnOrder slot order self.old.timers }
        ensures timers { self.new.timers
            ≡ placed timer_key (record { slot = slot; at = at; order = order }) (without slot self.old.timers) }
        ensures slots { self.new.slots ≡ self.old.slots }
        ensures sound { IsSound self.new }
    {
        let key = Key {
            first: at,
            second: order,
        };
        put(&mut self.heap, slot, key);
    }

    /// Takes the timer of a slot away, if it has one.
    pub fn disarm(&mut self, slot: u32)
        requires { slot < self.old.slots }
        ensures timers { self.new.timers ≡ without slot self.old.timers }
        ensures slots { self.new.slots ≡ self.old.slots }
        ensures sound { IsSound self.new }
    {
        take_out(&mut self.heap, slot);
    }

    /// The slot whose timer is due first at tick `now`, if any has come to its deadline.
    pub fn due(&self, now: u64) -> Option<u32>
        ensures first { result ≡ option_map (λ t. t.slot) (first_of (due timer_key now self.now.timers)) }
        ensures none { IsNone result ↔ NoneDue now self.now.timers }
        ensures within { IfSome result (λ slot. slot < self.now.slots) }
    {
        let (slot, key) = first(&self.heap)?;
        (key.first <= now).then_some(slot)
    }

    /// The heap: the slots whose timers are armed, with their keys.
    pub fn heap(&self) -> &PlaceHeap
        ensures timers { list_of result.now ≡ map item_of self.now.timers }
        ensures slots { length result.now.cells ≡ self.now.slots }
    {
        &self.heap
    }
}
