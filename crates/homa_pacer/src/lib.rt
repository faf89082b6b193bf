//! The messages of a host that may be sent: which goes first, and how many bytes may still go out.
//! Rules: SRPT (`srpt`): the message with the fewest bytes left goes first; which piece of it, `homa_out/src/next_piece` says.
//! The credit (`credit`), which is filled up to `rate` once a tick.
//!
//! The model: a [`Pacer`] is the list of the messages that may be sent, in the order of the bytes that are left of
//! them, ties by an order number. Beside it stand the credit and the rate to which it is filled up. A message is named
//! by its slot, the place of its row. The promise: a call changes the entry of its own slot or the credit and nothing
//! else, and `pick` answers the message with the fewest bytes left. Only `open` takes memory.
#![tactic(auto)]

mod credit;
mod srpt;

ghost use Rattle.std.specs.Prelude.{◌≡◌, ◌+◌, [], length, map, IfOk};
ghost use Rattle.place_heap.specs.Held.{list_of};
ghost use Rattle.homa_plain.specs.Settings.{IsValid};
ghost use Rattle.homa_pacer.specs.Pace.{IsSound, item_of};

use homa_plain::Settings;
use place_heap::PlaceHeap;
use std::alloc::{AllocError, Global};
use std::marker::Model;

/// The messages of a host that may be sent, at most one for each slot, and the bytes that may still be sent.
#[derive(Drop)]
pub struct Pacer {
    heap: PlaceHeap,
    // To how many bytes the credit is filled up.
    rate: u32,
    // How many of them may still be sent.
    credit: u32,
    // The tick in which the credit was refilled last.
    refilled: u64,
}

impl Model for Pacer {
    ghost use Rattle.homa_pacer.specs.Pace.{Pace, pace_by, IsSound};

    ghost Value = { Pace };

    ghost view = { λ p. pace_by p.heap p.rate p.credit p.refilled };

    ghost invariant = { λ p. IsSound (pace_by p.heap p.rate p.credit p.refilled) };
}

impl Pacer {
    /// A pacer in tick 0 without messages, with a slot for each row that a host may have and the credit of one tick,
    /// `rate` bytes. Fails where memory runs out.
    pub fn open(alloc: Global, settings: &Settings) -> Result<Pacer, AllocError>
        requires { IsValid settings.now }
        ensures opened { IfOk result (λ pacer. pacer ≡ record {
          slots = settings.now.calls + settings.now.served;
          rate = settings.now.rate;
          credit = settings.now.rate;
          refilled = 0;
          ready = [];
        }) }
        ensures sound { IfOk result IsSound }
    {
        Ok(Pacer {
            heap: PlaceHeap::new(alloc, settings.slots())?,
            rate: settings.rate,
            credit: settings.rate,
            refilled: 0,
        })
    }

    /// The heap: the slots whose messages may be sent, with their keys.
    pub fn heap(&self) -> &PlaceHeap
        ensures ready { list_of result.now ≡ map item_of self.now.ready }
        ensures slots { length result.now.cells ≡ self.now.slots }
    {
        &self.heap
    }
}
