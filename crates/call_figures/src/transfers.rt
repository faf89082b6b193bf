// The messages of the calls of a run.
ghost use Rattle.std.specs.Prelude.{◌≡◌, ◌+◌, ◌*◌, ◌++◌, ◌∷◌, [], slice_get, slice_set, OnOk};
ghost use Rattle.call_figures.specs.Sides.{spot};

use crate::transfer::Transfer;
use std::alloc::{AllocError, Global};
use std::marker::Model;

/// The messages of all calls: of each call its request and its response. Contracts see their list.
#[derive(Drop)]
pub struct Transfers {
    all: Vec<Transfer>,
}

impl Model for Transfers {
    ghost use Rattle.std.specs.Prelude.{List};
    ghost use Rattle.call_figures.specs.declared.transfer.Transfer.{Transfer};

    ghost Value = { List Transfer };

    ghost view = { λ t. t.all.items };
}

// Where the message of a side of the call at a place stands.
fn spot_of(place: u32, is_response: bool) -> usize
    ensures { result ≡ spot place is_response }
{
    let first = 2 * place as usize;
    if is_response { first + 1 } else { first }
}

impl Transfers {
    /// No messages.
    pub fn new(alloc: Global) -> Transfers
        ensures { result ≡ [] }
    {
        Transfers {
            all: Vec::new(alloc),
        }
    }

    /// A call is made behind the others: its request begins, and its response isn't known. After an error the run of calls is over.
    pub fn begin(&mut self, request: Transfer, response: Transfer) -> Result<(), AllocError>
        ensures { OnOk result (self.new ≡ (self.old ++ request ∷ []) ++ response ∷ []) }
    {
        self.all.push(request)?;
        self.all.push(response)?;
        Ok(())
    }

    /// The message of a side of the call at a place; none where there is no such call.
    pub fn message(&self, place: u32, is_response: bool) -> Option<Transfer>
        ensures { result ≡ slice_get self.now (spot place is_response) }
    {
        self.all.get(spot_of(place, is_response)).copied()
    }

    /// The message of a side of the call at a place is now this; nothing changes where there is no such call.
    pub fn set(&mut self, place: u32, is_response: bool, message: Transfer)
        ensures { self.new ≡ slice_set self.old (spot place is_response) message }
    {
        let spot = spot_of(place, is_response);
        if spot < self.all.len() {
            self.all[spot] = message;
        }
    }
}
