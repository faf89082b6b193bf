// The block of lines that isn't closed.
ghost use Rattle.std.specs.Prelude.{◌≡◌, ◌&&◌, if◌then◌else◌, Some, None, false, List, ◌∷◌};
ghost use Rattle.std.specs.Option.{option_to_list, option_map_or};
ghost use Rattle.check_lines.specs.Changes.{IsChange, IsMade};
ghost use Rattle.check_lines.specs.Traces.{IsNamed, IsUndoOf, due_of};
ghost use Rattle.check_lines.specs.declared.trace.Trace.{Trace as ATrace};
ghost use Rattle.check_call.specs.Spots.{Spot as ASpot, Undo, undo_each, only};
ghost use Rattle.homa_plain.specs.Calls.{is_call, is_host};
ghost use Rattle.trace_rules.specs.Judge.{are_same_calls};
ghost use Rattle.homa_plain.specs.declared.id.CallId.{CallId as ACall};

use check_call::{Change, Packet, Spot};
use homa_plain::{CallId, HostId};

/// The calls that lines of one kind name in a block.
#[derive(Clone, Copy, Debug, PartialEq, Eq)]
pub enum Named {
    Nobody,
    Only(CallId),
    Several,
}

// Two are one call.
pub fn is_same(a: CallId, b: CallId) -> bool
    ensures { result ≡ is_call a b }
{
    a == b
}

// It is this call.
fn is_some_of(due: Option<CallId>, id: CallId) -> bool
    ensures { result ≡ option_map_or (is_call id) due false }
{
    match due {
        Some(due) => is_same(id, due),
        None => false,
    }
}

impl Named {
    /// With one more.
    pub(crate) fn with(self, id: CallId) -> Named
        ensures { (ids : List ACall) → IsNamed self ids → IsNamed result (id ∷ ids) }
    {
        match self {
            Named::Nobody => Named::Only(id),
            Named::Only(other) => {
                if is_same(other, id) {
                    self
                } else {
                    Named::Several
                }
            }
            Named::Several => Named::Several,
        }
    }

    /// They are this call where it is due, and none where it isn't.
    pub fn is_exactly(self, due: Option<CallId>) -> bool
        ensures { (ids : List ACall) → IsNamed self ids → result ≡ are_same_calls ids (option_to_list due) }
    {
        match self {
            Named::Nobody => due.is_none(),
            Named::Only(id) => is_some_of(due, id),
            Named::Several => false,
        }
    }
}

/// The `run`, `done` and `fail` lines of a block.
#[derive(Clone, Copy, Debug, PartialEq, Eq)]
pub struct Here {
    pub runs: Named,
    pub dones: Named,
    pub forgotten: Named,
}

impl Here {
    /// None.
    pub(crate) const NONE: Here = Here {
        runs: Named::Nobody,
        dones: Named::Nobody,
        forgotten: Named::Nobody,
    };
}

/// The delivery with which a block began: the packet, its call as it is if the delivery is refused, and if it is stale,
/// and what is due because of it.
#[derive(Clone, Copy)]
pub struct Delivery {
    pub packet: Packet,
    pub refused: Spot,
    pub stale: Spot,
    pub runs: bool,
    pub done: bool,
    pub forgotten: bool,
}

impl Delivery {
    /// Of a packet whose call wasn't made.
    pub(crate) fn of_none(packet: Packet) -> Delivery
        ensures packet { result.packet ≡ packet }
        ensures runs { result.runs ≡ false }
        ensures done { result.done ≡ false }
        ensures forgotten { result.forgotten ≡ false }
    {
        Delivery {
            packet,
            refused: Spot::EMPTY,
            stale: Spot::EMPTY,
            runs: false,
            done: false,
            forgotten: false,
        }
    }

    /// It is of a packet of this call to this host.
    pub(crate) fn is_to(&self, host: HostId, id: CallId) -> bool
        ensures { result ≡ (is_call self.now.packet.id id && is_host self.now.packet.to host) }
    {
        self.packet.id == id && self.packet.to == host
    }

    /// With a change of a call.
    pub(crate) fn changed(self, id: CallId, change: Change) -> Delivery
        ensures undo { (t : ATrace) (u : Undo) (f : ASpot → ASpot) → IsChange t id change f → IsMade t id → IsUndoOf t self u
            → IsUndoOf t result (undo_each (only id f) u) }
        ensures due { due_of (Some result) ≡ due_of (Some self) }
    {
        if !is_same(self.packet.id, id) {
            return self;
        }
        Delivery {
            refused: self.refused.changed(change),
            stale: self.stale.changed(change),
            ..self
        }
    }

    /// Its bytes aren't admitted.
    pub(crate) fn without_bytes(self) -> Delivery
        ensures { result ≡ record self { runs = false; done = false } }
    {
        Delivery {
            runs: false,
            done: false,
            ..self
        }
    }

    // The packet's call, if something is due.
    fn due(&self, is_due: bool) -> Option<CallId>
        ensures { result ≡ (if is_due then Some self.now.packet.id else None) }
    {
        if is_due { Some(self.packet.id) } else { None }
    }
}

/// The calls that are to run, to be done and to fail as forgotten.
#[derive(Clone, Copy)]
pub struct Due {
    pub run: Option<CallId>,
    pub done: Option<CallId>,
    pub forgotten: Option<CallId>,
}

impl Due {
    /// What is due in a block.
    pub fn of(delivery: &Option<Delivery>) -> Due
        ensures runs { option_to_list result.run ≡ (due_of delivery.now).runs }
        ensures dones { option_to_list result.done ≡ (due_of delivery.now).dones }
        ensures forgotten { option_to_list result.forgotten ≡ (due_of delivery.now).forgotten }
    {
        match delivery {
            Some(delivery) => Due {
                run: delivery.due(delivery.runs),
                done: delivery.due(delivery.done),
                forgotten: delivery.due(delivery.forgotten),
            },
            None => Due {
                run: None,
                done: None,
                forgotten: None,
            },
        }
    }
}
