// The entries of a step, without the bytes that are elsewhere.
use homa_plain::{CallId, Cutoffs, HostId, Why};

/// One entry of a step. The bytes of a call and of a response are in its row, those of a message that became whole in
/// the scratch, and those of a packet in the outbox.
#[derive(Clone, Copy, Debug, PartialEq, Eq)]
pub enum Mark {
    /// A call to this service of a host started.
    Called {
        id: CallId,
        server: HostId,
        service: u8,
    },
    /// The bytes that came are no packet.
    Junk,
    /// The packet that came was sent at this tick, too long ago.
    Stale {
        at: u64,
    },
    /// The cutoffs were computed anew.
    Balanced {
        cutoffs: Cutoffs,
    },
    /// The service was called, and its response is held back for `hold` ticks.
    Ran {
        id: CallId,
        service: u8,
        hold: u32,
    },
    /// A response is whole at the client.
    Done {
        id: CallId,
    },
    /// A call failed at its client.
    Failed {
        id: CallId,
        why: Why,
    },
    /// A request that isn't whole was given up.
    Dropped {
        id: CallId,
    },
    /// A piece that would have left more than 64 gaps in a message was refused.
    TooManyGaps {
        id: CallId,
    },
    /// A server keeps of a call only that it ran, up to tick `until`.
    Entombed {
        id: CallId,
        until: u64,
    },
    /// A server forgets that a call ran.
    Freed {
        id: CallId,
    },
    /// A server has `rows` rows, and the limit is `limit`.
    NoRow {
        id: CallId,
        rows: u32,
        limit: u32,
    },
    /// A message needs `need` pages, and `free` are free.
    NoPages {
        id: CallId,
        need: u32,
        free: u32,
    },
    /// The packet with this number, counted from 0 within the step, was sent.
    Sent {
        number: u32,
    },
}

impl Default for Mark {
    /// The mark that the bytes which arrived are no packet.
    fn default() -> Mark {
        Mark::Junk
    }
}
