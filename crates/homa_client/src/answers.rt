//! What the calls of the table answer.
//! Rules: the answers that stand for BUSY, an ACK, RESEND, an UNKNOWN and a timeout.
use homa_plain::CallId;

/// What a packet of a row's call did to the row.
#[derive(Debug, PartialEq, Eq, Drop)]
pub(crate) enum RowDid {
    /// The row may have changed.
    Touched,
    /// The response was opened, and isn't whole.
    Opened,
    /// The response is whole; `opened` tells whether this packet opened it.
    Done { opened: bool },
    /// There are too few free pages for the response.
    Full { need: u32, free: u32 },
    /// The response would have had too many gaps.
    Gaps,
    /// The server is told BUSY.
    Busy,
    /// The server has forgotten the call.
    Forgotten,
}

/// What a packet did to the table. `slot` is the place of the call's row.
#[derive(Debug, PartialEq, Eq, Drop)]
pub enum ClientDid {
    /// Nothing: the call isn't live, the packet isn't its server's, or it is one of an earlier life of the server.
    Nothing,
    /// The row may have changed.
    Touched(u32),
    /// The response was opened, and isn't whole.
    Opened(u32),
    /// The response is whole, and the row is gone; `opened` tells whether this packet opened the response.
    Done {
        slot: u32,
        id: CallId,
        opened: bool,
    },
    /// The response needs more pages than are free.
    Full {
        slot: u32,
        id: CallId,
        need: u32,
        free: u32,
    },
    /// The response would have had more than 64 gaps.
    Gaps {
        slot: u32,
        id: CallId,
    },
    /// The server is to be told BUSY.
    Busy(u32),
    /// The server asks whether a call is over that isn't live: it is to be told so.
    Ack,
    /// The server ran the call and has forgotten it. The row is gone.
    Forgotten {
        slot: u32,
        id: CallId,
    },
}

/// What a row did whose timer was due.
#[derive(Clone, Copy, Debug, PartialEq, Eq)]
pub enum ClientAct {
    /// The bytes of the response from the first number up to the second, not with it, are asked for.
    Resend(u32, u32),
    /// For too long nothing came that renews the call. The row is gone.
    Timeout(CallId),
}
