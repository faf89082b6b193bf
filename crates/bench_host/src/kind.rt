// The kinds of deliveries.

/// What is handed over, for one row after the other.
#[derive(Clone, Copy, Debug, PartialEq, Eq)]
pub(crate) enum Kind {
    /// The next byte of a request. A GRANT goes out.
    Request,
    /// The next byte of a response. A GRANT goes out.
    Response,
    /// The first byte of a request, again.
    Repeat,
    /// A GRANT of the next byte of a request, which goes out.
    Grant,
    /// A RESEND of the first byte of a request, which goes out again.
    Resend,
    Busy,
    /// CUTOFFS that aren't newer.
    Cutoffs,
    /// The server has no record of the call: the request starts over.
    Unknown,
    /// A NEED_ACK of a call that is live, which is answered by a BUSY.
    NeedAck,
    /// An ACK of a call that is buried.
    Ack,
    /// No packet.
    Junk,
    /// The whole response to the oldest call, and a new call is made: a row goes, and one comes.
    Done,
}

impl Kind {
    /// All kinds.
    pub(crate) fn all() -> [Kind; 12] {
        [
            Kind::Request,
            Kind::Response,
            Kind::Repeat,
            Kind::Grant,
            Kind::Resend,
            Kind::Busy,
            Kind::Cutoffs,
            Kind::Unknown,
            Kind::NeedAck,
            Kind::Ack,
            Kind::Junk,
            Kind::Done,
        ]
    }

    /// Its word.
    pub(crate) fn name(self) -> &'static str {
        match self {
            Kind::Request => "request",
            Kind::Response => "response",
            Kind::Repeat => "repeat",
            Kind::Grant => "grant",
            Kind::Resend => "resend",
            Kind::Busy => "busy",
            Kind::Cutoffs => "cutoffs",
            Kind::Unknown => "unknown",
            Kind::NeedAck => "need_ack",
            Kind::Ack => "ack",
            Kind::Junk => "junk",
            Kind::Done => "done",
        }
    }

    /// Whether the host serves the calls of its rows, or else it made them.
    pub(crate) fn is_served(self) -> bool {
        match self {
            Kind::Request | Kind::Repeat | Kind::Ack | Kind::Junk => true,
            _ => false,
        }
    }
}
