//! What the calls of both tables are given of a packet.

/// When a packet comes, by the host's own clock, and the number of whatever is opened next.
#[derive(Clone, Copy)]
pub struct Moment {
    pub now: u64,
    pub order: u64,
}

/// A piece of a message: how many bytes the message has, where the piece begins, for which service a request is, and the
/// piece's bytes.
#[derive(Clone, Copy)]
pub struct Piece<'a> {
    pub size: u32,
    pub offset: u32,
    pub service: u8,
    pub bytes: &'a [u8],
}
