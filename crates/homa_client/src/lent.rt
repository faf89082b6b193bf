//! What a call is lent by the host whose row it is.
use msg_pool::{MsgPool, Scratch};

/// What a host lends: the pool of its responses, and the room for the response that becomes whole.
#[derive(Drop)]
pub(crate) struct Lent<'a> {
    pub pool: &'a mut MsgPool,
    pub scratch: &'a mut Scratch,
}
