// What a call is lent by the host whose row it is.
use msg_pool::{MsgPool, Scratch};

/// What a host lends: the pool of its requests, its service, and the room for the request that becomes whole.
#[derive(Drop)]
pub(crate) struct Lent<'a, V> {
    pub pool: &'a mut MsgPool,
    pub service: &'a mut V,
    pub scratch: &'a mut Scratch,
}
