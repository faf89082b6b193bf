// What a host is lent for a step.
use host_view::Outbox;
use msg_pool::Scratch;

/// Its service, the outbox of its frames, and the room for a message that becomes whole.
#[derive(Drop)]
pub(crate) struct Lent<'a, V> {
    pub service: &'a mut V,
    pub out: &'a mut Outbox,
    pub scratch: &'a mut Scratch,
}
