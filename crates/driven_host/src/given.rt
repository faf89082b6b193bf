// A service that has one answer in hand, or none.
ghost use Rattle.std.specs.Prelude.{◌+◌, ◌<◌};

use homa_plain::LONGEST_MESSAGE;
use homa_service::{Reply, Service};
use std::alloc::{AllocError, Global};

// The answer to the request that becomes whole. None is in hand where it has no bytes; then the service finds no memory.
#[derive(Drop)]
pub(crate) struct Given<'a> {
    pub(crate) answer: &'a [u8],
    pub(crate) served: u64,
}

impl<'a> Service for Given<'a> {
    ghost use Rattle.driven_host.specs.Asking.{IsGiven};

    ghost served = { λ given. given.served };

    ghost allows = { λ given count number q r hold. IsGiven given.answer.now number q r hold };

    fn serve(&mut self, alloc: Global, _number: u8, _request: &[u8]) -> Result<Reply, AllocError> {
        if self.answer.is_empty() || self.answer.len() > LONGEST_MESSAGE as usize {
            return Err(AllocError);
        }
        let bytes = Vec::from_slice(alloc, self.answer)?;
        self.served += 1;
        Ok(Reply::new(bytes, 0))
    }
}
