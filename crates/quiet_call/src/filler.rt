// The service of the quiet call.
ghost use Rattle.std.specs.Prelude.{◌≡◌, ◌≤◌};
ghost use Rattle.homa_plain.specs.Limits.{longest_message};

use homa_plain::LONGEST_MESSAGE;
use homa_service::{Reply, Service};
use std::alloc::{AllocError, Global};
use text_lines::counting_bytes;

/// Answers every request by `size` counting bytes (each is its place modulo 256), and holds none back.
#[derive(Debug, Drop)]
pub struct Filler {
    size: u32,
    served: u64,
    ghost sized: { (1 ≤ size) × (size ≤ longest_message) },
}

impl Filler {
    ghost use Rattle.quiet_call.specs.Standing.{size_of, served_by};

    /// One that has answered nothing yet.
    pub fn new(size: u32) -> Filler
        requires { (1 ≤ size) × (size ≤ LONGEST_MESSAGE) }
        ensures size { size_of result ≡ size }
        ensures served { served_by result ≡ 0 }
    {
        Filler { size, served: 0 }
    }

    /// How many bytes it answers.
    pub fn size(&self) -> u32
        ensures { result ≡ size_of self.now }
    {
        self.size
    }
}

impl Service for Filler {
    ghost use Rattle.std.specs.Prelude.{◌≡◌};
    ghost use Rattle.homa_plain.specs.Script.{counting};

    ghost served = { λ filler. filler.served };

    ghost allows = { λ filler count number q r hold. (r ≡ counting 0 filler.size) × (hold ≡ 0) };

    fn serve(&mut self, alloc: Global, _number: u8, _request: &[u8]) -> Result<Reply, AllocError> {
        let bytes = counting_bytes(alloc, self.size)?;
        self.served += 1;
        Ok(Reply::new(bytes, 0))
    }
}
