// Four services that show what a call carries.
ghost use Rattle.std.specs.Prelude.{◌≡◌, ◌+◌, ◌<◌, ◌^◌, length, reverse, IfOk, OnOk, OnErr};
ghost use Rattle.homa_service.specs.Suite.{suite_answer};

use crate::{Reply, Service};
use homa_plain::LONGEST_MESSAGE;
use std::alloc::{AllocError, Global};
use std::marker::Model;

/// The services of the numbers 0 to 3. Contracts see the number of its Ok answers.
///
/// Number 0 answers the request, 1 the number of its Ok answers with this one, as 8 bytes, the high byte first, 2 the
/// request reversed, and 3 the request, held back for 10 ticks. Every other number answers the one byte 0, as every
/// number does to bytes that are no message, of which a message has 1 to 1,000,000.
#[derive(Debug, PartialEq, Eq, Drop)]
pub struct Suite {
    served: u64,
}

impl Model for Suite {
    ghost use Rattle.std.specs.Prelude.{ℕ};

    ghost Value = { ℕ };

    ghost view = { λ suite. suite.served };

    ghost inverse = { λ n. record { served = n } };
}

/// The ticks for which number 3 holds its answer back.
const HOLD: u32 = 10;

// Writes the bytes the other way round. Each is read and written once, so that it is done for many at once.
fn reverse_into(bytes: &[u8], out: &mut [u8])
    requires { length out.old ≡ length bytes.now }
    ensures { out.new ≡ reverse bytes.now }
{
    for i in 0..bytes.len() {
        out[i] = bytes[bytes.len() - 1 - i];
    }
}

impl Suite {
    /// A suite that has answered nothing yet.
    pub fn new() -> Suite
        ensures { result ≡ 0 }
    {
        Suite { served: 0 }
    }

    /// What it answers now. It takes the memory of the response.
    fn answer(&self, alloc: Global, number: u8, request: &[u8]) -> Result<Reply, AllocError>
        requires { self.now < 2 ^ 63 }
        ensures { IfOk result (λ reply. reply ≡ suite_answer self.now number request.now) }
    {
        if request.is_empty() || request.len() > LONGEST_MESSAGE as usize {
            return Ok(Reply::new(vec![in alloc; 0]?, 0));
        }
        match number {
            0 => Ok(Reply::new(Vec::from_slice(alloc, request)?, 0)),
            1 => {
                let count = (self.served + 1).to_be_bytes();
                Ok(Reply::new(Vec::from_slice(alloc, &count)?, 0))
            }
            2 => {
                let mut bytes = vec![in alloc; 0; request.len()]?;
                reverse_into(request, &mut bytes);
                Ok(Reply::new(bytes, 0))
            }
            3 => Ok(Reply::new(Vec::from_slice(alloc, request)?, HOLD)),
            _ => Ok(Reply::new(vec![in alloc; 0]?, 0)),
        }
    }
}

impl Service for Suite {
    ghost use Rattle.std.specs.Prelude.{◌≡◌};
    ghost use Rattle.homa_service.specs.Suite.{suite_answer};

    ghost served = { λ suite. suite };

    ghost allows = { λ suite count number q r hold.
        record { bytes = r; hold = hold } ≡ suite_answer count number q };

    fn serve(&mut self, alloc: Global, number: u8, request: &[u8]) -> Result<Reply, AllocError>
        requires { self.old < 2 ^ 63 }
        ensures ok { IfOk result (λ reply. reply ≡ suite_answer self.old number request.now) }
        ensures served { OnOk result (self.new ≡ self.old + 1) }
        ensures err { OnErr result (self.new ≡ self.old) }
    {
        let reply = self.answer(alloc, number, request)?;
        self.served += 1;
        Ok(reply)
    }
}
