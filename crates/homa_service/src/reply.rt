// What a service answers.
ghost use Rattle.std.specs.Prelude.{◌≡◌};

use std::marker::Model;

/// A response, and for how many ticks it is held back. Contracts see the list of its bytes and the hold.
#[derive(Debug, Drop)]
pub struct Reply {
    bytes: Vec<u8>,
    hold: u32,
}

impl Model for Reply {
    ghost use Rattle.homa_service.specs.Answer.{Answer, answer_code};

    ghost Value = { Answer };

    ghost coded = { answer_code };

    ghost view = { λ r. record { bytes = r.bytes.items; hold = r.hold } };
}

impl Reply {
    /// A response of these bytes that is held back for `hold` ticks.
    pub fn new(bytes: Vec<u8>, hold: u32) -> Reply
        ensures bytes { result.bytes ≡ bytes.items }
        ensures hold { result.hold ≡ hold }
    {
        Reply { bytes, hold }
    }

    /// The bytes of the response.
    pub fn bytes(&self) -> &[u8]
        ensures { result.now ≡ self.now.bytes }
    {
        &self.bytes
    }

    /// For how many ticks the response is held back.
    pub fn hold(&self) -> u32
        ensures { result ≡ self.now.hold }
    {
        self.hold
    }

    /// The bytes of the response, without a copy.
    pub fn into_bytes(self) -> Vec<u8>
        ensures { result.items ≡ self.bytes }
    {
        self.bytes
    }
}
