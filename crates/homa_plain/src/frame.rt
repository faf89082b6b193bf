// Datagrams.
ghost use Rattle.std.specs.Prelude.{◌≡◌, ◌≤◌, ◌+◌, ◌++◌, [], length};

use arrayvec::ArrayVec;
use std::marker::Model;

/// A datagram of at most 1,500 bytes. Contracts see the list of its bytes. It takes no memory.
#[derive(Debug, PartialEq, Eq, Drop)]
pub struct Frame {
    bytes: ArrayVec<u8, 1500>,
}

impl Model for Frame {
    ghost use Rattle.std.specs.Prelude.{ℕ, List};

    ghost Value = { List ℕ };

    ghost view = { λ f. f.bytes.items };

    ghost inverse = { λ xs. record { bytes = record { items = xs } } };
}

impl Frame {
    /// A datagram of no bytes. It takes no memory.
    pub fn empty() -> Frame
        ensures { result ≡ [] }
    {
        Frame {
            bytes: ArrayVec::new(),
        }
    }

    /// Makes it a datagram of these bytes.
    pub fn set(&mut self, bytes: &[u8])
        requires { length bytes.now ≤ 1500 }
        ensures { self.new ≡ bytes.now }
    {
        self.bytes.clear();
        self.bytes.try_extend_from_slice(bytes).unwrap();
    }

    /// Adds bytes after its own.
    pub fn extend(&mut self, bytes: &[u8])
        requires { length self.old + length bytes.now ≤ 1500 }
        ensures { self.new ≡ self.old ++ bytes.now }
    {
        self.bytes.try_extend_from_slice(bytes).unwrap();
    }

    /// Its bytes: at most 1,500.
    pub fn bytes(&self) -> &[u8]
        ensures bytes { result.now ≡ self.now }
        ensures fits { length result.now ≤ 1500 }
    {
        &self.bytes
    }
}
