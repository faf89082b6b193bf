// A text at whose end bytes are added.
ghost use Rattle.std.specs.Prelude.{◌≡◌, ◌≤◌, ◌+◌, ◌-◌, ◌*◌, ◌++◌, ℕ, List, length};
ghost use Rattle.hex.specs.Hex.{encode_lower};
ghost use Rattle.arrayvec.specs.ArrayVec.{array_vec_len};
ghost use Rattle.homa_io.specs.Held.{text_bytes, text_space};

use crate::adding::{add_parts, write_digits};
use arrayvec::ArrayVec;
use homa_io::{HeldText, MadeInPlace};

/// A text at whose end bytes are added, as long as there is room for them.
pub trait LineBuffer {
    /// The bytes of the text.
    ghost content: { Self → List ℕ };

    /// How many more bytes there is room for.
    ghost space: { Self → ℕ };

    /// Adds bytes, for which there must be room.
    fn push_bytes(&mut self, bytes: &[u8])
        requires { length bytes.now ≤ space self.old }
        ensures items { content self.new ≡ content self.old ++ bytes.now }
        ensures len { space self.new + length bytes.now ≡ space self.old };

    /// Adds bytes in hex, for which there must be room.
    fn push_hex(&mut self, bytes: &[u8])
        requires { 2 * length bytes.now ≤ space self.old }
        ensures items { content self.new ≡ content self.old ++ encode_lower bytes.now }
        ensures len { space self.new + 2 * length bytes.now ≡ space self.old };
}

// Bytes in hex.
#[derive(Clone, Copy)]
struct Digits<'a>(&'a [u8]);

impl MadeInPlace for Digits<'_> {
    ghost text = { λ d. encode_lower d.0.now };

    #[tactic(auto, using(crate::proofs::Texts::two_digits_each))]
    fn len(&self) -> usize {
        2 * self.0.len()
    }

    #[tactic(auto, using(crate::proofs::Texts::two_digits_each))]
    fn make(&self, out: &mut [u8]) {
        write_digits(self.0, out);
    }
}

impl<const N: usize> LineBuffer for ArrayVec<u8, N> {
    ghost content = { λ t. t.items };

    ghost space = { λ t. N - array_vec_len t };

    #[inline(always)]
    fn push_bytes(&mut self, bytes: &[u8]) {
        // For the proof: it has at most N bytes.
        let _room = self.remaining_capacity();
        self.try_extend_from_slice(bytes).unwrap();
    }

    fn push_hex(&mut self, bytes: &[u8]) {
        // For the proof: it has at most N bytes.
        let _room = self.remaining_capacity();
        add_parts(self, bytes);
    }
}

impl LineBuffer for HeldText {
    ghost content = { text_bytes };

    ghost space = { text_space };

    #[inline(always)]
    fn push_bytes(&mut self, bytes: &[u8]) {
        self.add(bytes);
    }

    #[inline(always)]
    #[tactic(auto, using(crate::proofs::Texts::two_digits_each))]
    fn push_hex(&mut self, bytes: &[u8]) {
        self.add_made(&Digits(bytes));
    }
}
