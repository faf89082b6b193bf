// What bytes are read from.
ghost use Rattle.std.specs.Prelude.{◌≡◌, ◌<◌, ◌≤◌, ℕ, List, Option, length, take, OnOk, OnErr, IfOk};
ghost use Rattle.homa_io.specs.Outside.{HasRisen, unread, IsAtEnd};

/// A read failed. Nothing was read, and the source counted a fault.
#[derive(Clone, Copy, Debug, PartialEq, Eq)]
pub struct ReadFailed;

/// What bytes are read from, in order and each once.
pub trait Source {
    /// The bytes that are left, if the source is observable.
    ghost left: { Self → Option (List ℕ) };

    /// How many faults there were; the count stays at its last value, 2^64 - 1.
    ghost faults: { Self → ℕ };

    /// It is the same source, and a reference refers to the same one.
    ghost is_same: { Self → Self → Type 0 };

    /// Moves the next bytes to the start of `buf`, and returns how many they are. It is 0 only at
    /// the end, or for an empty `buf`. After an error the same bytes are left as before. Only an error
    /// counts a fault.
    fn read(&mut self, buf: &mut [u8]) -> Result<usize, ReadFailed>
        ensures fits { IfOk result (λ n. n ≤ length buf.new) }
        ensures read { IfOk result (λ n. left self.old ≡ unread (take n buf.new) (left self.new)) }
        ensures end { IfOk result (λ n. n ≡ 0 → 0 < length buf.old → IsAtEnd (left self.old)) }
        ensures err { OnErr result (left self.new ≡ left self.old) }
        ensures risen { OnErr result (HasRisen (faults self.old) (faults self.new)) }
        ensures quiet { OnOk result (faults self.new ≡ faults self.old) }
        ensures never_falls { faults self.old ≤ faults self.new }
        ensures same { is_same self.old self.new };

    /// A source is the same as itself.
    ghost same_self: { (a : Self) → is_same a a };

    /// What is the same over two steps is the same over both.
    ghost same_on: { (a b c : Self) → is_same a b → is_same b c → is_same a c };
}

impl<S: Source> Source for &mut S {
    ghost left = { λ s. S.left s.now };

    ghost faults = { λ s. S.faults s.now };

    ghost use Rattle.std.specs.Prelude.{refl};
    ghost use Rattle.std.proofs.Common.{◌∙◌};

    ghost is_same = { λ a b. a.ghost_name ≡ b.ghost_name };

    ghost same_self = { λ a. refl };

    ghost same_on = { λ a b c p q. p ∙ q };

    fn read(&mut self, buf: &mut [u8]) -> Result<usize, ReadFailed> {
        (**self).read(buf)
    }
}
