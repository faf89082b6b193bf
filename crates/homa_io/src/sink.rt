// What bytes are written to.
ghost use Rattle.std.specs.Prelude.{◌≡◌, ◌<◌, ◌≤◌, ℕ, List, Option, length, take, OnOk, OnErr, IfOk};
ghost use Rattle.homa_io.specs.Outside.{HasRisen, appended};
ghost use Rattle.homa_io.specs.Writing.{IsWritten};

/// A write failed, and the sink counted a fault.
#[derive(Clone, Copy, Debug, PartialEq, Eq)]
pub struct WriteFailed;

/// What bytes are written to, in order.
pub trait Sink {
    /// The bytes that were taken, if the sink is observable.
    ghost taken: { Self → Option (List ℕ) };

    /// How many faults there were; the count stays at its last value, 2^64 - 1.
    ghost faults: { Self → ℕ };

    /// It is the same sink, and a reference refers to the same one.
    ghost is_same: { Self → Self → Type 0 };

    /// Takes a prefix of the bytes, and returns how many they are. It is 0 only if there are none. An
    /// error takes none of them, and only an error counts a fault.
    fn write(&mut self, bytes: &[u8]) -> Result<usize, WriteFailed>
        ensures fits { IfOk result (λ n. n ≤ length bytes.now) }
        ensures some { IfOk result (λ n. 0 < length bytes.now → 0 < n) }
        ensures taken { IfOk result (λ n. taken self.new ≡ appended (taken self.old) (take n bytes.now)) }
        ensures err { OnErr result (taken self.new ≡ taken self.old) }
        ensures risen { OnErr result (HasRisen (faults self.old) (faults self.new)) }
        ensures quiet { OnOk result (faults self.new ≡ faults self.old) }
        ensures never_falls { faults self.old ≤ faults self.new }
        ensures same { is_same self.old self.new };

    /// A sink is the same as itself.
    ghost same_self: { (a : Self) → is_same a a };

    /// What is the same over two steps is the same over both.
    ghost same_on: { (a b c : Self) → is_same a b → is_same b c → is_same a c };
}

/// Writes all of the bytes, in as many calls as the sink needs. After an error, which is the first
/// that a call gave, it took a prefix of them.
pub fn write_all<K: Sink>(sink: &mut K, bytes: &[u8]) -> Result<(), WriteFailed>
    ensures { IsWritten K.taken K.faults K.is_same result sink.old sink.new bytes.now }
{
    let mut written = 0;
    while written < bytes.len() {
        written += sink.write(&bytes[written..])?;
    }
    Ok(())
}

impl<K: Sink> Sink for &mut K {
    ghost taken = { λ s. K.taken s.now };

    ghost faults = { λ s. K.faults s.now };

    ghost use Rattle.std.specs.Prelude.{refl};
    ghost use Rattle.std.proofs.Common.{◌∙◌};

    // It refers to the same sink, which is the same as before.
    ghost is_same = { λ a b. (a.ghost_name ≡ b.ghost_name) × K.is_same a.now b.now };

    ghost same_self = { λ a. (refl, K.same_self a.now) };

    ghost same_on = { λ a b c p q. (p.0 ∙ q.0, K.same_on a.now b.now c.now p.1 q.1) };

    fn write(&mut self, bytes: &[u8]) -> Result<usize, WriteFailed> {
        (**self).write(bytes)
    }
}
