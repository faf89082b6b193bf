// How many bytes messages have on the wire.
ghost use Rattle.std.specs.Prelude.{◌≡◌, ◌≤◌, ◌+◌, ◌*◌, ◌-◌, ◌^◌};

use homa_plain::Settings;

/// How a message is cut: into pieces of at most so many bytes, each in a frame of so many bytes more.
#[derive(Clone, Copy, Debug)]
pub struct Framing {
    pub piece: u32,
    pub frame: u32,
    ghost some: { 1 ≤ piece },
    ghost frame_most: { frame ≤ 10044 },
}

impl Framing {
    ghost use Rattle.experiment.specs.Wires.{cut_of, cut_for, wire, wire_up_to};

    /// That of an experiment's messages: with these settings, and so many bytes on the wire beside those of a datagram.
    pub fn new(settings: &Settings, overhead: u32) -> Framing
        requires piece { 1 ≤ settings.now.seg }
        requires overhead { overhead ≤ 10000 }
        ensures { cut_of result ≡ cut_for settings.now overhead }
    {
        let header = if settings.wire == 1 { 36 } else { 44 };
        Framing {
            piece: settings.seg,
            frame: header + overhead,
        }
    }

    /// How many bytes a message has on the wire.
    pub fn wire(&self, length: u32) -> u64
        ensures wire { result ≡ wire (cut_of self.now) length }
        ensures most { length ≤ 1000000 → result ≤ 2 ^ 34 }
    {
        let pieces = u64::from(length.div_ceil(self.piece));
        u64::from(length) + pieces * u64::from(self.frame)
    }

    // The bytes that messages of each length from 1 to `n` have on the wire together.
    fn wire_up_to(&self, n: u32) -> u128
        ensures { result ≡ wire_up_to (cut_of self.now) n }
    {
        let (n, piece) = (u128::from(n), u128::from(self.piece));
        let (whole, rest) = (n / piece, n % piece);
        let pieces = piece * whole * (whole + 1) / 2 + rest * (whole + 1);
        n * (n + 1) / 2 + pieces * u128::from(self.frame)
    }

    /// The same of the lengths above `low` and up to `high`.
    pub(crate) fn wire_between(&self, low: u32, high: u32) -> u128
        requires { low ≤ high }
        ensures between { result ≡ wire_up_to (cut_of self.now) high - wire_up_to (cut_of self.now) low }
        ensures most { high ≤ 1000000 → result ≤ (high - low) * 2 ^ 34 }
    {
        self.wire_up_to(high).saturating_sub(self.wire_up_to(low))
    }
}
