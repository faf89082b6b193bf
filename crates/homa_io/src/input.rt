// Bytes in memory that are read from the first on.
ghost use Rattle.std.specs.Prelude.{◌≡◌, ◌≤◌, ◌++◌, length, take, min};

/// Bytes, of which the first `read` were read.
#[derive(Drop)]
pub(crate) struct Input {
    bytes: Vec<u8>,
    read: usize,
    ghost within: { read ≤ length bytes.items },
}

impl Input {
    ghost use Rattle.homa_io.specs.Memory.{input_left};

    /// Bytes of which none was read.
    pub(crate) fn new(bytes: Vec<u8>) -> Input
        ensures { input_left result ≡ bytes.items }
    {
        Input { bytes, read: 0 }
    }

    /// Moves the next bytes to the start of `buf`, as many as there are and fit.
    pub(crate) fn read_into(&mut self, buf: &mut [u8]) -> usize
        ensures count { result ≡ min (length (input_left self.old)) (length buf.old) }
        ensures read { input_left self.old ≡ take result buf.new ++ input_left self.new }
    {
        let rest = &self.bytes[self.read..];
        let n = rest.len().min(buf.len());
        buf[..n].copy_from_slice(&rest[..n]);
        self.read += n;
        n
    }
}
