// Room for the bytes of a line.
ghost use Rattle.std.specs.Prelude.{◌≡◌, ◌≤◌, ◌-◌, ◌++◌, [], length, take, vec_capacity, IfOk};

use std::alloc::{AllocError, Global};

// The first bytes of a line, as many as there is room for.
#[derive(Drop)]
pub(crate) struct LineRoom {
    bytes: Vec<u8>,
    size: usize,
    ghost short: { length bytes.items ≤ size },
    ghost reserved: { size ≤ vec_capacity bytes },
}

impl LineRoom {
    ghost use Rattle.text_lines.specs.LineRoom.{kept, room};

    /// Room for `size` bytes, which is taken here, and none later.
    pub(crate) fn open(alloc: Global, size: usize) -> Result<LineRoom, AllocError>
        ensures none { IfOk result (λ line. kept line ≡ []) }
        ensures room { IfOk result (λ line. room line ≡ size) }
    {
        Ok(LineRoom {
            bytes: Vec::with_capacity(alloc, size)?,
            size,
        })
    }

    /// Empties the line; the room stays.
    pub(crate) fn clear(&mut self)
        ensures none { kept self.new ≡ [] }
        ensures room { room self.new ≡ room self.old }
    {
        self.bytes.clear();
    }

    /// Adds bytes, as many as there is room for.
    pub(crate) fn add(&mut self, bytes: &[u8])
        ensures added { kept self.new ≡ kept self.old ++ take (room self.old - length (kept self.old)) bytes.now }
        ensures room { room self.new ≡ room self.old }
    {
        let n = bytes.len().min(self.size - self.bytes.len());
        self.bytes.extend_from_slice(&bytes[..n]).unwrap();
    }

    /// The bytes that are kept of the line.
    pub(crate) fn bytes(&self) -> &[u8]
        ensures { result.now ≡ kept self.now }
    {
        &self.bytes
    }
}
