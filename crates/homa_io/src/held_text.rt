// The text that a sink holds back.
ghost use Rattle.std.specs.Prelude.{◌≡◌, ◌≤◌, ◌+◌, ◌++◌, ℕ, List, [], length, take, drop, IfOk};

use crate::NoMemory;
use std::alloc::Global;

// The most bytes that are held.
pub(crate) const ROOM: usize = 65536;

/// A text that is made where it is to stand.
pub trait MadeInPlace {
    /// The bytes of the text.
    ghost text: { Self → List ℕ };

    /// How many bytes it has.
    fn len(&self) -> usize
        ensures { result ≡ length (text self.now) };

    /// Makes it in `out`, which has as many bytes.
    fn make(&self, out: &mut [u8])
        requires { length out.old ≡ length (text self.now) }
        ensures { out.new ≡ text self.now };
}

/// Room for the lines that are held, which is taken before a sink is lent.
#[derive(Drop)]
pub struct Room {
    bytes: Vec<u8>,
    ghost filled: { length bytes.items ≡ 65536 },
}

impl Room {
    ghost use Rattle.homa_io.specs.Held.{room_size};

    /// Takes room for 65,536 bytes.
    pub fn new(alloc: Global) -> Result<Room, NoMemory>
        ensures { IfOk result (λ room. 65536 ≤ room_size room) }
    {
        let mut bytes = Vec::with_capacity(alloc, ROOM)?;
        bytes.resize(ROOM, 0)?;
        Ok(Room { bytes })
    }
}

// Writes bytes over those of a list, from a place on.
#[inline(always)]
fn put_at(room: &mut [u8], from: usize, bytes: &[u8])
    requires { from + length bytes.now ≤ length room.old }
    ensures len { length room.new ≡ length room.old }
    ensures front { take (from + length bytes.now) room.new ≡ take from room.old ++ bytes.now }
{
    room[from..from + bytes.len()].copy_from_slice(bytes);
}

// Makes a text over the bytes of a list, from a place on.
#[inline(always)]
fn make_at<M: MadeInPlace>(room: &mut [u8], from: usize, made: &M)
    requires { from + length (M.text made.now) ≤ length room.old }
    ensures len { length room.new ≡ length room.old }
    ensures front { take (from + length (M.text made.now)) room.new ≡ take from room.old ++ M.text made.now }
{
    made.make(&mut room[from..from + made.len()]);
}

/// The bytes that are held, 65,536 at most. More of them are added in room that was taken before.
#[derive(Drop)]
pub struct HeldText {
    // The bytes are the first `len` of these.
    bytes: Vec<u8>,
    len: usize,
    // How many of them went out already, before a fault.
    sent: usize,
    ghost within: { sent ≤ len },
    ghost most: { len ≤ 65536 },
    ghost filled: { length bytes.items ≡ 65536 },
}

impl HeldText {
    ghost use Rattle.homa_io.specs.Held.{text_bytes, text_space};

    // No bytes, and this room for them.
    pub(crate) fn over(room: Room) -> HeldText
        ensures none { text_bytes result ≡ [] }
        ensures space { text_space result ≡ 65536 }
    {
        HeldText {
            bytes: room.bytes,
            len: 0,
            sent: 0,
        }
    }

    /// Adds bytes at the end, for which there must be room.
    #[inline(always)]
    pub fn add(&mut self, bytes: &[u8])
        requires fits { length bytes.now ≤ text_space self.old }
        ensures bytes { text_bytes self.new ≡ text_bytes self.old ++ bytes.now }
        ensures space { text_space self.new + length bytes.now ≡ text_space self.old }
    {
        put_at(&mut self.bytes, self.len, bytes);
        self.len += bytes.len();
    }

    /// Adds a text at the end, for which there must be room. It is made where it stands.
    #[inline(always)]
    pub fn add_made<M: MadeInPlace>(&mut self, made: &M)
        requires fits { length (M.text made.now) ≤ text_space self.old }
        ensures bytes { text_bytes self.new ≡ text_bytes self.old ++ M.text made.now }
        ensures space { text_space self.new + length (M.text made.now) ≡ text_space self.old }
    {
        make_at(&mut self.bytes, self.len, made);
        self.len += made.len();
    }

    // How many more bytes fit.
    #[inline(always)]
    pub(crate) fn space(&self) -> usize
        ensures { result ≡ text_space self.now }
    {
        ROOM - self.len
    }

    // The bytes that are held.
    pub(crate) fn rest(&self) -> &[u8]
        ensures rest { result.now ≡ text_bytes self.now }
        ensures most { length result.now ≤ 65536 }
    {
        &self.bytes[self.sent..self.len]
    }

    // So many bytes went out.
    pub(crate) fn went_out(&mut self, n: usize)
        requires { n ≤ length (text_bytes self.old) }
        ensures { text_bytes self.new ≡ drop n (text_bytes self.old) }
    {
        self.sent += n;
    }

    // All of the room is free again.
    pub(crate) fn clear(&mut self)
        ensures none { text_bytes self.new ≡ [] }
        ensures space { text_space self.new ≡ 65536 }
    {
        self.len = 0;
        self.sent = 0;
    }
}
