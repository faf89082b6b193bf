//! Room for the bytes of one message, outside of the pool.

ghost use Rattle.std.specs.Prelude.{◌≡◌, ◌+◌, ◌≤◌, [], length, take, IfOk};
ghost use Rattle.msg_pool.specs.Bytes.{overwritten};
ghost use Rattle.msg_pool.specs.Pool.{bytes_of, IsLeaseOf};

use crate::pool::{Lease, MsgPool};
use std::alloc::{AllocError, Global};
use std::marker::Model;

/// The greatest number of bytes of a message.
pub const MAX_MESSAGE: usize = 1_000_000;

/// A list of at most 1,000,000 bytes, for which the room is taken at opening.
#[derive(Drop)]
pub struct Scratch {
    // The bytes are the first of these; after them come bytes of longer messages before.
    room: Vec<u8>,
    len: usize,
}

impl Model for Scratch {
    ghost use Rattle.std.specs.Prelude.{◌≤◌, List, ℕ, take, vec_capacity, vec_len};

    ghost Value = { List ℕ };

    ghost view = { λ s. take s.len s.room.items };

    ghost invariant = { λ s. (1000000 ≤ vec_capacity s.room) × (vec_len s.room ≤ 1000000) × (s.len ≤ vec_len s.room) };
}

impl Scratch {
    /// No bytes, with room for 1,000,000.
    pub fn new(alloc: Global) -> Result<Scratch, AllocError>
        ensures { IfOk result (λ s. s ≡ []) }
    {
        let room = Vec::with_capacity(alloc, MAX_MESSAGE)?;
        Ok(Scratch { room, len: 0 })
    }

    // Has so many bytes from now on, whatever they are. Only those that no message had before are written.
    fn set_len(&mut self, len: usize)
        requires { len ≤ 1000000 }
        ensures { length self.new ≡ len }
    {
        if self.room.len() < len {
            let Ok(()) = self.room.resize(len, 0) else {
                unreachable!()
            };
        }
        self.len = len;
    }

    /// Holds these bytes from now on, at most 1,000,000, and takes no memory.
    pub fn set(&mut self, bytes: &[u8])
        requires { length bytes.now ≤ 1000000 }
        ensures { self.new ≡ bytes.now }
    {
        self.set_len(bytes.len());
        copy_front(&mut self.room, bytes);
    }

    /// Becomes the bytes of a lease.
    pub fn fill(&mut self, pool: &MsgPool, lease: &Lease)
        requires { IsLeaseOf pool.now lease.now }
        ensures { self.new ≡ bytes_of pool.now lease.now }
    {
        self.set_len(lease.len());
        fill_front(&mut self.room, pool, lease);
    }

    /// Writes `bytes` over those from `offset` on.
    pub fn put(&mut self, offset: u32, bytes: &[u8])
        requires { offset + length bytes.now ≤ length self.old }
        ensures { self.new ≡ overwritten self.old offset bytes.now }
    {
        put_front(&mut self.room, self.len, offset as usize, bytes);
    }

    /// The bytes that it holds, at most 1,000,000.
    pub fn bytes(&self) -> &[u8]
        ensures bytes { result.now ≡ self.now }
        ensures small { length result.now ≤ 1000000 }
    {
        &self.room[..self.len]
    }
}

// Makes these bytes the first ones of a list.
fn copy_front(room: &mut [u8], bytes: &[u8])
    requires { length bytes.now ≤ length room.old }
    ensures len { length room.new ≡ length room.old }
    ensures front { take (length bytes.now) room.new ≡ bytes.now }
{
    room[..bytes.len()].copy_from_slice(bytes);
}

// Makes the bytes of a lease the first ones of a list.
fn fill_front(room: &mut [u8], pool: &MsgPool, lease: &Lease)
    requires lease { IsLeaseOf pool.now lease.now }
    requires fits { lease.now.len ≤ length room.old }
    ensures len { length room.new ≡ length room.old }
    ensures front { take lease.now.len room.new ≡ bytes_of pool.now lease.now }
{
    pool.copy_out(lease, &mut room[..lease.len()]);
}

// Writes bytes over those of a list from a place on.
fn overwrite(list: &mut [u8], from: usize, bytes: &[u8])
    requires { from + length bytes.now ≤ length list.old }
    ensures { list.new ≡ overwritten list.old from bytes.now }
{
    list[from..from + bytes.len()].copy_from_slice(bytes);
}

// Writes bytes over the first so many of a list, from a place on.
fn put_front(room: &mut [u8], len: usize, from: usize, bytes: &[u8])
    requires fits { from + length bytes.now ≤ len }
    requires within { len ≤ length room.old }
    ensures len { length room.new ≡ length room.old }
    ensures front { take len room.new ≡ overwritten (take len room.old) from bytes.now }
{
    overwrite(&mut room[..len], from, bytes);
}
