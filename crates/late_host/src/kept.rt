// The calls that are kept at work.
ghost use Rattle.std.specs.Prelude.{◌≡◌, ◌<◌, ◌≤◌, ◌+◌, ◌++◌, ◌∷◌, ◌↔◌, IsTrue, IfOk, IfSome, IfNone, false, [], length};
ghost use Rattle.std.specs.Prelude.{Contains, All, option_copied, position};

use crate::bytes::Bytes;
use homa_plain::{CallId, HostId};
use std::alloc::{AllocError, Global};
use std::marker::Model;

/// A call that was told.
#[derive(Drop)]
pub struct KeptCall {
    pub id: CallId,
    /// Who sent the datagram that asked last.
    pub from: HostId,
    /// The tick at which that datagram came.
    pub at: u64,
    /// The datagram.
    pub frame: Bytes,
    /// The answer, if one was given that no step took yet. Empty while the call waits for one.
    pub answer: Bytes,
}

/// The calls that are kept, with room for so many.
#[derive(Drop)]
pub struct KeptCalls {
    rows: Vec<KeptCall>,
    room: u32,
}

impl Model for KeptCalls {
    ghost use Rattle.std.specs.Prelude.{◌≤◌, vec_len, vec_capacity};
    ghost use Rattle.late_host.specs.Kept.{Keeping};

    ghost Value = { Keeping };

    ghost view = { λ k. record { room = k.room; calls = k.rows.items } };

    ghost invariant = { λ k. (k.room ≤ vec_capacity k.rows) × (vec_len k.rows ≤ k.room) };
}

impl KeptCalls {
    ghost use Rattle.late_host.specs.Kept.{is_of, call_of, without, changed, IsFresh, HasRoomMade};

    /// No calls, with room for so many, which is taken at once. Fails by want of memory alone.
    pub fn open(alloc: Global, room: u32) -> Result<KeptCalls, AllocError>
        ensures { IfOk result (λ k. k ≡ record { room = room; calls = [] }) }
    {
        Ok(KeptCalls {
            rows: Vec::with_capacity(alloc, room as usize)?,
            room,
        })
    }

    /// How many calls may be kept.
    pub fn room(&self) -> u32
        ensures { result ≡ self.now.room }
    {
        self.room
    }

    /// How many calls are kept.
    pub fn len(&self) -> usize
        ensures len { result ≡ length self.now.calls }
        ensures within { result ≤ self.now.room }
    {
        self.rows.len()
    }

    /// The call of this id, if it is kept.
    pub fn find(&self, id: CallId) -> Option<&KeptCall>
        ensures { option_copied result ≡ call_of id self.now.calls }
    {
        self.rows.iter().find(|call| call.id == id)
    }

    /// Keeps one more call.
    pub fn add(&mut self, call: KeptCall)
        requires { length self.old.calls < self.old.room }
        ensures { self.new ≡ record self.old { calls = self.old.calls ++ call ∷ [] } }
    {
        self.rows.push_reserved(call);
    }

    /// Keeps the call of this id no more.
    pub fn take_out(&mut self, id: CallId)
        ensures { self.new ≡ record self.old { calls = without id self.old.calls } }
    {
        self.rows.retain(|call| call.id != id);
    }

    /// Puts another datagram in place of the one that is kept for a call.
    pub fn renew(&mut self, id: CallId, from: HostId, at: u64, frame: Bytes)
        ensures { self.new ≡ record self.old { calls = changed id (λ call. record call { from = from; at = at; frame = frame }) self.old.calls } }
    {
        if let Some(place) = self.place(id) {
            let call = &mut self.rows[place];
            call.from = from;
            call.at = at;
            call.frame = frame;
        }
    }

    /// Keeps the answer to a call.
    pub fn hold(&mut self, id: CallId, answer: Bytes)
        ensures { self.new ≡ record self.old { calls = changed id (λ call. record call { answer = answer }) self.old.calls } }
    {
        if let Some(place) = self.place(id) {
            let call = &mut self.rows[place];
            call.answer = answer;
        }
    }

    /// Makes room for one more call: if there is none, the call whose datagram came first goes, unless that is fresh. Tells
    /// whether there is room.
    pub fn make_room(&mut self, keep: u64, now: u64) -> bool
        ensures room { IsTrue result → length self.new.calls < self.new.room }
        ensures made { IsTrue result → HasRoomMade keep now self.old.room self.old.calls self.new.calls }
        ensures same_room { self.new.room ≡ self.old.room }
        ensures full { result ≡ false → self.old.room ≤ length self.old.calls }
        ensures all_fresh { result ≡ false → All (IsFresh keep now) self.old.calls }
        ensures same { result ≡ false → self.new ≡ self.old }
    {
        if self.rows.len() < self.room as usize {
            return true;
        }
        let Some(oldest) = self.oldest() else {
            return false;
        };
        if is_fresh(oldest.at, keep, now) {
            return false;
        }
        let id = oldest.id;
        self.take_out(id);
        true
    }

    // The call whose datagram came first.
    fn oldest(&self) -> Option<&KeptCall>
        ensures none { IfNone result (self.now.calls ≡ []) }
        ensures kept { IfSome result (λ call. Contains self.now.calls call.now) }
        ensures least { IfSome result (λ call. All (λ other. call.now.at ≤ other.at) self.now.calls) }
    {
        self.rows.iter().min_by_key(|call| call.at)
    }

    // The place of the call of this id.
    fn place(&self, id: CallId) -> Option<usize>
        ensures { result ≡ position (is_of id) self.now.calls }
    {
        self.rows.iter().position(|call| call.id == id)
    }
}

/// Whether a datagram that came at one tick may be delivered at another.
pub fn is_fresh(at: u64, keep: u64, now: u64) -> bool
    ensures { IsTrue result ↔ (now ≤ at + keep) }
{
    now <= at || now - at <= keep
}
