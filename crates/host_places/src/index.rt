//! Which place each call has, and which places are free.
ghost use Rattle.std.specs.Prelude.{◌≡◌, ◌<◌, ◌≤◌, ◌+◌, ◌^◌, ◌==◌, if◌then◌else◌, ◌∷◌, [], ◌++◌, None, IfOk, IsSome, vec_len, vec_capacity};
ghost use Rattle.plain_sets.specs.Maps.{empty, get, insert, remove, len};
ghost use Rattle.host_places.specs.Index.{IsFreePlace, ArePlaces};

use homa_plain::CallId;
use std::alloc::{AllocError, Global};
use std::marker::Model;

/// The place of each call. The calls stand in order, so that one is found by halving.
#[derive(Drop)]
pub struct Places {
    index: Vec<(CallId, u32)>,
    // The places that were given back. Those from `used` on were never taken.
    free: Vec<u32>,
    used: u32,
    room: u32,
}

impl Model for Places {
    ghost use Rattle.host_places.specs.Index.{Taken, taken_code};

    ghost Value = { Taken };

    ghost coded = { taken_code };

    ghost use Rattle.std.specs.Prelude.{◌≤◌, vec_capacity};
    ghost use Rattle.host_places.specs.Index.{map_of, AreKept};

    ghost view = { λ p. record { room = p.room; at = map_of p.index.items } };

    ghost invariant = { λ p. AreKept p.used p.index.items p.free.items × (p.used ≤ p.room) × (p.room ≤ vec_capacity p.index) × (p.room ≤ vec_capacity p.free) };
}

impl Places {
    /// So many free places, numbered from 0. Fails where memory runs out.
    pub fn open(alloc: Global, room: u32) -> Result<Places, AllocError>
        ensures { IfOk result (λ p. p ≡ record { room = room; at = empty }) }
    {
        let index = Vec::with_capacity(alloc, room as usize)?;
        let free = Vec::with_capacity(alloc, room as usize)?;
        Ok(Places {
            index,
            free,
            used: 0,
            room,
        })
    }

    /// The place of a call, if it has one.
    pub fn find(&self, id: CallId) -> Option<u32>
        ensures { result ≡ get self.now.at id }
    {
        match self.index.binary_search_by_key(&id, |e| e.0) {
            Ok(i) => Some(self.index[i].1),
            Err(_) => None,
        }
    }

    /// Gives a call that has none one of the free places.
    pub fn take(&mut self, id: CallId) -> u32
        requires absent { get self.old.at id ≡ None }
        requires room { len self.old.at < self.old.room }
        ensures taken { self.new ≡ record self.old { at = insert self.old.at id result } }
        ensures within { result < self.old.room }
        ensures free { IsFreePlace self.old.at result }
    {
        have_free(&mut self.free, &mut self.used);
        let place = self.free.pop().unwrap();
        match self.index.binary_search_by_key(&id, |e| e.0) {
            Ok(_) => unreachable!(),
            Err(i) => {
                let Ok(()) = self.index.insert(i, (id, place)) else {
                    unreachable!()
                };
            }
        }
        place
    }

    /// Takes a call's place away: it is free again.
    pub fn give(&mut self, id: CallId)
        requires { IsSome (get self.old.at id) }
        ensures { self.new ≡ record self.old { at = remove self.old.at id } }
    {
        match self.index.binary_search_by_key(&id, |e| e.0) {
            Ok(i) => {
                let (_, place) = self.index.remove(i);
                self.free.push_reserved(place);
            }
            Err(_) => unreachable!(),
        }
    }

    /// How many calls have a place.
    pub fn len(&self) -> u32
        ensures len { result ≡ len self.now.at }
        ensures within { result ≤ self.now.room }
        ensures places { ArePlaces self.now.room self.now.at }
    {
        // For the proof: no more calls have a place than there is room for, and no two have the same.
        let _fits = self.room;
        self.index.len() as u32
    }
}

// Where no place was given back, the first one that was never taken joins the free ones.
fn have_free(free: &mut Vec<u32>, used: &mut u32)
    requires room { 0 < vec_capacity free.old }
    requires left { vec_len free.old ≡ 0 → used.old + 1 < 2 ^ 32 }
    ensures free { free.new.items ≡ (if vec_len free.old == 0 then free.old.items ++ used.old ∷ [] else free.old.items) }
    ensures used { used.new ≡ (if vec_len free.old == 0 then used.old + 1 else used.old) }
    ensures some { 0 < vec_len free.new }
    ensures capacity { vec_capacity free.new ≡ vec_capacity free.old }
{
    if free.is_empty() {
        free.push_reserved(*used);
        *used += 1;
    }
}
