//! Rows of calls at fixed places.
ghost use Rattle.std.specs.Prelude.{◌≡◌, ◌<◌, ◌≤◌, ◌+◌, ◌-◌, ◌++◌, max, replicate, Some, None, IfOk, IfSome, IfNone, IsSome, vec_len, vec_capacity};
ghost use Rattle.std.specs.Option.{option_map};
ghost use Rattle.std.specs.Borrow.{Lends, sem};
ghost use Rattle.plain_sets.specs.Maps.{empty, get, insert, remove, len};
ghost use Rattle.host_places.specs.Placed.{StandsAt, IsFree, ArePlaced, spot_at};
ghost use Rattle.host_places.specs.Spots.{row_in, with_row};
ghost use Rattle.host_places.specs.declared.table.Spot.TheVariants.{Free};

use crate::index::Places;
use homa_plain::CallId;
use std::alloc::{AllocError, Global};
use std::marker::Model;
use std::mem;

/// Rows of calls, each at a place of its own. The places are numbered from 0, and a row's place stays while the row
/// stands.
#[derive(Drop)]
pub struct Rows<R> {
    places: Places,
    // What stands at each place up to the last that was ever taken.
    spots: Vec<Spot<R>>,
}

/// What stands at a place.
#[derive(Drop)]
enum Spot<R> {
    Free,
    Of(CallId, R),
}

impl<R> Model for Rows<R> {
    ghost use Rattle.host_places.specs.Placed.{Table, table_code};

    ghost Value = { Table R };

    ghost coded = { table_code R.code };

    ghost use Rattle.std.specs.Prelude.{◌≤◌, vec_capacity};
    ghost use Rattle.host_places.specs.Spots.{rows_of, AreSpots};

    ghost view = { λ r. record { room = r.places.room; rows = rows_of r.spots.items } };

    ghost invariant = { λ r. AreSpots r.places r.spots.items × (r.places.room ≤ vec_capacity r.spots) };
}

impl<R> Spot<R> {
    ghost use Rattle.host_places.specs.contracts.table.Spot.{the_row};

    fn row_mut(&mut self) -> &mut R
        requires { IsSome (row_in self.old) }
        ensures* lends { sem 𝓛 (Lends (the_row R.row) R.row self.entry result (with_row self.old)) }
        ensures row { row_in self.old ≡ Some result.now }
    {
        match self {
            Spot::Of(_, row) => row,
            Spot::Free => unreachable!(),
        }
    }
}

impl<R> Rows<R> {
    ghost use Rattle.host_places.specs.Lends.{lends_row};

    /// No rows, with room for so many. Fails where memory runs out.
    pub fn open(alloc: Global, room: u32) -> Result<Rows<R>, AllocError>
        ensures { IfOk result (λ t. t ≡ record { room = room; rows = empty }) }
    {
        let places = Places::open(alloc, room)?;
        let spots = Vec::with_capacity(alloc, room as usize)?;
        Ok(Rows { places, spots })
    }

    /// The place of a call's row, if it has one.
    pub fn find(&self, id: CallId) -> Option<u32>
        ensures place { result ≡ option_map (λ x. x.place) (get self.now.rows id) }
        ensures stands { IfSome result (λ place. IsSome (spot_at self.now.rows place)) }
        ensures absent { IfNone result (get self.now.rows id ≡ None) }
        ensures placed { ArePlaced self.now.room self.now.rows }
    {
        // For the proof: the rows stand at different places, each below the room.
        let _spots = &self.spots;
        self.places.find(id)
    }

    /// The row at a place, with its call, if one stands there.
    pub fn get(&self, place: u32) -> Option<(CallId, &R)>
        ensures row { option_map (λ s. (s.0, s.1.now)) result ≡ spot_at self.now.rows place }
        ensures placed { ArePlaced self.now.room self.now.rows }
    {
        match self.spots.get(place as usize)? {
            Spot::Of(id, row) => Some((*id, row)),
            Spot::Free => None,
        }
    }

    /// The row at a place, where one stands, to be changed. No other row changes, and no place.
    pub fn row_mut(&mut self, place: u32) -> &mut R
        requires { IsSome (spot_at self.old.rows place) }
        ensures* writes_back { sem 𝓛 (lends_row R.row self.entry place result) }
        ensures row { option_map (λ s. s.1) (spot_at self.old.rows place) ≡ Some result.now }
        ensures placed { ArePlaced self.old.room self.old.rows }
    {
        self.spots[place as usize].row_mut()
    }

    /// Adds the row of a call that has none, and answers its place, which was free.
    pub fn insert(&mut self, id: CallId, row: R) -> u32
        requires absent { get self.old.rows id ≡ None }
        requires room { len self.old.rows < self.old.room }
        ensures inserted { self.new ≡ record self.old { rows = insert self.old.rows id (record { place = result; row = row }) } }
        ensures within { result < self.old.room }
        ensures free { IsFree self.old.rows result }
    {
        let place = self.places.take(id);
        store_spot(&mut self.spots, place);
        let free = mem::replace(&mut self.spots[place as usize], Spot::Of(id, row));
        match free {
            Spot::Free => place,
            Spot::Of(..) => unreachable!(),
        }
    }

    /// Removes the row at a place, where one stands, and answers it with its call. The place is free again.
    pub fn remove(&mut self, place: u32) -> (CallId, R)
        requires { IsSome (spot_at self.old.rows place) }
        ensures row { spot_at self.old.rows place ≡ Some result }
        ensures stood { StandsAt self.old.rows result.0 place result.1 }
        ensures removed { self.new ≡ record self.old { rows = remove self.old.rows result.0 } }
        ensures placed { ArePlaced self.old.room self.old.rows }
    {
        match mem::replace(&mut self.spots[place as usize], Spot::Free) {
            Spot::Of(id, row) => {
                self.places.give(id);
                (id, row)
            }
            Spot::Free => unreachable!(),
        }
    }

    /// How many rows there are.
    pub fn len(&self) -> u32
        ensures len { result ≡ len self.now.rows }
        ensures within { result ≤ self.now.room }
        ensures placed { ArePlaced self.now.room self.now.rows }
    {
        // For the proof: the rows stand at different places, each below the room.
        let _spots = &self.spots;
        self.places.len()
    }
}

// Stores free spots up to a place, where there are fewer.
fn store_spot<R>(spots: &mut Vec<Spot<R>>, place: u32)
    requires { place < vec_capacity spots.old }
    ensures spots { spots.new.items ≡ spots.old.items ++ replicate (place + 1 - vec_len spots.old) Free }
    ensures stored { place < vec_len spots.new }
    ensures len { vec_len spots.new ≡ max (vec_len spots.old) (place + 1) }
    ensures capacity { vec_capacity spots.new ≡ vec_capacity spots.old }
{
    for _ in spots.len()..place as usize + 1 {
        spots.push_reserved(Spot::Free);
    }
}
