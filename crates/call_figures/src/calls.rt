// The calls of a run.
ghost use Rattle.std.specs.Prelude.{◌≡◌, ◌<◌, ◌≤◌, ◌++◌, ◌∷◌, [], length, slice_get, slice_set, true, false, IfSome, IfOk, OnOk, OnErr};

use homa_plain::{CallId, HostId};
use std::alloc::{AllocError, Global};
use std::marker::Model;

/// How far a call has come.
#[derive(Clone, Copy, Debug, PartialEq, Eq)]
pub enum CallEnd {
    Open,
    Done,
    Timeout,
    Forgotten,
    /// Its client restarted.
    Restarted,
}

/// A call. Moments are picoseconds.
#[derive(Clone, Copy, Debug, PartialEq, Eq)]
pub struct SimCall {
    pub id: CallId,
    pub server: HostId,
    /// How many bytes its request has.
    pub request: u32,
    /// The how manyth call it is of those that were drawn or listed, those that couldn't be made included.
    pub drawn: u32,
    /// When it was made.
    pub made: u64,
    /// When the first bit of its request left.
    pub first: Option<u64>,
    /// When its service ran.
    pub ran: Option<u64>,
    pub ended: u64,
    pub end: CallEnd,
    pub resends: u32,
    /// How many of its packets carried no piece.
    pub controls: u32,
}

impl SimCall {
    /// The sender of one side's message.
    pub fn sender(&self, is_response: bool) -> HostId
        ensures request { is_response ≡ false → result ≡ self.now.id.client }
        ensures response { is_response ≡ true → result ≡ self.now.server }
    {
        if is_response {
            self.server
        } else {
            self.id.client
        }
    }
}

// The calls of one life of a client: where they stand in the list of all, by their sequence numbers.
#[derive(Drop)]
struct Life {
    client: HostId,
    inc: u32,
    places: Vec<u32>,
}

/// All calls, in the order in which they were made. Contracts see their list.
#[derive(Drop)]
pub struct SimCalls {
    alloc: Global,
    all: Vec<SimCall>,
    lives: Vec<Life>,
    // Where the present life of each client stands.
    latest: Vec<u32>,
}

impl Model for SimCalls {
    ghost use Rattle.std.specs.Prelude.{List};
    ghost use Rattle.call_figures.specs.declared.calls.SimCall.{SimCall};

    ghost Value = { List SimCall };

    ghost view = { λ c. c.all.items };
}

impl SimCalls {
    /// No calls, of so many clients: at most 65,536.
    pub fn new(alloc: Global, hosts: u32) -> Result<SimCalls, AllocError>
        requires { hosts ≤ 65536 }
        ensures { IfOk result (λ calls. calls ≡ []) }
    {
        let mut lives = Vec::with_capacity(alloc, hosts as usize)?;
        let mut latest = Vec::with_capacity(alloc, hosts as usize)?;
        for host in 0..hosts {
            latest.push(host)?;
            lives.push(Life {
                client: HostId(host as u16),
                inc: 1,
                places: Vec::new(alloc),
            })?;
        }
        Ok(SimCalls {
            alloc,
            all: Vec::new(alloc),
            lives,
            latest,
        })
    }

    /// All of them.
    pub fn all(&self) -> &[SimCall]
        ensures { result.now ≡ self.now }
    {
        &self.all
    }

    /// How many there are.
    pub fn count(&self) -> usize
        ensures { result ≡ length self.now }
    {
        self.all.len()
    }

    // The life of a client with an incarnation, by its place.
    fn life(&self, client: HostId, inc: u32) -> Option<usize> {
        let latest = *self.latest.get(client.0 as usize)? as usize;
        if self.lives.get(latest)?.inc == inc {
            return Some(latest);
        }
        self.lives
            .iter()
            .position(|life| life.client == client && life.inc == inc)
    }

    /// The place of the call with this id; none where no such call was made.
    pub fn place(&self, id: CallId) -> Option<u32>
        ensures found { IfSome result (λ place. IfSome (slice_get self.now place) (λ call. call.id ≡ id)) }
        ensures inside { IfSome result (λ place. place < length self.now) }
    {
        let life = self.lives.get(self.life(id.client, id.inc)?)?;
        let place = *life.places.get(id.seq as usize)?;
        if self.all.get(place as usize)?.id == id {
            Some(place)
        } else {
            None
        }
    }

    /// The call at a place; none where there is none.
    pub fn at(&self, place: u32) -> Option<SimCall>
        ensures { result ≡ slice_get self.now place }
    {
        self.all.get(place as usize).copied()
    }

    /// The call at a place is now this; nothing changes where there is none.
    pub fn set(&mut self, place: u32, call: SimCall)
        ensures { self.new ≡ slice_set self.old place call }
    {
        if (place as usize) < self.all.len() {
            self.all[place as usize] = call;
        }
    }

    /// A call is made, behind all others. After an error there is no further call.
    pub fn make(&mut self, id: CallId, call: SimCall) -> Result<(), AllocError>
        ensures made { OnOk result (self.new ≡ self.old ++ call ∷ []) }
        ensures err { OnErr result (self.new ≡ self.old) }
    {
        let place = u32::try_from(self.all.len()).map_err(|_| AllocError)?;
        let life = self.life(id.client, id.inc).unwrap_or(self.lives.len());
        if life < self.lives.len() {
            self.lives[life].places.push(place)?;
        }
        self.all.push(call)?;
        Ok(())
    }

    /// A host begins another life as a client: calls that it makes from now on have this incarnation. After an error it doesn't.
    pub fn begin_life(&mut self, client: HostId, inc: u32) -> Result<(), AllocError>
        ensures { self.new ≡ self.old }
    {
        let place = u32::try_from(self.lives.len()).map_err(|_| AllocError)?;
        self.lives.push(Life {
            client,
            inc,
            places: Vec::new(self.alloc),
        })?;
        let client = client.0 as usize;
        if client < self.latest.len() {
            self.latest[client] = place;
        }
        Ok(())
    }
}
