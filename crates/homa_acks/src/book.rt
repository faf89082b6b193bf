// The finished calls of each peer.
// Rules: an ACK of five finished calls together, and of one that rides on a request.
ghost use Rattle.std.specs.Prelude.{◌≡◌, ◌+◌, ◌<◌, ◌↔◌, ◌++◌, [], ◌∷◌, length, drop, replicate, slice_get, slice_set, IfOk, IsNone, IfNone, IfSome, OnSome};
ghost use Rattle.homa_acks.specs.Book.{calls_of, IsBelowFive};

use crate::AckBatch;
use crate::five_acks::Waiting;
use homa_plain::HostId;
use std::alloc::{AllocError, Global};
use std::marker::Model;

/// The finished calls of each peer. Contracts see a list for each peer, the oldest call first.
#[derive(Debug, Drop)]
pub struct AckBook {
    peers: Vec<Waiting>,
}

impl Model for AckBook {
    ghost use Rattle.std.specs.Prelude.{ℕ, List};
    ghost use Rattle.homa_acks.specs.Book.{IsBelowFive};

    ghost Value = { List (List (ℕ × ℕ)) };

    ghost view = { λ book. book.peers.items };

    ghost invariant = { λ book. IsBelowFive book.peers.items };
}

impl AckBook {
    /// A book for as many peers as there are hosts, with no call. Only this takes memory.
    pub fn new(alloc: Global, hosts: u32) -> Result<AckBook, AllocError>
        ensures empty { IfOk result (λ book. book ≡ replicate hosts []) }
        ensures below { IfOk result IsBelowFive }
    {
        let mut peers = Vec::with_capacity(alloc, hosts as usize)?;
        for _ in 0..hosts {
            peers.push(Waiting::new())?;
        }
        Ok(AckBook { peers })
    }

    /// Notes that a call finished at this peer. The fifth call is answered together with the four before it, in order,
    /// and the peer's list is empty afterwards.
    pub fn finish(&mut self, peer: HostId, inc: u32, seq: u32) -> Option<AckBatch>
        requires { peer.0 < length self.old }
        ensures none { IsNone result ↔ (length (calls_of self.old peer.0) + 1 < 5) }
        ensures kept { IfNone result
            (self.new ≡ slice_set self.old peer.0 (calls_of self.old peer.0 ++ (inc, seq) ∷ [])) }
        ensures batch { IfSome result (λ batch.
            batch.items ≡ calls_of self.old peer.0 ++ (inc, seq) ∷ []) }
        ensures five { IfSome result (λ batch. length batch.items ≡ 5) }
        ensures emptied { OnSome result (self.new ≡ slice_set self.old peer.0 []) }
        ensures below { IsBelowFive self.new }
    {
        self.peers[peer.0 as usize].finish(inc, seq)
    }

    /// Takes the oldest finished call of this peer, to ride with a request to it.
    pub fn ride(&mut self, peer: HostId) -> Option<(u32, u32)>
        requires { peer.0 < length self.old }
        ensures oldest { result ≡ slice_get (calls_of self.old peer.0) 0 }
        ensures none { IsNone result ↔ (calls_of self.old peer.0 ≡ []) }
        ensures taken { self.new ≡ slice_set self.old peer.0 (drop 1 (calls_of self.old peer.0)) }
        ensures unchanged { IfNone result (self.new ≡ self.old) }
        ensures below { IsBelowFive self.new }
    {
        self.peers[peer.0 as usize].ride()
    }
}
