//! Services for the tests of other crates: one that answers a letter, and one that finds no memory at its first call.
#![tactic(auto)]

ghost use Rattle.std.specs.Prelude.{◌≡◌, false};

use homa_service::{Reply, Service};
use std::alloc::{AllocError, Global};

/// A service that answers its letter.
#[derive(Drop)]
pub struct Letter {
    pub letter: u8,
    pub served: u64,
}

impl Letter {
    /// One that has answered nothing yet.
    pub fn new(letter: u8) -> Letter
        ensures { result ≡ record { letter = letter; served = 0 } }
    {
        Letter { letter, served: 0 }
    }
}

impl Service for Letter {
    ghost use Rattle.std.specs.Prelude.{[], ◌∷◌};

    ghost served = { λ it. it.served };

    ghost allows = { λ it count number q r hold. (r ≡ it.letter ∷ []) × (hold ≡ 0) };

    fn serve(&mut self, alloc: Global, _number: u8, _request: &[u8]) -> Result<Reply, AllocError> {
        let bytes = vec![in alloc; self.letter]?;
        self.served += 1;
        Ok(Reply::new(bytes, 0))
    }
}

/// A service that finds no memory at its first call, and answers as another one afterwards.
#[derive(Drop)]
pub struct Fickle<V> {
    pub is_ready: bool,
    pub then: V,
}

impl<V> Fickle<V> {
    /// One that wasn't called yet.
    pub fn over(then: V) -> Fickle<V>
        ensures { result ≡ record { is_ready = false; then = then } }
    {
        Fickle {
            is_ready: false,
            then,
        }
    }
}

impl<V: Service> Service for Fickle<V> {
    ghost served = { λ fickle. V.served fickle.then };

    ghost allows = { λ fickle. V.allows fickle.then };

    fn serve(&mut self, alloc: Global, number: u8, request: &[u8]) -> Result<Reply, AllocError> {
        if !self.is_ready {
            self.is_ready = true;
            return Err(AllocError);
        }
        self.then.serve(alloc, number, request)
    }
}
