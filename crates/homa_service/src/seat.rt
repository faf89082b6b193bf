// A boxed service that is a service itself.
ghost use Rattle.std.specs.Prelude.{◌≡◌, map, IfOk};

use crate::{Reply, Service};
use std::alloc::{AllocError, Global};

/// A boxed service. What it has served and what it allows are those of its box.
#[derive(Drop)]
pub struct Seat {
    pub service: Box<dyn Service>,
}

impl Seat {
    /// Each box in a seat.
    pub fn each(alloc: Global, boxes: Vec<Box<dyn Service>>) -> Result<Vec<Seat>, AllocError>
        ensures { IfOk result (λ seats. seats.items ≡ map (λ b. record { service = b }) boxes.items) }
    {
        let mut seats = Vec::with_capacity(alloc, boxes.len())?;
        for service in boxes {
            seats.push(Seat { service })?;
        }
        Ok(seats)
    }
}

impl Service for Seat {
    ghost served = { λ seat. (Service-box seat.service).served seat.service.value };

    ghost allows = { λ seat. (Service-box seat.service).allows seat.service.value };

    fn serve(&mut self, alloc: Global, number: u8, request: &[u8]) -> Result<Reply, AllocError> {
        self.service.serve(alloc, number, request)
    }
}
