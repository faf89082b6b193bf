//! A packet on its way.

use std::marker::Model;

/// A packet on its way: its number, how many bytes its frame has, and when it was sent.
#[derive(Clone, Copy)]
pub(crate) struct Queued {
    pub(crate) number: u64,
    pub(crate) size: u32,
    pub(crate) tick: u64,
}

impl Model for Queued {
    ghost use Rattle.generated_runs.specs.Fabric.{Queued};

    ghost Value = { Queued };

    ghost view = { λ p. record { number = p.number; size = p.size; tick = p.tick } };

    ghost inverse = { λ p. record { number = p.number; size = p.size; tick = p.tick } };
}
