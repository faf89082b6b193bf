//! Sets of numbers below 2^32, kept as ranges, however many these are.
//!
//! The model: a set is the set of its members (`Numbers` of `plain_sets`); inside, it is the list of its maximal ranges
//! in order, and their number of members. `range_set` keeps at most 64 ranges and takes no memory; this one grows.
//! Main promise: after `add` the set is the one before with just these numbers, and `count_with` tells what `add` would
//! make of the count without changing anything.
#![tactic(auto)]

mod kept;

ghost use Rattle.std.specs.Prelude.{◌≡◌, ◌<◌, OnOk, OnErr};
ghost use Rattle.plain_sets.specs.Maps.{empty, len};
ghost use Rattle.plain_sets.specs.Numbers.{with_range};

use kept::Range;
use std::alloc::{AllocError, Global};
use std::marker::Model;

/// A set of numbers below 2^32.
#[derive(Drop)]
pub struct OpenRanges {
    kept: Vec<Range>,
    count: u32,
}

impl Model for OpenRanges {
    ghost use Rattle.plain_sets.specs.Numbers.{Numbers, numbers_code, set_of_ranges};
    ghost use Rattle.open_ranges.specs.Kept.{plain, AreKept};

    ghost Value = { Numbers };

    ghost coded = { numbers_code };

    ghost view = { λ s. set_of_ranges (plain s.kept.items) };

    ghost invariant = { λ s. AreKept s.kept.items s.count };
}

impl OpenRanges {
    /// A set without members. It takes no memory before the first `add`.
    pub fn empty(alloc: Global) -> OpenRanges
        ensures { result ≡ empty }
    {
        OpenRanges {
            kept: Vec::new(alloc),
            count: 0,
        }
    }

    /// How many members there are.
    pub fn count(&self) -> u32
        ensures { result ≡ len self.now }
    {
        self.count
    }

    /// How many members there would be with the numbers from `a` to `b` - 1.
    pub fn count_with(&self, a: u32, b: u32) -> u32
        requires { a < b }
        ensures { result ≡ len (with_range self.now a b) }
    {
        kept::count_with(&self.kept, self.count, a, b)
    }

    /// Adds the numbers from `a` to `b` - 1. Fails where memory runs out.
    pub fn add(&mut self, a: u32, b: u32) -> Result<(), AllocError>
        requires { a < b }
        ensures added { OnOk result (self.new ≡ with_range self.old a b) }
        ensures same { OnErr result (self.new ≡ self.old) }
    {
        let count = kept::count_with(&self.kept, self.count, a, b);
        kept::make_room(&mut self.kept)?;
        kept::insert(&mut self.kept, self.count, a, b)?;
        self.count = count;
        Ok(())
    }
}
