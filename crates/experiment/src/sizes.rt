// The table of lengths that lines say.
ghost use Rattle.std.specs.Prelude.{◌≡◌, ◌≤◌, true, IfOk};
ghost use Rattle.experiment.specs.Tables.{is_step};
ghost use Rattle.experiment.specs.Sizes.{IsAfter, sizing, numbered, above, stepped, sized, lengthened, cumulated};

use crate::fault::{LineStop, Wrong, refused};
use crate::steps::Step;
use crate::workload::Workload;
use std::alloc::{AllocError, Global};

/// The table that lines say, with its number if it is one of the five, and the sum of the shares of `cumulative` lines.
#[derive(Drop)]
pub(crate) struct Sizes {
    pub(crate) workload: Workload,
    pub(crate) numbered: Option<u32>,
    pub(crate) summed: u32,
}

impl Sizes {
    /// That of one of the five workloads.
    pub(crate) fn numbered(alloc: Global, number: u32) -> Result<Sizes, AllocError>
        requires least { 1 ≤ number }
        requires most { number ≤ 5 }
        ensures { IfOk result (λ sizes. sizing sizes ≡ numbered number) }
    {
        Ok(Sizes {
            workload: Workload::numbered(alloc, number)?,
            numbered: Some(number),
            summed: 0,
        })
    }

    // The greatest length of a table of one's own, or 0.
    fn above(&self) -> u32
        ensures value { result ≡ above (sizing self.now) }
        ensures most { result ≤ 1000000 }
    {
        match self.numbered {
            Some(_) => 0,
            None => self.workload.longest(),
        }
    }

    // One step more, which is the first where the table was one of the five.
    fn add_step(&mut self, alloc: Global, step: Step) -> Result<(), LineStop>
        requires { is_step (above (sizing self.old)) step ≡ true }
        ensures { IsAfter (stepped (sizing self.old) step) result (sizing self.new) }
    {
        match self.numbered {
            Some(_) => {
                self.workload = Workload::of(alloc, step)?;
                self.numbered = None;
                Ok(())
            }
            None => {
                if self.workload.push(step)? {
                    Ok(())
                } else {
                    refused(1, Wrong::Steps)
                }
            }
        }
    }

    /// Lengths above those of the line before, and at most so long.
    pub(crate) fn add_size(&mut self, alloc: Global, upto: u32, share: u32) -> Result<(), LineStop>
        requires upto { upto ≤ 1000000 }
        requires least { 1 ≤ share }
        requires most { share ≤ 1000000 }
        ensures { IsAfter (sized (sizing self.old) upto share) result (sizing self.new) }
    {
        let above = self.above();
        if above < upto {
            self.add_step(alloc, Step { above, upto, share })
        } else {
            refused(2, Wrong::NotAbove)
        }
    }

    /// One length.
    pub(crate) fn add_length(
        &mut self,
        alloc: Global,
        upto: u32,
        share: u32,
    ) -> Result<(), LineStop>
        requires upto { upto ≤ 1000000 }
        requires least { 1 ≤ share }
        requires most { share ≤ 1000000 }
        ensures { IsAfter (lengthened (sizing self.old) upto share) result (sizing self.new) }
    {
        if self.above() < upto {
            let above = upto - 1;
            self.add_step(alloc, Step { above, upto, share })
        } else {
            refused(2, Wrong::NotAbove)
        }
    }

    /// Of a million requests `sum` are at most so long.
    pub(crate) fn add_cumulative(
        &mut self,
        alloc: Global,
        upto: u32,
        sum: u32,
    ) -> Result<(), LineStop>
        requires upto { upto ≤ 1000000 }
        requires sum { sum ≤ 1000000 }
        ensures { IsAfter (cumulated (sizing self.old) upto sum) result (sizing self.new) }
    {
        let above = self.above();
        if above >= upto {
            return refused(2, Wrong::NotAbove);
        }
        if self.summed >= sum {
            return refused(3, Wrong::NotAbove);
        }
        let share = sum - self.summed;
        self.add_step(alloc, Step { above, upto, share })?;
        self.summed = sum;
        Ok(())
    }
}
