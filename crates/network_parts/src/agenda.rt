//! What is due, and when.
ghost use Rattle.std.specs.Prelude.{◌≡◌, ◌≤◌, ◌<◌, ◌+◌, ◌^◌, [], ◌∷◌, max, length, All, IfSome, OnErr, OnOk, None, IsPermutation};

use std::alloc::{AllocError, Global};
use std::cmp::Reverse;
use std::collections::BinaryHeap;
use std::marker::Model;

/// Something that is due at a moment. Of what is due at one moment the one with the lower number comes first.
#[derive(Clone, Copy)]
#[derive_where(PartialEq, Eq, PartialOrd, Ord)]
pub struct Due<T> {
    pub at: u64,
    pub number: u64,
    #[derive_where(skip)]
    pub what: T,
}

/// What is due, by its moment, and of one moment by its entering.
#[derive(Drop)]
pub struct Agenda<T: Copy> {
    heap: BinaryHeap<Reverse<Due<T>>>,
    entered: u64,
    reached: u64,
}

impl<T: Copy> Model for Agenda<T> {
    ghost use Rattle.network_parts.specs.Dues.{Calendar, calendar_code};

    ghost Value = { Calendar T };

    ghost coded = { calendar_code T.code };

    ghost use Rattle.std.specs.Prelude.{◌≤◌, All, map};
    ghost use Rattle.std.specs.BinaryHeap.{IsHeap, heap_items};
    ghost use Rattle.std.specs.Ordering.{nat_cmp, ordering_then};

    ghost view = { λ a. record { dues = map (λ d. d.0) (heap_items a.heap); moment = a.reached; count = a.entered } };

    ghost invariant = { λ a. IsHeap (λ x y. ordering_then (nat_cmp y.0.at x.0.at) (nat_cmp y.0.number x.0.number)) (heap_items a.heap)
        × All (λ d. a.reached ≤ d.0.at) (heap_items a.heap) };
}

impl<T: Copy> Agenda<T> {
    ghost use Rattle.network_parts.specs.Dues.{IsInTurn};

    /// Nothing is due, at moment 0.
    pub fn new(alloc: Global) -> Agenda<T>
        ensures { result ≡ record { dues = []; moment = 0; count = 0 } }
    {
        Agenda {
            heap: BinaryHeap::new(alloc),
            entered: 0,
            reached: 0,
        }
    }

    /// The moment of what came last.
    pub fn now(&self) -> u64
        ensures { result ≡ self.now.moment }
    {
        self.reached
    }

    /// How much is due.
    pub fn len(&self) -> usize
        ensures { result ≡ length self.now.dues }
    {
        self.heap.len()
    }

    /// How often something was entered.
    pub fn entered(&self) -> u64
        ensures { result ≡ self.now.count }
    {
        self.entered
    }

    /// Something is due at a moment, or now where that is over. Where memory runs out nothing changes.
    pub fn enter(&mut self, at: u64, what: T) -> Result<(), AllocError>
        requires { self.old.count < 2 ^ 63 }
        ensures entered { OnOk result (IsPermutation (record { at = max at self.old.moment; number = self.old.count; what = what } ∷ self.old.dues)
            (self.new.dues)) }
        ensures counted { OnOk result (self.new.count ≡ self.old.count + 1) }
        ensures err { OnErr result (self.new ≡ self.old) }
        ensures now { self.new.moment ≡ self.old.moment }
    {
        let due = Due {
            at: at.max(self.reached),
            number: self.entered,
            what,
        };
        self.heap.push(Reverse(due))?;
        self.entered += 1;
        Ok(())
    }

    /// What is due next, which no longer is: nothing that is due comes before it. Its moment is now.
    pub fn next(&mut self) -> Option<Due<T>>
        ensures taken { IfSome result (λ d. IsPermutation (self.old.dues) (d ∷ self.new.dues)) }
        ensures first { IfSome result (λ d. All (IsInTurn d) (self.new.dues)) }
        ensures now { IfSome result (λ d. self.new.moment ≡ d.at) }
        ensures forth { self.old.moment ≤ self.new.moment }
        ensures none { result ≡ None → self.old.dues ≡ [] }
        ensures same { result ≡ None → self.new ≡ self.old }
        ensures counted { self.new.count ≡ self.old.count }
    {
        let Reverse(due) = self.heap.pop()?;
        self.reached = due.at;
        Some(due)
    }
}
