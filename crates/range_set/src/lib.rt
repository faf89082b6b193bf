//! Sets of numbers below a million, kept as ranges: which bytes of a message have come, are granted or are due again.
//!
//! A [`RangeSet`] is seen as the set of its members (`Numbers` of plain_sets). It keeps at most 64 ranges, which are
//! disjoint, not adjacent and rising, in place: it takes no memory. A change tells how many numbers it added or
//! removed, and where the result would have too many ranges it changes nothing and says so; each answer is exact.
#![tactic(auto)]

mod kept;

ghost use Rattle.std.specs.Prelude.{◌≡◌, ℕ, ◌+◌, ◌-◌, ◌<◌, ◌≤◌, ◌↔◌, true, length, IsTrue, IsNone, IfSome, IfNone};
ghost use Rattle.std.specs.Option.{option_map};
ghost use Rattle.plain_sets.specs.Maps.{empty, len};
ghost use Rattle.plain_sets.specs.Ranges.{NoneIn};
ghost use Rattle.plain_sets.specs.Numbers.{has, with_range, without_range, set_of_range, is_subset, IsBelow, ranges, first_in, first_below};
ghost use Rattle.plain_sets.specs.Ordered.{first_of};
ghost use Rattle.range_set.specs.Fits.{FitsRangeSet, bounds, front};
ghost use Rattle.range_set.specs.Changed.{IfCount, AddsRange, RemovesRange};

use arrayvec::ArrayVec;
use kept::Range;
use std::marker::Model;

/// A set of numbers below a million, of at most 64 ranges.
#[derive(Drop)]
pub struct RangeSet {
    kept: ArrayVec<Range, 64>,
}

impl Model for RangeSet {
    ghost use Rattle.plain_sets.specs.Numbers.{Numbers, numbers_code, set_of_ranges};
    ghost use Rattle.range_set.specs.Kept.{plain, AreKept};

    ghost Value = { Numbers };

    ghost coded = { numbers_code };

    ghost view = { λ a. set_of_ranges (plain a.kept.items) };

    ghost invariant = { λ a. AreKept a.kept.items };
}

/// What a change of a set did.
#[derive(Clone, Copy, Debug, PartialEq, Eq)]
pub enum Changed {
    /// This many numbers were added or removed.
    Count(u32),
    /// The result would have had too many ranges, and nothing changed.
    TooMany,
}

impl RangeSet {
    /// A set without members. It takes no memory.
    pub fn empty() -> RangeSet
        ensures { result ≡ empty }
    {
        RangeSet {
            kept: ArrayVec::new(),
        }
    }

    /// The numbers from 0 to `len` - 1.
    pub fn upto(len: u32) -> RangeSet
        requires { len ≤ 1000000 }
        ensures { result ≡ set_of_range 0 len }
    {
        RangeSet {
            kept: kept::upto(len),
        }
    }

    /// Adds the numbers from `a` to `b` - 1, unless the set would then have more than `most` ranges.
    pub fn insert(&mut self, a: u32, b: u32, most: u32) -> Changed
        requires rising { a < b }
        requires small { b ≤ 1000000 }
        requires few { most ≤ 64 }
        ensures added { IfCount result (AddsRange self.old self.new a b most) }
        ensures too_many { (result ≡ Changed.TooMany) ↔ (most < length (ranges (with_range self.old a b))) }
        ensures unchanged { result ≡ Changed.TooMany → self.new ≡ self.old }
        ensures fits { FitsRangeSet self.new }
    {
        kept::insert(&mut self.kept, a, b, most)
    }

    /// Takes the numbers from `a` to `b` - 1 away, unless more than 64 ranges would be left.
    pub fn remove(&mut self, a: u32, b: u32) -> Changed
        requires rising { a < b }
        requires small { b ≤ 1000000 }
        ensures removed { IfCount result (RemovesRange self.old self.new a b) }
        ensures too_many { (result ≡ Changed.TooMany) ↔ (64 < length (ranges (without_range self.old a b))) }
        ensures unchanged { result ≡ Changed.TooMany → self.new ≡ self.old }
        ensures fits { FitsRangeSet self.new }
    {
        kept::remove(&mut self.kept, a, b)
    }

    /// Takes the first part of the first range away, at most `max` numbers: from the first to before the second one.
    pub fn take_first(&mut self, max: u32) -> Option<(u32, u32)>
        requires { 1 ≤ max }
        ensures front { result ≡ option_map (λ r. bounds (front max r)) (first_of (ranges self.old)) }
        ensures taken { IfSome result (λ r. self.new ≡ without_range self.old r.0 r.1) }
        ensures within { IfSome result (λ r. (r.0 < r.1) × (r.1 ≤ r.0 + max)) }
        ensures count { IfSome result (λ r. len self.new + (r.1 - r.0) ≡ len self.old) }
        ensures none { IsNone result ↔ (self.old ≡ empty) }
        ensures unchanged { IfNone result (self.new ≡ self.old) }
        ensures fits { FitsRangeSet self.new }
    {
        kept::take_front(&mut self.kept, max)
    }

    /// The first range of the members below `limit`, cut there: from the first to before the second number.
    pub fn first_below(&self, limit: u32) -> Option<(u32, u32)>
        ensures value { result ≡ option_map bounds (first_below self.now limit) }
        ensures none { IsNone result ↔ NoneIn (has self.now) 0 limit }
        ensures within { IfSome result (λ r. (r.0 < r.1) × (r.1 ≤ limit)) }
    {
        kept::first_cut(self.kept.as_slice(), 0, limit)
    }

    /// The first range of the members from `a` to `b` - 1, cut to these: from the first to before the second number.
    pub fn first_in(&self, a: u32, b: u32) -> Option<(u32, u32)>
        requires { a < b }
        ensures value { result ≡ option_map bounds (first_in self.now a b) }
        ensures none { IsNone result ↔ NoneIn (has self.now) a b }
        ensures within { IfSome result (λ r. (a ≤ r.0) × (r.0 < r.1) × (r.1 ≤ b)) }
    {
        kept::first_cut(self.kept.as_slice(), a, b)
    }

    /// Whether all numbers from `a` to `b` - 1 are members. Where there are none of these, they are.
    pub fn has_all(&self, a: u32, b: u32) -> bool
        ensures value { result ≡ is_subset (set_of_range a b) self.now }
        ensures all { IsTrue result ↔ ((x : ℕ) → a ≤ x → x < b → has self.now x ≡ true) }
    {
        kept::has_all(self.kept.as_slice(), a, b)
    }

    /// How many members there are: at most a million.
    pub fn count(&self) -> u32
        ensures value { result ≡ len self.now }
        ensures small { result ≤ 1000000 }
        ensures below { IsBelow self.now 1000000 }
    {
        kept::width(self.kept.as_slice())
    }

    /// How many ranges the members make: at most 64.
    pub fn ranges(&self) -> u32
        ensures value { result ≡ length (ranges self.now) }
        ensures few { result ≤ 64 }
    {
        self.kept.len() as u32
    }

    /// Whether there is no member.
    pub fn is_empty(&self) -> bool
        ensures { IsTrue result ↔ (self.now ≡ empty) }
    {
        self.kept.is_empty()
    }
}
