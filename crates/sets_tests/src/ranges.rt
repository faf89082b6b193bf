// Sets of ranges with values worked out by hand.
ghost use Rattle.std.specs.Prelude.{◌<◌, ◌≤◌};

use range_set::{Changed, RangeSet};
use std::process::Abort;

// Numbers are added, and then the set has so many numbers in so many ranges.
fn adds(rt: &impl Abort, set: &mut RangeSet, a: u32, b: u32, wanted: Changed, size: (u32, u32))
    requires rising { a < b }
    requires small { b ≤ 1000000 }
{
    assert_eq!(rt; set.insert(a, b, 64), wanted);
    assert_eq!(rt; (set.count(), set.ranges()), size);
}

// The same where at most two ranges are allowed.
fn adds_to_two(rt: &impl Abort, set: &mut RangeSet, a: u32, b: u32, wanted: Changed)
    requires rising { a < b }
    requires small { b ≤ 1000000 }
{
    assert_eq!(rt; set.insert(a, b, 2), wanted);
}

// The first numbers below a limit.
fn begins(rt: &impl Abort, set: &RangeSet, limit: u32, wanted: Option<(u32, u32)>) {
    assert_eq!(rt; set.first_below(limit), wanted);
}

// The first numbers of a range.
fn has_first(rt: &impl Abort, set: &RangeSet, a: u32, b: u32, wanted: Option<(u32, u32)>)
    requires { a < b }
{
    assert_eq!(rt; set.first_in(a, b), wanted);
}

fn has_all(rt: &impl Abort, set: &RangeSet, a: u32, b: u32, wanted: bool) {
    assert_eq!(rt; set.has_all(a, b), wanted);
}

// A front is taken.
fn takes(rt: &impl Abort, set: &mut RangeSet, max: u32, wanted: Option<(u32, u32)>)
    requires { 1 ≤ max }
{
    assert_eq!(rt; set.take_first(max), wanted);
}

#[test]
fn insertions_join(rt: HostRuntime) {
    let mut set = RangeSet::empty();
    assert!(rt; set.is_empty());
    adds(&rt, &mut set, 1, 4, Changed::Count(3), (3, 1));
    adds(&rt, &mut set, 5, 6, Changed::Count(1), (4, 2));
    adds(&rt, &mut set, 4, 5, Changed::Count(1), (5, 1));
    adds(&rt, &mut set, 2, 6, Changed::Count(0), (5, 1));
    begins(&rt, &set, 100, Some((1, 6)));
    assert!(rt; !set.is_empty());
}

#[test]
fn a_removal_splits(rt: HostRuntime) {
    let mut set = RangeSet::upto(10);
    assert_eq!(rt; set.remove(3, 5), Changed::Count(2));
    assert_eq!(rt; (set.count(), set.ranges()), (8, 2));
    begins(&rt, &set, 10, Some((0, 3)));
    has_first(&rt, &set, 2, 8, Some((2, 3)));
    has_first(&rt, &set, 3, 8, Some((5, 8)));
    has_first(&rt, &set, 3, 5, None);
    has_all(&rt, &set, 5, 10, true);
    has_all(&rt, &set, 2, 6, false);
    has_all(&rt, &set, 4, 4, true);
}

#[test]
fn too_many_ranges(rt: HostRuntime) {
    let mut set = RangeSet::empty();
    adds_to_two(&rt, &mut set, 0, 1, Changed::Count(1));
    adds_to_two(&rt, &mut set, 10, 20, Changed::Count(10));
    adds_to_two(&rt, &mut set, 5, 6, Changed::TooMany);
    assert_eq!(rt; set.count(), 11);
    has_first(&rt, &set, 1, 10, None);
}

#[test]
fn a_front_is_taken(rt: HostRuntime) {
    let mut set = RangeSet::empty();
    adds(&rt, &mut set, 4, 10, Changed::Count(6), (6, 1));
    adds(&rt, &mut set, 20, 21, Changed::Count(1), (7, 2));
    takes(&rt, &mut set, 2, Some((4, 6)));
    takes(&rt, &mut set, 100, Some((6, 10)));
    assert_eq!(rt; set.count(), 1);
    takes(&rt, &mut set, 1, Some((20, 21)));
    takes(&rt, &mut set, 1, None);
}

#[test]
fn fronts_of_zero_on(rt: HostRuntime) {
    let none = RangeSet::upto(0);
    assert!(rt; none.is_empty());
    begins(&rt, &none, 5, None);
    let five = RangeSet::upto(5);
    assert_eq!(rt; five.count(), 5);
    begins(&rt, &five, 3, Some((0, 3)));
    begins(&rt, &five, 9, Some((0, 5)));
    has_all(&rt, &five, 0, 5, true);
    has_all(&rt, &five, 0, 6, false);
}
