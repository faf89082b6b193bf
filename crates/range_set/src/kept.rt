//! Lists of ranges that are apart: what a `RangeSet` keeps. Each contract is a recursion on the list of the plain ranges.

ghost use Rattle.std.specs.Prelude.{◌≡◌, ℕ, ◌+◌, ◌<◌, ◌≤◌, ◌↔◌, ◌∷◌, [], ◌++◌, length, take, drop, min};
ghost use Rattle.std.specs.Option.{option_map};
ghost use Rattle.arrayvec.specs.ArrayVec.{array_vec_len};
ghost use Rattle.plain_sets.specs.Ranges.{joined, absorbed, parted, led, cut, width_of};
ghost use Rattle.plain_sets.specs.Ordered.{first_of};
ghost use Rattle.range_set.specs.Fits.{bounds, front};
ghost use Rattle.range_set.specs.Kept.{plain, AreKept};
ghost use Rattle.range_set.specs.Lists.{is_covered, rest_of, Joins, Parts};
ghost use Rattle.range_set.specs.Changed.{IfCount};

use crate::Changed;
use arrayvec::ArrayVec;

/// The numbers from `from` to `to` - 1.
#[derive(Clone, Copy, Debug, Default, PartialEq, Eq)]
pub struct Range {
    pub from: u32,
    pub to: u32,
}

/// The ranges of the numbers from 0 to `len` - 1.
pub fn upto(len: u32) -> ArrayVec<Range, 64>
    ensures { plain result.items ≡ led 0 len [] }
{
    let mut out = ArrayVec::new();
    if len > 0 {
        out.push(Range { from: 0, to: len });
    }
    out
}

/// Adds the numbers from `a` to `b` - 1, unless more than `most` ranges would be left.
pub fn insert(kept: &mut ArrayVec<Range, 64>, a: u32, b: u32, most: u32) -> Changed
    requires rising { a < b }
    requires small { b ≤ 1000000 }
    requires few { most ≤ 64 }
    requires kept { AreKept kept.old.items }
    ensures added { IfCount result (Joins (plain kept.old.items) (plain kept.new.items) a b most) }
    ensures too_many { (result ≡ Changed.TooMany) ↔ (most < length (joined a b (plain kept.old.items))) }
    ensures unchanged { result ≡ Changed.TooMany → kept.new ≡ kept.old }
    ensures kept_again { AreKept kept.new.items }
{
    let joined = join(kept.as_slice(), a, b);
    if joined.len() > most as usize {
        return Changed::TooMany;
    }
    let before = width(kept.as_slice());
    replace(kept, joined.as_slice());
    Changed::Count(width(kept.as_slice()) - before)
}

/// Takes the numbers from `a` to `b` - 1 away, unless more than 64 ranges would be left.
pub fn remove(kept: &mut ArrayVec<Range, 64>, a: u32, b: u32) -> Changed
    requires rising { a < b }
    requires kept { AreKept kept.old.items }
    ensures removed { IfCount result (Parts (plain kept.old.items) (plain kept.new.items) a b) }
    ensures too_many { (result ≡ Changed.TooMany) ↔ (64 < length (parted a b (plain kept.old.items))) }
    ensures unchanged { result ≡ Changed.TooMany → kept.new ≡ kept.old }
    ensures kept_again { AreKept kept.new.items }
{
    let mut parted = ArrayVec::new();
    part(&mut parted, kept.as_slice(), a, b);
    if parted.len() > 64 {
        return Changed::TooMany;
    }
    let before = width(kept.as_slice());
    replace(kept, parted.as_slice());
    Changed::Count(before - width(kept.as_slice()))
}

/// Takes the first part of the first range away, at most `max` numbers.
pub fn take_front(kept: &mut ArrayVec<Range, 64>, max: u32) -> Option<(u32, u32)>
    requires positive { 1 ≤ max }
    requires kept { AreKept kept.old.items }
    ensures front { result ≡ option_map (λ r. bounds (front max r)) (first_of (plain kept.old.items)) }
    ensures rest { plain kept.new.items ≡ rest_of max (plain kept.old.items) }
{
    if kept.is_empty() {
        return None;
    }
    let first = kept[0];
    let to = first.from + max.min(first.to - first.from);
    if to < first.to {
        kept[0] = Range {
            from: to,
            to: first.to,
        };
    } else {
        kept.remove(0);
    }
    Some((first.from, to))
}

/// The first range of those numbers from `a` to `b` - 1 that are in the ranges.
pub fn first_cut(kept: &[Range], a: u32, b: u32) -> Option<(u32, u32)>
    ensures { result ≡ option_map bounds (cut a b (plain kept.now)) }
{
    for range in kept {
        if range.to > a {
            let from = a.max(range.from);
            if from >= b {
                return None;
            }
            return Some((from, b.min(range.to)));
        }
    }
    None
}

/// Whether one range has all numbers from `a` to `b` - 1.
pub fn has_all(kept: &[Range], a: u32, b: u32) -> bool
    ensures { result ≡ is_covered a b (plain kept.now) }
{
    if b <= a {
        return true;
    }
    for range in kept {
        if range.from <= a && b <= range.to {
            return true;
        }
    }
    false
}

/// How many numbers the ranges have.
pub fn width(kept: &[Range]) -> u32
    requires { AreKept kept.now }
    ensures { result ≡ width_of (plain kept.now) }
{
    let mut total = 0;
    for range in kept {
        total += range.to - range.from;
    }
    total
}

/// The ranges with the numbers from `a` to `b` - 1 added.
fn join(kept: &[Range], a: u32, b: u32) -> ArrayVec<Range, 65>
    requires { length kept.now ≤ 64 }
    ensures { plain result.items ≡ joined a b (plain kept.now) }
{
    let (below, rest) = kept.split_at(count_below(kept, a));
    let (added, touched) = absorb(rest, a, b);
    let mut out: ArrayVec<Range, 65> = ArrayVec::new();
    append(&mut out, below);
    out.push(added);
    append(&mut out, &rest[touched..]);
    out
}

/// How many ranges, from the first on, end below `a`.
fn count_below(kept: &[Range], a: u32) -> usize
    ensures within { result ≤ length kept.now }
    ensures copied { (b : ℕ) → joined a b (plain kept.now) ≡ plain (take result kept.now) ++ absorbed a b (plain (drop result kept.now)) }
{
    for (i, range) in kept.iter().enumerate() {
        if range.to >= a {
            return i;
        }
    }
    kept.len()
}

/// The range from `a` to `b` - 1 joined with the first ranges that it touches, and how many these are.
fn absorb(kept: &[Range], a: u32, b: u32) -> (Range, usize)
    ensures within { result.1 ≤ length kept.now }
    ensures added { absorbed a b (plain kept.now) ≡ plain (result.0 ∷ drop result.1 kept.now) }
{
    let mut from = a;
    let mut to = b;
    for (i, range) in kept.iter().enumerate() {
        if range.from > to {
            return (Range { from, to }, i);
        }
        from = from.min(range.from);
        to = to.max(range.to);
    }
    (Range { from, to }, kept.len())
}

/// The ranges with the numbers from `a` to `b` - 1 taken away, in an empty list that is lent.
fn part(out: &mut ArrayVec<Range, 65>, kept: &[Range], a: u32, b: u32)
    requires none { out.old.items ≡ [] }
    requires few { length (parted a b (plain kept.now)) ≤ 65 }
    ensures { plain out.new.items ≡ parted a b (plain kept.now) }
{
    for range in kept {
        lead(out, range.from, range.to.min(a));
        lead(out, range.from.max(b), range.to);
    }
}

/// Appends the range from `from` to `to` - 1, unless it is empty.
#[tactic(auto, using(crate::proofs::PlainRanges::plain_append))]
fn lead(out: &mut ArrayVec<Range, 65>, from: u32, to: u32)
    requires { array_vec_len out.old + length (led from to []) ≤ 65 }
    ensures { plain out.new.items ≡ plain out.old.items ++ led from to [] }
{
    if from < to {
        out.push(Range { from, to });
    }
}

/// Makes the kept ranges these.
fn replace(kept: &mut ArrayVec<Range, 64>, new: &[Range])
    requires { length new.now ≤ 64 }
    ensures { kept.new.items ≡ new.now }
{
    kept.clear();
    append(kept, new);
}

/// Appends ranges, for which there is room.
fn append<const N: usize>(out: &mut ArrayVec<Range, N>, ranges: &[Range])
    requires { array_vec_len out.old + length ranges.now ≤ N }
    ensures { out.new.items ≡ out.old.items ++ ranges.now }
{
    for range in ranges {
        out.push(*range);
    }
}
