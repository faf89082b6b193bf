// What has arrived of a message.
ghost use Rattle.std.specs.Prelude.{◌≡◌, ◌+◌, ◌<◌, ◌||◌, ◌==◌, if◌then◌else◌, min, unwrap_or, IfOk, IfSome};
ghost use Rattle.std.specs.Option.{option_map};
ghost use Rattle.check_call.specs.Calls.{more_of};
ghost use Rattle.plain_sets.specs.Maps.{empty, len};
ghost use Rattle.plain_sets.specs.Numbers.{Numbers, with_range};
ghost use Rattle.homa_plain.specs.declared.id.HostId.{HostId};
ghost use Rattle.trace_rules.specs.Parts as plain;
ghost use Rattle.trace_rules.specs.Judge.{is_within_at};
ghost use Rattle.check_call.specs.Kept.{part_of, IsCounted, IsPlain};

use open_ranges::OpenRanges;
use std::alloc::{AllocError, Global};

/// The part of a message that has arrived. The numbers of its bytes are those of a set that is kept beside it, if it
/// keeps that one, and those from `from` to `to` - 1, which came with the last delivery.
#[derive(Clone, Copy)]
pub struct Part {
    pub length: u32,
    pub granted: u32,
    pub order: u64,
    pub count: u32,
    pub keeps: bool,
    pub from: u32,
    pub to: u32,
}

impl Part {
    /// A part without bytes. The first `unsched` bytes need no grant.
    pub fn opened(length: u32, unsched: u32) -> Part
        ensures part { (host peer : HostId) (set : Numbers) → part_of host peer set result ≡ plain.opened host peer length unsched }
        ensures counted { (set : Numbers) → IsCounted set result }
        ensures plain { IsPlain result }
    {
        Part {
            length,
            granted: length.min(unsched),
            order: 0,
            count: 0,
            keeps: false,
            from: 0,
            to: 0,
        }
    }

    /// All bytes have arrived.
    pub fn is_whole(self) -> bool
        ensures { (host peer : HostId) (set : Numbers) → IsCounted set self → result ≡ plain.is_whole (part_of host peer set self) }
    {
        self.count == self.length
    }

    /// Some bytes have arrived, and not all.
    pub fn is_message(self) -> bool
        ensures { (host peer : HostId) (set : Numbers) → IsCounted set self → result ≡ plain.is_message (part_of host peer set self) }
    {
        self.count > 0 && !self.is_whole()
    }

    /// The part with so many bytes from number `a` on, as far as they belong to the message.
    pub fn grown(self, set: &OpenRanges, place: u64, a: u32, len: u64) -> Part
        requires { IsPlain self }
        ensures part { (host peer : HostId) → IsCounted set.now self
            → part_of host peer set.now result ≡ plain.grown place a (a + len) (part_of host peer set.now self) }
        ensures counted { IsCounted set.now self → IsCounted set.now result }
    {
        let order = self.order_at(place);
        let to = end_of(a, len, self.length);
        if to <= a {
            return Part { order, ..self };
        }
        let count = count_with(set, self.keeps, a, to);
        Part {
            order,
            count,
            from: a,
            to,
            ..self
        }
    }

    // The line with which its first bytes came, where more bytes come now.
    fn order_at(self, place: u64) -> u64
        ensures { result ≡ (if self.count == 0 then place else self.order) }
    {
        if self.count == 0 { place } else { self.order }
    }

    /// A GRANT raises the granted end of a message.
    pub fn raised(self, offset: u32) -> Part
        ensures part { (host peer : HostId) (set : Numbers) → IsCounted set self
            → part_of host peer set result ≡ plain.raised host peer offset (part_of host peer set self) }
        ensures counted { (set : Numbers) → IsCounted set self → IsCounted set result }
    {
        if !self.is_message() {
            return self;
        }
        Part {
            granted: self.granted.max(offset),
            ..self
        }
    }

    /// Of a message no more than a window is granted beyond as many bytes as have arrived.
    pub fn is_within(self, window: u32) -> bool
        ensures { (host peer : HostId) (set : Numbers) → IsCounted set self → result ≡ is_within_at window (part_of host peer set self) }
    {
        !self.is_message() || u64::from(self.granted) <= u64::from(self.count) + u64::from(window)
    }
}

/// Bytes that come: the line with which they come stands behind `place` lines, the first of them has the number
/// `offset`, and the first `unsched` bytes of a message need no grant.
#[derive(Clone, Copy)]
pub struct Arrival {
    pub place: u64,
    pub unsched: u32,
    pub offset: u32,
    pub len: u64,
}

/// A part of a message of this length with the bytes that come; it is opened with its first bytes.
pub fn more(before: Option<Part>, set: &OpenRanges, length: u32, arrival: Arrival) -> Part
    requires { IfSome before IsPlain }
    ensures part { (host peer : HostId) → IfSome before (IsCounted set.now)
        → part_of host peer set.now result ≡ more_of host peer arrival length (option_map (part_of host peer set.now) before) }
    ensures counted { IfSome before (IsCounted set.now) → IsCounted set.now result }
{
    part_or(before, length, arrival.unsched).grown(set, arrival.place, arrival.offset, arrival.len)
}

// A part, which is opened where there is none.
fn part_or(before: Option<Part>, length: u32, unsched: u32) -> Part
    ensures part { (host peer : HostId) (set : Numbers)
        → part_of host peer set result ≡ unwrap_or (option_map (part_of host peer set) before) (plain.opened host peer length unsched) }
    ensures counted { (set : Numbers) → IfSome before (IsCounted set) → IsCounted set result }
    ensures plain { IfSome before IsPlain → IsPlain result }
{
    match before {
        Some(part) => part,
        None => Part::opened(length, unsched),
    }
}

// Where so many bytes from number `a` on end, in a message of this length.
fn end_of(a: u32, len: u64, length: u32) -> u32
    ensures { result ≡ min (a + len) length }
{
    u64::from(a).saturating_add(len).min(u64::from(length)) as u32
}

// How many numbers there are with those from `a` to `b` - 1, in the set or, if that isn't kept, in none.
fn count_with(set: &OpenRanges, keeps: bool, a: u32, b: u32) -> u32
    requires { a < b }
    ensures { result ≡ len (with_range (if keeps then set.now else empty) a b) }
{
    if keeps { set.count_with(a, b) } else { b - a }
}

// Empties a set that isn't kept.
fn begin(alloc: Global, set: &mut OpenRanges, keeps: bool)
    ensures { set.new ≡ (if keeps then set.old else empty) }
{
    if !keeps {
        *set = OpenRanges::empty(alloc);
    }
}

/// Puts the bytes that came last into the set beside a part.
pub fn settle(alloc: Global, set: &mut OpenRanges, part: Part) -> Result<Part, AllocError>
    ensures part { IfOk result (λ p. (host peer : HostId) → part_of host peer set.new p ≡ part_of host peer set.old part) }
    ensures counted { IfOk result (λ p. IsCounted set.old part → IsCounted set.new p) }
    ensures settled { IfOk result IsPlain }
{
    begin(alloc, set, part.keeps);
    if part.from < part.to {
        set.add(part.from, part.to)?;
    }
    Ok(Part {
        keeps: true,
        from: 0,
        to: 0,
        ..part
    })
}
