//! The sender's half of a message: which of its bytes wait to be sent, how far they are granted, and how far they were sent.
//!
//! An [`Outgoing`] is seen as the plain record `Outgoing` of `homa_plain`: the set of the waiting bytes, and five numbers.
//! Each call does exactly what the definition of its name says: it opens a message, takes a GRANT or a RESEND, starts
//! over, or takes the lowest waiting bytes to be sent. The waiting bytes are always granted ones and make at most 64
//! ranges, so that a grant never fails and no call takes memory.
#![tactic(auto)]

mod busy;
mod next_piece;
mod unscheduled;

ghost use Rattle.std.specs.Prelude.{◌≡◌, ◌<◌, ◌≤◌, length};
ghost use Rattle.plain_sets.specs.Numbers.{with_range, ranges};
ghost use Rattle.homa_plain.specs.Outgoing.{grant, IsSound};

pub use busy::Resent;
use homa_plain::LONGEST_MESSAGE;
use range_set::RangeSet;
use std::marker::Model;

/// A message of 1 to 1000000 bytes that is sent.
#[derive(Drop)]
pub struct Outgoing {
    waiting: RangeSet,
    len: u32,
    granted: u32,
    top: u32,
    prio: u8,
    unsched: u32,
}

impl Model for Outgoing {
    ghost use Rattle.homa_plain.specs.Outgoing.{Outgoing as Plain};
    ghost use Rattle.homa_plain.specs.PartCodes.{outgoing_code};
    ghost use Rattle.homa_out.specs.Kept.{IsKept};

    ghost Value = { Plain };

    ghost coded = { outgoing_code };

    ghost view = { λ a. record { length = a.len; waiting = a.waiting; granted = a.granted; top = a.top; prio = a.prio; unsched = a.unsched } };

    ghost invariant = { λ a. IsKept (record { length = a.len; waiting = a.waiting; granted = a.granted; top = a.top; prio = a.prio; unsched = a.unsched }) };
}

impl Outgoing {
    /// A grant of the bytes below `offset` comes: those that weren't granted wait now, and go out at `prio`. A grant
    /// of no more than before changes nothing.
    pub fn grant(&mut self, offset: u32, prio: u8)
        ensures { self.new ≡ grant self.old offset prio }
    {
        let end = offset.min(self.len);
        if self.granted < end {
            add(&mut self.waiting, self.granted, end);
            self.granted = end;
            self.prio = prio;
        }
    }

    /// The priority at which the granted bytes go out.
    pub fn prio(&self) -> u8
        ensures { result ≡ self.now.prio }
    {
        self.prio
    }

    /// How many bytes the message has: at most 1000000.
    pub fn len(&self) -> u32
        ensures value { result ≡ self.now.length }
        ensures small { result ≤ LONGEST_MESSAGE }
        ensures sound { IsSound self.now }
    {
        self.len
    }

    /// The granted end: bytes from this number on may not be sent yet.
    pub fn granted(&self) -> u32
        ensures { result ≡ self.now.granted }
    {
        self.granted
    }
}

/// Adds the bytes from `a` to `b` - 1, which make at most 64 ranges with the others.
fn add(waiting: &mut RangeSet, a: u32, b: u32)
    requires rising { a < b }
    requires small { b ≤ LONGEST_MESSAGE }
    requires few { length (ranges (with_range waiting.old a b)) ≤ 64 }
    ensures { waiting.new ≡ with_range waiting.old a b }
{
    waiting.insert(a, b, 64);
}
