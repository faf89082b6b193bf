//! Bytes without a grant: how many a message may send before its first GRANT, and again when it starts over.
//! `homa_in/src/putting` (`open_part`) is the receiver's side.
ghost use Rattle.std.specs.Prelude.{◌≡◌, ◌≤◌};
ghost use Rattle.homa_plain.specs.Outgoing.{opened, restart};

use crate::Outgoing;
use homa_plain::LONGEST_MESSAGE;
use range_set::RangeSet;

impl Outgoing {
    /// A message of `len` bytes, 1 to 1000000, of which the first `unsched` need no grant, and none was sent.
    pub fn open(len: u32, unsched: u32) -> Outgoing
        requires some { 1 ≤ len }
        requires small { len ≤ LONGEST_MESSAGE }
        requires unsched { 1 ≤ unsched }
        ensures { result ≡ opened len unsched }
    {
        let end = len.min(unsched);
        Outgoing {
            waiting: RangeSet::upto(end),
            len,
            granted: end,
            top: 0,
            prio: 0,
            unsched,
        }
    }

    /// Starts over: the bytes that need no grant wait, and nothing else.
    pub fn restart(&mut self)
        ensures { self.new ≡ restart self.old }
    {
        self.granted = self.len.min(self.unsched);
        self.waiting = RangeSet::upto(self.granted);
    }
}
