//! A RESEND: its bytes are queued again, or nothing is, and then the answer is BUSY.
//! `homa_client/src/busy` and `homa_server/src/busy` send it.
ghost use Rattle.std.specs.Prelude.{◌≡◌, ◌<◌};
ghost use Rattle.homa_plain.specs.Busy.{resend};
ghost use Rattle.homa_out.specs.Answers.{answered};

use crate::Outgoing;
use range_set::Changed;

/// The answer to a RESEND.
#[derive(Clone, Copy, Debug, PartialEq, Eq)]
pub enum Resent {
    /// The bytes wait to be sent again.
    Queued,
    /// Nothing changed: there are no such bytes, all of them wait, or more than 63 ranges would wait.
    Busy,
}

impl Outgoing {
    /// A RESEND of the bytes from `a` to `b` - 1 comes: those of the message wait again, and go out at `prio`.
    pub fn resend(&mut self, a: u32, b: u32, prio: u8) -> Resent
        requires { a < b }
        ensures part { self.new ≡ (resend self.old a b prio).part }
        ensures answer { result ≡ answered (resend self.old a b prio).answer }
        ensures unchanged { result ≡ Resent.Busy → self.new ≡ self.old }
    {
        let end = b.min(self.len);
        if self.waiting.has_all(a, end) {
            return Resent::Busy;
        }
        match self.waiting.insert(a, end, 63) {
            Changed::TooMany => Resent::Busy,
            Changed::Count(_) => {
                self.granted = self.granted.max(end);
                self.prio = prio;
                Resent::Queued
            }
        }
    }
}
