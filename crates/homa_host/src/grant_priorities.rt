// The GRANTs of a step, with their priorities.
// Rules: a GRANT to each chosen message (overcommitment). Of n chosen messages the first by SRPT gets priority n - 1, and
// the last gets 0. `grants` says how far each is granted.
ghost use Rattle.homa_plain.specs.Work.{Work};
ghost use Rattle.homa_plain.specs.Steps.{gives_grants};
ghost use Rattle.homa_host.specs.Parts.{IsKept};
ghost use Rattle.homa_host.specs.Amid.{Amid, Steady, HasRoom};

use crate::parts::HostParts;
use arrayvec::ArrayVec;
use host_view::Outbox;

impl HostParts {
    // The chosen messages are granted to, unless nothing that arrives changed since they last were. No GRANT is due
    // then.
    pub(crate) fn give_due_grants(&mut self, out: &mut Outbox)
        requires kept { IsKept self.old }
        requires amid { (w : Work) × Amid w self.old out.old }
        requires room { HasRoom 7 7 self.old out.old }
        ensures kept { IsKept self.new }
        ensures step { (w : Work) → Amid w self.old out.old
            → Amid (gives_grants self.old.control.settings w) self.new out.new }
        ensures steady { Steady 7 7 0 self.old out.old self.new out.new }
    {
        if !self.books.changed {
            return;
        }
        self.give_grants(out);
        self.books.changed = false;
    }

    // The chosen messages are granted to, in order of rank.
    fn give_grants(&mut self, out: &mut Outbox)
        requires kept { IsKept self.old }
        requires room { HasRoom 7 7 self.old out.old }
        ensures kept { IsKept self.new }
        ensures step { (w : Work) → Amid w self.old out.old → Amid (gives_grants self.old.control.settings w) self.new out.new }
        ensures steady { Steady 7 7 0 self.old out.old self.new out.new }
    {
        let mut chosen: ArrayVec<u32, 8> = ArrayVec::new();
        self.books.grants.choose(&mut chosen);
        let mut rank = chosen.len() as u8;
        'ranks: for slot in chosen.as_slice() {
            rank -= 1;
            self.grant(*slot, rank, out);
        }
    }
}
