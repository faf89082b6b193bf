// The calls that are done, of which a server isn't told yet.
// Rule: an ACK tells a server of five finished calls together.
ghost use Rattle.std.specs.Prelude.{◌≡◌, ◌+◌, ◌<◌, ◌≤◌, length, drop, true};
ghost use Rattle.homa_plain.specs.Work.{Work};
ghost use Rattle.homa_plain.specs.FiveAcks.{finishes};
ghost use Rattle.host_state.specs.Control.{IsAt};

use crate::control::Control;
use homa_plain::{Body, CallId, HostId, More, Role};
use host_view::Outbox;

// The calls after the first.
fn more_of(calls: &[(u32, u32)]) -> More
    requires { length calls.now ≡ 5 }
    ensures { result ≡ drop 1 calls.now }
{
    let mut more = More::empty();
    for (inc, seq) in &calls[1..] {
        more.push(*inc, *seq);
    }
    more
}

impl Control {
    /// A call is done: it joins the finished calls of its server, and five of them are acknowledged together.
    pub fn finish(&mut self, id: CallId, server: HostId, out: &mut Outbox)
        requires server { server.0 < self.old.settings.hosts }
        requires call { 1 ≤ id.inc }
        requires room { length self.old.marks < 128 }
        requires frames { length out.old < 64 }
        ensures step { (w : Work) → IsAt w self.old out.old
            → IsAt (finishes self.old.settings id server true w) self.new out.new }
        ensures same { self.new ≡ record self.old { finished = self.new.finished; marks = self.new.marks } }
        ensures marks { length self.new.marks ≤ length self.old.marks + 1 }
        ensures frames { length out.new ≤ length out.old + 1 }
    {
        let Some(batch) = self.acks.finish(server, id.inc, id.seq) else {
            return;
        };
        let (inc, seq) = batch[0];
        let first = CallId {
            client: self.id,
            inc,
            seq,
        };
        let more = more_of(&batch);
        self.post(Role::Client, first, server, Body::Ack { more }, out);
    }
}
