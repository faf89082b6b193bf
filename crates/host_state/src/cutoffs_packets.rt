//! CUTOFFS packets: who is told the cutoffs of this host, and which cutoffs of a peer it keeps.
ghost use Rattle.std.specs.Prelude.{◌≡◌, ◌+◌, ◌<◌, ◌≤◌, ◌^◌, ◌++◌, ◌∷◌, [], Some, IfSome, List, length};
ghost use Rattle.homa_plain.specs.Host.{is_balance_due, rebalanced};
ghost use Rattle.homa_plain.specs.Work.{Work};
ghost use Rattle.homa_plain.specs.CutoffsPackets.{notes, tells_cutoffs, is_newer, hears_cutoffs};
ghost use Rattle.host_view.specs.declared.mark.Mark.TheVariants.{Balanced};
ghost use Rattle.host_view.specs.declared.outbox.SentFrame.{SentFrame};
ghost use Rattle.host_state.specs.Control.{IsAt};
ghost use Rattle.host_state.specs.Fields.{peer_of};
ghost use Rattle.host_state.specs.Saying.{HasFitCutoffs, one_of};

use crate::control::Control;
use homa_plain::{Body, CallId, Cutoffs, HostId, LONGEST_MESSAGE, Role};
use host_view::{Mark, Outbox};

/// The cutoffs of a peer, and its incarnation when it sent them.
#[derive(Clone, Copy, Debug, PartialEq, Eq)]
pub struct Peer {
    pub inc: u32,
    pub cutoffs: Cutoffs,
}

impl Peer {
    // Whether these cutoffs are newer than those that are held.
    fn is_newer(&self, held: &Peer) -> bool
        ensures { result ≡ is_newer self.now.inc self.now.cutoffs (peer_of held.now) }
    {
        held.inc < self.inc || held.inc == self.inc && held.cutoffs.version < self.cutoffs.version
    }
}

impl Control {
    // Whether the cutoffs are computed anew.
    fn is_balance_due(&self) -> bool
        ensures { result ≡ is_balance_due self.now.settings self.now.tuning }
    {
        self.settings.rebalance != 0
            && self.opened % u64::from(self.settings.rebalance) == 0
            && self.own.version < u16::MAX
    }

    /// A message of `len` bytes was opened: its length is noted, and the cutoffs may be computed anew.
    pub fn note(&mut self, len: u32)
        requires len { len ≤ LONGEST_MESSAGE }
        requires opened { self.old.tuning.opened + 1 < 2 ^ 64 }
        requires room { length self.old.marks < 128 }
        ensures step { (w : Work) (frames : List SentFrame) → IsAt w self.old frames
            → IsAt (notes self.old.settings (Some len) w) self.new frames }
        ensures same { self.new ≡ record self.old { tuning = self.new.tuning; marks = self.new.marks } }
        ensures opened { self.new.tuning.opened ≡ self.old.tuning.opened + 1 }
        ensures marks { length self.new.marks ≤ length self.old.marks + 1 }
    {
        self.recent.note(len);
        self.opened += 1;
        if self.is_balance_due() {
            self.balance();
        }
    }

    // Computes the cutoffs anew.
    fn balance(&mut self)
        requires noted { 0 < length self.old.tuning.lengths }
        requires version { self.old.tuning.own.version < 65535 }
        requires room { length self.old.marks < 128 }
        ensures { self.new ≡ record self.old {
          tuning = rebalanced self.old.settings self.old.tuning;
          marks = self.old.marks ++ Balanced (rebalanced self.old.settings self.old.tuning).own ∷ [];
        } }
    {
        self.own = self.recent.balance(
            self.settings.overcommit,
            self.settings.unsched,
            self.own.version + 1,
        );
        self.marks.push(Mark::Balanced { cutoffs: self.own });
    }

    /// A first piece of a message has this version of the cutoffs: if it isn't the present one, its sender gets the
    /// present cutoffs.
    pub fn tell_cutoffs(
        &mut self,
        role: Role,
        id: CallId,
        server: HostId,
        version: u16,
        out: &mut Outbox,
    )
        requires call { 1 ≤ id.inc }
        requires room { length self.old.marks < 128 }
        requires frames { length out.old < 64 }
        ensures step { (w : Work) → IsAt w self.old out.old
            → IsAt (tells_cutoffs self.old.settings role id server (Some version) w) self.new out.new }
        ensures same { self.new ≡ record self.old { marks = self.new.marks } }
        ensures marks { length self.new.marks ≤ length self.old.marks + 1 }
        ensures frames { length out.new ≤ length out.old + 1 }
    {
        if version != self.own.version {
            let own = self.own;
            self.post(role, id, server, Body::Cutoffs(own), out);
        }
    }

    /// A peer's cutoffs arrive: they are taken if they are of a later incarnation, or of a later version, than those
    /// that the host has.
    pub fn hear(&mut self, peer: HostId, inc: u32, body: &Body)
        requires peer { peer.0 < self.old.settings.hosts }
        requires fit { HasFitCutoffs body.now }
        ensures step { (w : Work) (frames : List SentFrame) → IsAt w self.old frames
            → IsAt (hears_cutoffs self.old.settings peer inc body.now w) self.new frames }
        ensures same { self.new ≡ record self.old { peers = self.new.peers } }
    {
        let Body::Cutoffs(cutoffs) = body else {
            return;
        };
        let told = Peer {
            inc,
            cutoffs: *cutoffs,
        };
        if told.is_newer(&self.peers[peer.0 as usize]) {
            self.peers[peer.0 as usize] = told;
        }
    }

    // A message was opened, or none.
    pub(crate) fn note_if(&mut self, opened: Option<u32>)
        requires len { IfSome opened (λ len. len ≤ LONGEST_MESSAGE) }
        requires opened { self.old.tuning.opened + 1 < 2 ^ 64 }
        requires room { length self.old.marks + one_of opened ≤ 128 }
        ensures step { (w : Work) (frames : List SentFrame) → IsAt w self.old frames
            → IsAt (notes self.old.settings opened w) self.new frames }
        ensures same { self.new ≡ record self.old { tuning = self.new.tuning; marks = self.new.marks } }
        ensures opened { self.new.tuning.opened ≡ self.old.tuning.opened + one_of opened }
        ensures marks { length self.new.marks ≤ length self.old.marks + one_of opened }
    {
        if let Some(len) = opened {
            self.note(len);
        }
    }

    // A first piece had this version of the cutoffs, or there was none.
    pub(crate) fn tell_cutoffs_if(
        &mut self,
        role: Role,
        id: CallId,
        server: HostId,
        version: Option<u16>,
        out: &mut Outbox,
    )
        requires call { 1 ≤ id.inc }
        requires room { length self.old.marks + one_of version ≤ 128 }
        requires frames { length out.old + one_of version ≤ 64 }
        ensures step { (w : Work) → IsAt w self.old out.old
            → IsAt (tells_cutoffs self.old.settings role id server version w) self.new out.new }
        ensures same { self.new ≡ record self.old { marks = self.new.marks } }
        ensures marks { length self.new.marks ≤ length self.old.marks + one_of version }
        ensures frames { length out.new ≤ length out.old + one_of version }
    {
        if let Some(version) = version {
            self.tell_cutoffs(role, id, server, version, out);
        }
    }
}
