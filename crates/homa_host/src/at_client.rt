// What packets of servers do to the calls that a host has made.
// Rules: DATA of a response, GRANT and RESEND of a request, BUSY, UNKNOWN, and NEED_ACK, which an ACK or BUSY answers.
ghost use Rattle.std.specs.Prelude.{◌≡◌, ℕ, ◌+◌, ◌<◌, ◌≤◌, ◌^◌, Option, Some, [], List, length, IsSome};
ghost use Rattle.std.specs.List.{AllByRecursion};
ghost use Rattle.homa_plain.specs.declared.id.CallId.{CallId};
ghost use Rattle.homa_plain.specs.declared.packet.Role.TheVariants.{Server as OfServerRole};
ghost use Rattle.homa_plain.specs.Wire.{IsWellFormed};
ghost use Rattle.homa_plain.specs.Packets.{Packet as PlainPacket, packet_between};
ghost use Rattle.homa_plain.specs.Rows.{ClientRow};
ghost use Rattle.homa_plain.specs.Rules.{Answer, Moment};
ghost use Rattle.homa_plain.specs.Work.{Work};
ghost use Rattle.homa_plain.specs.Steps.{comes_to_row, asked};
ghost use Rattle.msg_pool.specs.Pool.{Pool};
ghost use Rattle.homa_in.specs.Pieces.{piece_in};
ghost use Rattle.host_places.specs.Placed.{StandsAt, spot_at};
ghost use Rattle.homa_client.specs.Held.{HeldRow, seen_row};
ghost use Rattle.homa_client.specs.AtTable.{version_at, answer_of};
ghost use Rattle.host_state.specs.Control.{IsAt, IsSound};
ghost use Rattle.host_view.specs.Marks.{IsWhole};
ghost use Rattle.homa_host.specs.Parts.{IsKept};
ghost use Rattle.homa_host.specs.Amid.{Amid, Steady, HasRoom};
ghost use Rattle.homa_host.specs.Outcomes.{head_in, length_in, client_orders, IfTouched};

use crate::outcome::{PieceHead, client_change, client_orders, client_outcome, head_of};
use crate::parts::{HostParts, follow_client};
use homa_client::{ClientDid, ClientTable};
use homa_plain::{CallId, HostId, LONGEST_MESSAGE, Packet};
use host_state::Control;
use host_view::Outbox;
use msg_pool::Scratch;

impl HostParts {
    // A packet of a server comes.
    pub(crate) fn client_gets(
        &mut self,
        from: HostId,
        packet: &Packet,
        payload: &[u8],
        out: &mut Outbox,
        scratch: &mut Scratch,
    )
        requires kept { IsKept self.old }
        requires from { from.0 < self.old.control.settings.hosts }
        requires formed { IsWellFormed self.old.control.settings.wire packet.now payload.now }
        requires role { packet.now.role ≡ OfServerRole }
        requires order { self.old.order < 2 ^ 63 }
        requires room { HasRoom 4 3 self.old out.old }
        ensures kept { IsKept self.new }
        ensures step { (w : Work) (a : Answer) → Amid w self.old out.old
            → Amid (comes_to_row self.old.control.settings (packet_between from self.old.control.id packet.now payload.now) a OfServerRole w) self.new out.new }
        ensures whole { (w : Work) (a : Answer) → Amid w self.old out.old → w.told ≡ []
            → AllByRecursion (IsWhole scratch.new)
            (comes_to_row self.old.control.settings (packet_between from self.old.control.id packet.now payload.now) a OfServerRole w).told }
        ensures steady { Steady 4 3 1 self.old out.old self.new out.new }
    {
        let id = packet.call(self.control.id());
        let now = self.control.last();
        // For the proof: the pool's pages are those that are free and those that are leased.
        let _free = self.pool.free();
        let did = self.clients.receive(
            from,
            packet,
            payload,
            now,
            self.order,
            &mut self.pool,
            scratch,
        );
        let head = head_of(&packet.body);
        let touched = touched_version(&self.clients, &did, head);
        follow_client(&mut self.books, &self.clients, client_change(&did));
        self.order += client_orders(&did);
        settle(&mut self.control, id, from, did, head, touched, out);
    }
}

// What comes of a packet at its client is settled, beside its row. Of most packets nothing comes there.
fn settle(
    control: &mut Control,
    id: CallId,
    from: HostId,
    did: ClientDid,
    head: Option<PieceHead>,
    touched: Option<u16>,
    out: &mut Outbox,
)
    requires server { from.0 < control.old.settings.hosts }
    requires call { 1 ≤ id.inc }
    requires len { length_in head ≤ LONGEST_MESSAGE }
    requires opened { control.old.tuning.opened + 1 < 2 ^ 64 }
    requires room { length control.old.marks + 4 ≤ 128 }
    requires frames { length out.old + 3 ≤ 64 }
    ensures step { (m : Moment) (p : PlainPacket) (row : Option ClientRow) (told : List ℕ) (w : Work)
        → head ≡ head_in p.body
        → IfTouched did (λ _. touched ≡ version_at (piece_in p.body p.payload) row) → IsAt w control.old out.old
        → IsAt (asked control.old.settings id from (answer_of m p row told did) w) control.new out.new }
    ensures same { control.new ≡ record control.old {
      tuning = control.new.tuning;
      finished = control.new.finished;
      marks = control.new.marks;
    } }
    ensures no_fewer { control.old.tuning.opened ≤ control.new.tuning.opened }
    ensures opened { control.new.tuning.opened ≤ control.old.tuning.opened + client_orders did }
    ensures marks { length control.new.marks ≤ length control.old.marks + 4 }
    ensures frames { length out.new ≤ length out.old + 3 }
    ensures sound { IsSound control.new }
{
    // For the proof: the control is sound.
    let _sound = control.settings();
    match did {
        ClientDid::Nothing => {}
        ClientDid::Touched(_) if touched.is_none() => {}
        did => {
            let outcome = client_outcome(did, head, touched);
            control.settle_client(id, from, outcome, out);
        }
    }
}

// The version in a first piece of the message that the row has.
fn touched_version(clients: &ClientTable, did: &ClientDid, head: Option<PieceHead>) -> Option<u16>
    requires stands { IfTouched did.now (λ place. IsSome (spot_at clients.now.rows place)) }
    ensures { (p : PlainPacket) (pool : Pool) (id : CallId) (r : HeldRow) → head ≡ head_in p.body
        → IfTouched did.now (λ place. StandsAt clients.now.rows id place r
        → result ≡ version_at (piece_in p.body p.payload) (Some (seen_row pool r))) }
{
    let ClientDid::Touched(place) = did else {
        return None;
    };
    let head = head?;
    let part = clients.incoming(*place)?;
    if part.len() == head.length {
        head.version
    } else {
        None
    }
}
