// What packets a host sends, but for what decides when.
// Rules: DATA goes at its GRANT's or its CUTOFFS' level and other packets at 7; a request's DATA carries the ACK of a
// finished call.
ghost use Rattle.std.specs.Prelude.{◌≡◌, ◌+◌, ◌==◌, ◌<◌, ◌≤◌, ◌++◌, ◌∷◌, [], length, if◌then◌else◌};
ghost use Rattle.plain_sets.specs.Ranges.{range};
ghost use Rattle.homa_plain.specs.Wire.{FitsKind, latest};
ghost use Rattle.homa_plain.specs.Outgoing.{Outgoing};
ghost use Rattle.homa_plain.specs.Packets.{sender_of, receiver_of};
ghost use Rattle.homa_plain.specs.Rows.{ClientRow, ServerRow};
ghost use Rattle.homa_plain.specs.Host.{peer_cutoffs};
ghost use Rattle.homa_plain.specs.Sending.{level_at, response_content};
ghost use Rattle.homa_plain.specs.Work.{Work, posts};
ghost use Rattle.homa_plain.specs.SentNext.{request_leaves, response_leaves};
ghost use Rattle.host_view.specs.declared.mark.Mark.TheVariants.{Sent};
ghost use Rattle.host_view.specs.Frames.{frame_of, IsFormed};
ghost use Rattle.host_state.specs.Control.{IsAt, IsSound, sent_by};
ghost use Rattle.host_state.specs.Saying.{IsPieceOf};

use crate::control::Control;
use homa_cutoffs::Levels;
use homa_plain::{Body, CallId, Cutoffs, HostId, Packet, Role};
use host_view::{Mark, Outbox};

/// A piece of a message that goes out: the bytes from `from` to `to` - 1 of a message of `length` bytes, whose granted
/// bytes go at level `prio`. A request's piece is for `service`.
#[derive(Clone, Copy, Debug, PartialEq, Eq)]
pub struct Leaving {
    pub length: u32,
    pub from: u32,
    pub to: u32,
    pub prio: u8,
    pub service: u8,
}

// The sender of a packet, and its receiver.
fn ends(role: Role, id: CallId, server: HostId) -> (HostId, HostId)
    ensures from { result.0 ≡ sender_of role id server }
    ensures to { result.1 ≡ receiver_of role id server }
{
    match role {
        Role::Client => (id.client, server),
        Role::Server => (server, id.client),
    }
}

impl Control {
    // The clock as a packet carries it: 0 in version 1.
    fn stamp(&self) -> u64
        ensures stamp { result ≡ (if self.now.settings.wire == 1 then 0 else self.now.last) }
        ensures latest { result ≤ latest self.now.settings.wire }
    {
        if self.settings.wire == 1 {
            0
        } else {
            self.last
        }
    }

    // Sends a packet of a call.
    fn send(
        &mut self,
        role: Role,
        id: CallId,
        server: HostId,
        level: u8,
        body: Body,
        payload: &[u8],
        out: &mut Outbox,
    )
        requires call { 1 ≤ id.inc }
        requires fits { FitsKind role level body payload.now }
        requires room { length self.old.marks < 128 }
        requires frames { length out.old < 64 }
        ensures formed { IsFormed self.old.settings (sent_by self.old role id server (record { level = level; body = body; payload = payload.now })) }
        ensures marks { self.new ≡ record self.old { marks = self.old.marks ++ Sent (length out.old) ∷ [] } }
        ensures frames { out.new ≡ out.old
            ++ frame_of self.old.settings (sent_by self.old role id server (record { level = level; body = body; payload = payload.now })) ∷ [] }
    {
        let packet = Packet {
            role,
            level,
            sender: self.inc,
            inc: id.inc,
            seq: id.seq,
            at: self.stamp(),
            body,
        };
        let (from, to) = ends(role, id, server);
        self.marks.push(Mark::Sent {
            number: out.len() as u32,
        });
        out.push(from, to, &packet, self.settings.wire, payload);
    }

    /// Sends a packet of a call without a payload, at level 7.
    pub fn post(&mut self, role: Role, id: CallId, server: HostId, body: Body, out: &mut Outbox)
        requires call { 1 ≤ id.inc }
        requires fits { FitsKind role 7 body [] }
        requires room { length self.old.marks < 128 }
        requires frames { length out.old < 64 }
        ensures step { (w : Work) → IsAt w self.old out.old
            → IsAt (posts self.old.settings role id server body w) self.new out.new }
        ensures marks { self.new ≡ record self.old { marks = self.old.marks ++ Sent (length out.old) ∷ [] } }
        ensures frames { length out.new ≡ length out.old + 1 }
    {
        self.send(role, id, server, 7, body, &[], out);
    }

    // The level of a piece: by the cutoffs of its receiver if it needs no grant, otherwise the one that it gave.
    fn level(&self, cutoffs: &Cutoffs, piece: Leaving) -> u8
        requires { piece.prio ≤ 7 }
        ensures level { (out : Outgoing) → out.length ≡ piece.length → out.prio ≡ piece.prio
            → result ≡ level_at self.now.settings cutoffs.now out piece.from }
        ensures most { result ≤ 7 }
    {
        if piece.from < self.settings.unsched {
            cutoffs.level(self.settings.overcommit, piece.length)
        } else {
            piece.prio
        }
    }

    /// Sends a piece of a request. It carries the oldest finished call of its server, which leaves the list.
    pub fn send_request(
        &mut self,
        id: CallId,
        server: HostId,
        piece: Leaving,
        request: &[u8],
        out: &mut Outbox,
    )
        requires server { server.0 < self.old.settings.hosts }
        requires call { 1 ≤ id.inc }
        requires piece { IsPieceOf piece.length piece.from piece.to piece.prio (length request.now) }
        requires room { length self.old.marks < 128 }
        requires frames { length out.old < 64 }
        ensures step { (w : Work) (r : ClientRow) → IsAt w self.old out.old → r.server ≡ server → r.request ≡ request.now
            → r.out.length ≡ piece.length → r.out.prio ≡ piece.prio → r.service ≡ piece.service
            → IsAt (request_leaves self.old.settings id r (range piece.from piece.to) w) self.new out.new }
        ensures same { self.new ≡ record self.old { finished = self.new.finished; marks = self.new.marks } }
        ensures marks { length self.new.marks ≡ length self.old.marks + 1 }
        ensures frames { length out.new ≡ length out.old + 1 }
        ensures sound { IsSound self.new }
    {
        let cutoffs = self.peers[server.0 as usize].cutoffs;
        let level = self.level(&cutoffs, piece);
        let ack = self.acks.ride(server);
        let body = Body::Data {
            length: piece.length,
            offset: piece.from,
            version: cutoffs.version,
            service: piece.service,
            ack,
        };
        let payload = &request[piece.from as usize..piece.to as usize];
        self.send(Role::Client, id, server, level, body, payload, out);
    }

    /// Sends a piece of a response.
    pub fn send_response(&mut self, id: CallId, piece: Leaving, response: &[u8], out: &mut Outbox)
        requires client { id.client.0 < self.old.settings.hosts }
        requires call { 1 ≤ id.inc }
        requires piece { IsPieceOf piece.length piece.from piece.to piece.prio (length response.now) }
        requires room { length self.old.marks < 128 }
        requires frames { length out.old < 64 }
        ensures step { (w : Work) (row : ServerRow) (part : Outgoing) → IsAt w self.old out.old
            → part.length ≡ piece.length → part.prio ≡ piece.prio → let r = range piece.from piece.to in
            IsAt (response_leaves self.old.settings id row
            (response_content self.old.settings (peer_cutoffs self.old.settings w.host id.client).cutoffs response.now part r) r w)
            self.new out.new }
        ensures same { self.new ≡ record self.old { marks = self.new.marks } }
        ensures marks { length self.new.marks ≡ length self.old.marks + 1 }
        ensures frames { length out.new ≡ length out.old + 1 }
        ensures sound { IsSound self.new }
    {
        let cutoffs = self.peers[id.client.0 as usize].cutoffs;
        let level = self.level(&cutoffs, piece);
        let body = Body::Data {
            length: piece.length,
            offset: piece.from,
            version: cutoffs.version,
            service: 0,
            ack: None,
        };
        let payload = &response[piece.from as usize..piece.to as usize];
        let server = self.id();
        self.send(Role::Server, id, server, level, body, payload, out);
    }
}
