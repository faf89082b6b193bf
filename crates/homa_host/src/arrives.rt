// What a datagram does that comes to a host.
// Rules: a stale packet (version 2) does nothing, CUTOFFS are heard, an ACK makes tombstones, and each other packet
// goes to its call.
ghost use Rattle.std.specs.Prelude.{◌≡◌, ℕ, [], ◌+◌, ◌<◌, ◌≤◌, ◌^◌, List, length, IfErr, OnOk, OnErr};
ghost use Rattle.std.specs.List.{AllByRecursion};
ghost use Rattle.homa_plain.specs.declared.id.CallId.{CallId};
ghost use Rattle.homa_plain.specs.declared.packet.Role.TheVariants.{Client as OfClient};
ghost use Rattle.homa_plain.specs.Wire.{IsWellFormed, IsCall};
ghost use Rattle.homa_plain.specs.Packets.{acks, calls_of, packet_between};
ghost use Rattle.homa_plain.specs.Rules.{Answer};
ghost use Rattle.homa_plain.specs.Work.{Work, begun};
ghost use Rattle.homa_plain.specs.Steps.{comes, acked};
ghost use Rattle.host_view.specs.declared.outbox.SentFrame.{SentFrame};
ghost use Rattle.host_view.specs.Marks.{response_of, IsReply, IsWhole};
ghost use Rattle.host_view.specs.Done.{arriving};
ghost use Rattle.homa_host.specs.Parts.{host_of, seen_of, IsKept};
ghost use Rattle.homa_host.specs.Asking.{HasAsked};
ghost use Rattle.homa_host.specs.Amid.{Amid, Steady, HasCome};
ghost use Rattle.homa_host.specs.Lending.{CanCome, IsSame, IsServed, IsRefused};

use crate::Asked;
use crate::at_server::service_of;
use crate::lent::Lent;
use crate::parts::HostParts;
use homa_plain::{Body, CallId, HostId, Packet, Role};
use homa_service::Service;
use homa_wire::decode;
use host_view::Mark;
use std::alloc::Global;

impl HostParts {
    // A packet comes, which may be too old.
    #[tactic(none)]
    pub(crate) fn comes<V: Service>(
        &mut self,
        alloc: Global,
        from: HostId,
        packet: &Packet,
        payload: &[u8],
        now: u64,
        lent: &mut Lent<'_, V>,
    ) -> Result<(), Asked>
        requires kept { IsKept self.old }
        requires begins { CanCome V.served (seen_of self.old) from now lent.old }
        requires formed { IsWellFormed self.old.control.settings.wire packet.now payload.now }
        ensures step { OnOk result ((a : Answer) → AllByRecursion (IsReply (host_of self.new) a) self.new.control.marks
            → let p = packet_between from self.old.control.id packet.now payload.now in
            let w = comes self.old.control.settings (Some p) a (begun (host_of self.old) now) in
            Amid w self.new lent.new.out.now × AllByRecursion (IsWhole lent.new.scratch.now) w.told) }
        ensures steady { OnOk result (HasCome now 10 4 2 self.old self.new lent.new.out.now) }
        ensures kept { IsKept self.new }
        ensures served { OnOk result (IsServed V.served V.allows lent.old lent.new (host_of self.new) self.new.control.marks) }
        ensures asks { IfErr result (λ e. (a : Answer) → let p = packet_between from self.old.control.id packet.now payload.now in
            HasAsked e.id e.number lent.new.scratch.now (comes self.old.control.settings (Some p) a (begun (host_of self.old) now)).told) }
        ensures same { OnErr result (self.new ≡ self.old) }
        ensures refused { OnErr result (IsRefused V.served lent.old lent.new) }
        ensures lent { IsSame V.allows lent.old lent.new }
    {
        if self.control.settings().is_stale(packet.at, now) {
            self.control.begin(now);
            self.control.tell(Mark::Stale { at: packet.at });
            return Ok(());
        }
        match packet.role {
            Role::Server => {
                self.control.begin(now);
                self.control.hear(from, packet.sender, &packet.body);
                // For the proof: the host is sound, and so are the cutoffs that it heard.
                let _sound = self.control.settings();
                self.client_gets(from, packet, payload, lent.out, lent.scratch);
                Ok(())
            }
            Role::Client => {
                match self.server_gets(alloc, from, packet, payload, now, lent) {
                    Ok(()) => {
                        self.acknowledged(from, packet);
                        Ok(())
                    }
                    Err(_) => {
                        let id = packet.call(from);
                        let number = service_of(&packet.body);
                        Err(Asked { id, number })
                    }
                }
            }
        }
    }

    // A datagram comes, which may be no packet.
    #[tactic(none)]
    pub(crate) fn arrives<V: Service>(
        &mut self,
        alloc: Global,
        from: HostId,
        frame: &[u8],
        now: u64,
        lent: &mut Lent<'_, V>,
    ) -> Result<(), Asked>
        requires kept { IsKept self.old }
        requires begins { CanCome V.served (seen_of self.old) from now lent.old }
        ensures step { OnOk result ((a : Answer) → AllByRecursion (IsReply (host_of self.new) a) self.new.control.marks
            → let w = comes self.old.control.settings (arriving (seen_of self.old) from frame.now) a (begun (host_of self.old) now) in
            Amid w self.new lent.new.out.now × AllByRecursion (IsWhole lent.new.scratch.now) w.told) }
        ensures steady { OnOk result (HasCome now 10 4 2 self.old self.new lent.new.out.now) }
        ensures kept { IsKept self.new }
        ensures served { OnOk result (IsServed V.served V.allows lent.old lent.new (host_of self.new) self.new.control.marks) }
        ensures asks { IfErr result (λ e. (a : Answer) → HasAsked e.id e.number lent.new.scratch.now
            (comes self.old.control.settings (arriving (seen_of self.old) from frame.now) a (begun (host_of self.old) now)).told) }
        ensures same { OnErr result (self.new ≡ self.old) }
        ensures refused { OnErr result (IsRefused V.served lent.old lent.new) }
        ensures lent { IsSame V.allows lent.old lent.new }
    {
        match decode(frame, self.control.settings().wire) {
            None => {
                self.control.begin(now);
                self.control.tell(Mark::Junk);
                Ok(())
            }
            Some((packet, span)) => {
                let payload = &frame[span.from..span.to];
                self.comes(alloc, from, &packet, payload, now, lent)
            }
        }
    }

    // The calls that a packet of a client acknowledges are over, but for the packet's own.
    fn acknowledged(&mut self, from: HostId, packet: &Packet)
        requires kept { IsKept self.old }
        requires from { from.0 < self.old.control.settings.hosts }
        requires formed { (payload : List ℕ) × IsWellFormed self.old.control.settings.wire packet.now payload }
        requires role { packet.now.role ≡ OfClient }
        requires order { self.old.order < 2 ^ 63 + 2 ^ 31 }
        requires room { length self.old.control.marks + 5 ≤ 128 }
        ensures kept { IsKept self.new }
        ensures step { (payload : List ℕ) (w : Work) (frames : List SentFrame) → Amid w self.old frames
            → let p = packet_between from self.old.control.id packet.now payload in
            Amid (acked self.old.control.settings (acks p) w) self.new frames }
        ensures others { (payload : List ℕ) (q : CallId) → AllByRecursion (λ id. q ≡ id → ⊥) (acks (packet_between from self.old.control.id packet.now payload))
            → response_of (host_of self.new) q ≡ response_of (host_of self.old) q }
        ensures steady { Steady 5 0 0 self.old [] self.new [] }
    {
        let id = packet.call(from);
        match &packet.body {
            Body::Data {
                ack: Some((inc, seq)),
                ..
            } => {
                let ridden = CallId {
                    client: from,
                    inc: *inc,
                    seq: *seq,
                };
                if ridden != id {
                    self.server_acked(ridden);
                }
            }
            Body::Ack { more } => {
                self.server_acked(id);
                self.all_acked(from, more.calls());
            }
            _ => {}
        }
    }

    // Calls of a client are over, one by one.
    fn all_acked(&mut self, client: HostId, calls: &[(u32, u32)])
        requires kept { IsKept self.old }
        requires client { client.0 < self.old.control.settings.hosts }
        requires calls { AllByRecursion IsCall calls.now }
        requires few { length calls.now ≤ 4 }
        requires order { self.old.order < 2 ^ 63 + 2 ^ 31 }
        requires room { length self.old.control.marks + length calls.now ≤ 128 }
        ensures kept { IsKept self.new }
        ensures step { (w : Work) (frames : List SentFrame) → Amid w self.old frames
            → Amid (acked self.old.control.settings (calls_of client calls.now) w) self.new frames }
        ensures others { (q : CallId) → AllByRecursion (λ id. q ≡ id → ⊥) (calls_of client calls.now)
            → response_of (host_of self.new) q ≡ response_of (host_of self.old) q }
        ensures steady { Steady (length calls.now) 0 0 self.old [] self.new [] }
    {
        for (inc, seq) in calls {
            let id = CallId {
                client,
                inc: *inc,
                seq: *seq,
            };
            self.server_acked(id);
        }
    }
}
