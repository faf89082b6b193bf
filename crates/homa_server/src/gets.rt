// What a packet does to a row, by the row's state.
// Rules: DATA of a request, GRANT and RESEND of a response. BUSY is in `busy`, UNKNOWN in `unknown`, an ACK in `tombstones`.
ghost use Rattle.std.specs.Prelude.{◌≡◌, ℕ, List, ◌+◌, ◌==◌, ◌&&◌, ◌||◌, not, ◌<◌, ◌≤◌, length, true, false, Some, None};
ghost use Rattle.std.specs.Prelude.{IfOk, OnErr, if◌then◌else◌};
ghost use Rattle.homa_plain.specs.declared.id.CallId.{CallId};
ghost use Rattle.homa_plain.specs.declared.id.HostId.{HostId};
ghost use Rattle.homa_plain.specs.Settings.{IsValid};
ghost use Rattle.homa_plain.specs.declared.settings.Settings.{Settings};
ghost use Rattle.homa_plain.specs.declared.packet.Body.{Body};
ghost use Rattle.homa_plain.specs.Outgoing as outgoing;
ghost use Rattle.homa_plain.specs.Rules.{Moment as PlainMoment, Answer, leaves};
ghost use Rattle.homa_plain.specs.AtServer.{piece_of, piece_comes, receiving_gets, held_gets, replying_gets, row_gets};
ghost use Rattle.homa_plain.specs.Unknown.{buried_gets};
ghost use Rattle.msg_pool.specs.Pool.{Pool};
ghost use Rattle.homa_in.specs.Part.{seen};
ghost use Rattle.homa_in.specs.Pooled.{Moves, IsInPool};
ghost use Rattle.homa_server.specs.Held.{Arriving, Keeping, Answering, IfArriving, IfAnswering, is_arriving};
ghost use Rattle.homa_server.specs.Held.{is_answering, state_part, response_in, seen_state, seen_server};
ghost use Rattle.homa_in.specs.Pieces.{piece_in, IsFit, moment_with};
ghost use Rattle.homa_server.specs.Answers.{IsAnswered, has_run, IsSlotOf, slot_in, slot_if, is_for};
ghost use Rattle.homa_server.specs.Answers.{is_ack, service_in, IsAsked};
ghost use Rattle.homa_server.specs.Lending.{CanServe, IsLeft, IsSame, IsServed, IsRefused};
ghost use Rattle.homa_server.specs.Answers.{CanReply, IsAsking};

use crate::ServerDid;
use crate::busy::held_gets;
use crate::lent::Lent;
use crate::row::Row;
use crate::state::{State, answered};
use crate::unknown::buried_gets;
use homa_in::{Moment, Piece, Put, close_part, put_piece};
use homa_out::Resent;
use homa_plain::{Body, LAST_HOST_TICK, Settings};
use homa_service::{Reply, Service};
use msg_pool::MsgPool;
use std::alloc::{AllocError, Global};
use std::mem;

impl Row {
    // The service has answered: the request's pages go.
    fn answer(&mut self, reply: Reply, now: u64, order: u64, unsched: u32, pool: &mut MsgPool)
        requires fits { CanReply reply.bytes reply.hold }
        requires unsched { 1 ≤ unsched }
        requires now { now ≤ LAST_HOST_TICK }
        requires pool { IsInPool pool.old (state_part self.old.state) }
        ensures row { self.new ≡ record self.old {
          state = (if reply.hold == 0
              then Answering reply.bytes (outgoing.opened (length reply.bytes) unsched) order now 0
              else Keeping reply.bytes (now + reply.hold));
        } }
        ensures moves { Moves pool.old (state_part self.old.state) pool.new None }
    {
        let next = answered(reply, now, order, unsched);
        if let State::Receiving { part, .. } = mem::replace(&mut self.state, next) {
            close_part(part, pool);
        }
    }

    // A piece of the request comes; where it is the last one, the service runs.
    fn put<V: Service>(
        &mut self,
        alloc: Global,
        at: Moment,
        slot: u32,
        piece: Piece<'_>,
        settings: &Settings,
        lent: &mut Lent<'_, V>,
    ) -> Result<ServerDid, AllocError>
        requires valid { IsValid settings.now }
        requires some { 0 < length piece.bytes.now }
        requires fits { piece.offset + length piece.bytes.now ≤ piece.size }
        requires now { at.now ≤ LAST_HOST_TICK }
        requires lent { CanServe V.served lent.old (state_part self.old.state) }
        ensures did { IfOk result (λ did. IfArriving self.old.state (λ wanted part base count.
            (id : CallId) (host : HostId) (free rows version : ℕ)
            → let m = moment_with host at.now at.order free rows in
            let p = piece_of piece.entry.size piece.entry.offset version piece.entry.service piece.entry.bytes.now in
            IsAnswered settings.now m id (Some p)
            (λ a. piece_comes settings.now m id wanted (seen lent.old.pool.now part) (seen_server lent.old.pool.now self.old) p a (leaves m None))
            (Some (seen_server lent.new.pool.now self.new)) (response_in self.new.state) lent.new.scratch.now did)) }
        ensures left { IfOk result (λ did. IfArriving self.old.state (λ wanted part base count.
            IsLeft slot (part.length == piece.entry.size && wanted == piece.entry.service)
            self.old lent.old.pool.now self.new lent.new.pool.now did)) }
        ensures served { IfOk result (IsServed V.served V.allows lent.old lent.new piece.entry.service (response_in self.new.state)) }
        ensures asks { OnErr result (IfArriving self.old.state (λ wanted part base count.
            (id : CallId) (m : PlainMoment) (version : ℕ) (a : Answer)
            → let p = piece_of piece.entry.size piece.entry.offset version piece.entry.service piece.entry.bytes.now in
            IsAsked id piece.entry.service lent.new.scratch.now
            (piece_comes settings.now m id wanted (seen lent.old.pool.now part) (seen_server lent.old.pool.now self.old) p a (leaves m None)))) }
        ensures same { OnErr result (self.new ≡ self.old) }
        ensures refused { OnErr result (IsRefused V.served lent.old lent.new) }
        ensures lent { IsSame V.allows lent.old lent.new }
    {
        let State::Receiving {
            service: wanted,
            part,
            base,
            count,
        } = &mut self.state
        else {
            return Ok(ServerDid::Nothing);
        };
        if part.len() != piece.size || *wanted != piece.service {
            return Ok(ServerDid::Nothing);
        }
        match put_piece(part, piece.offset, piece.bytes, lent.pool, lent.scratch) {
            Put::TooMany => {
                *base = at.now;
                *count = 0;
                Ok(ServerDid::Gaps(slot))
            }
            Put::Taken => {
                *base = at.now;
                *count = 0;
                Ok(ServerDid::Touched(slot))
            }
            Put::Last => {
                let request = lent.scratch.bytes();
                let reply = lent.service.serve(alloc, piece.service, request)?;
                let hold = reply.hold();
                self.answer(reply, at.now, at.order, settings.unsched, lent.pool);
                Ok(ServerDid::Ran {
                    slot,
                    opened: false,
                    hold,
                })
            }
        }
    }

    // A packet of a request that arrives.
    fn receiving_gets<V: Service>(
        &mut self,
        alloc: Global,
        at: Moment,
        slot: u32,
        body: &Body,
        payload: &[u8],
        settings: &Settings,
        lent: &mut Lent<'_, V>,
    ) -> Result<ServerDid, AllocError>
        requires arriving { is_arriving self.old.state ≡ true }
        requires valid { IsValid settings.now }
        requires fits { IsFit body.now payload.now }
        requires now { at.now ≤ LAST_HOST_TICK }
        requires lent { CanServe V.served lent.old (state_part self.old.state) }
        ensures did { IfOk result (λ did. IfArriving self.old.state (λ wanted part base count. (id : CallId) (host : HostId) (free rows : ℕ)
            → let m = moment_with host at.now at.order free rows in
            IsAnswered settings.now m id (piece_in body.now payload.now)
            (λ a. receiving_gets settings.now m id body.now payload.now a (seen_server lent.old.pool.now self.old) wanted (seen lent.old.pool.now part) base)
            (Some (seen_server lent.new.pool.now self.new)) (response_in self.new.state) lent.new.scratch.now did)) }
        ensures left { IfOk result (IsLeft slot (is_for body.now self.old.state) self.old lent.old.pool.now self.new lent.new.pool.now) }
        ensures served { IfOk result (IsServed V.served V.allows lent.old lent.new (service_in (piece_in body.now payload.now)) (response_in self.new.state)) }
        ensures asks { OnErr result (IfArriving self.old.state (λ wanted part base count. (id : CallId) (m : PlainMoment) (a : Answer)
            → IsAsked id (service_in (piece_in body.now payload.now)) lent.new.scratch.now
            (receiving_gets settings.now m id body.now payload.now a (seen_server lent.old.pool.now self.old) wanted (seen lent.old.pool.now part) base))) }
        ensures same { OnErr result (self.new ≡ self.old) }
        ensures refused { OnErr result (IsRefused V.served lent.old lent.new) }
        ensures lent { IsSame V.allows lent.old lent.new }
    {
        match body {
            Body::Data {
                length,
                offset,
                service,
                ..
            } => {
                let piece = Piece {
                    size: *length,
                    offset: *offset,
                    service: *service,
                    bytes: payload,
                };
                self.put(alloc, at, slot, piece, settings, lent)
            }
            Body::Resend { .. } => Ok(self.receiving_resend(slot)),
            Body::Busy => {
                self.touch(at.now);
                Ok(ServerDid::Touched(slot))
            }
            _ => Ok(ServerDid::Nothing),
        }
    }

    // The request's timer begins anew.
    fn touch(&mut self, now: u64)
        requires arriving { is_arriving self.old.state ≡ true }
        requires now { now ≤ LAST_HOST_TICK }
        ensures { IfArriving self.old.state (λ wanted part base count. self.new ≡ record self.old { state = Arriving wanted part now 0 }) }
    {
        let State::Receiving { base, count, .. } = &mut self.state else {
            unreachable!()
        };
        *base = now;
        *count = 0;
    }

    // A packet of a call whose response goes out: its timer begins anew, but for an ACK's.
    fn replying_gets(&mut self, slot: u32, body: &Body, now: u64) -> ServerDid
        requires answering { is_answering self.old.state ≡ true }
        requires fits { IsAsking body.now }
        requires now { now ≤ LAST_HOST_TICK }
        ensures did { IfAnswering self.old.state
            (λ response out sent base count. (s : Settings) (id : CallId) (host : HostId) (order free rows : ℕ) (payload told : List ℕ) (pool : Pool)
            → let m = moment_with host now order free rows in
            IsAnswered s m id (piece_in body.now payload) (λ a. replying_gets m body.now (seen_server pool self.old) response out sent)
            (Some (seen_server pool self.new)) (response_in self.new.state) told result) }
        ensures slot { IsSlotOf (Some slot) result }
        ensures named { slot_in result ≡ slot_if (not (is_ack body.now)) slot }
        ensures idle { slot_in result ≡ None → self.new ≡ self.old }
        ensures part { state_part self.new.state ≡ None }
        ensures not_run { has_run result ≡ false }
    {
        let State::Replying {
            out,
            base,
            count,
            ..
        } = &mut self.state
        else {
            unreachable!()
        };
        if let Body::Ack { .. } = body {
            return ServerDid::Nothing;
        }
        *base = now;
        *count = 0;
        match body {
            Body::Grant { offset, prio } => {
                out.grant(*offset, *prio);
                ServerDid::Touched(slot)
            }
            Body::Resend { from, to, prio } => match out.resend(*from, *to, *prio) {
                Resent::Queued => ServerDid::Touched(slot),
                Resent::Busy => ServerDid::Busy(slot),
            },
            _ => ServerDid::Touched(slot),
        }
    }

    /// A packet of the row's call comes. `slot` is the row's, and `order` the number of whatever is opened next.
    /// The service is called where the packet makes the request whole, which then stands in `scratch`; where it finds no
    /// memory, nothing but `scratch` changes.
    pub fn gets<V: Service>(
        &mut self,
        alloc: Global,
        at: Moment,
        slot: u32,
        body: &Body,
        payload: &[u8],
        settings: &Settings,
        lent: &mut Lent<'_, V>,
    ) -> Result<ServerDid, AllocError>
        requires valid { IsValid settings.now }
        requires fits { IsFit body.now payload.now }
        requires now { at.now ≤ LAST_HOST_TICK }
        requires lent { CanServe V.served lent.old (state_part self.old.state) }
        ensures did { IfOk result (λ did. (id : CallId) (host : HostId) (free rows : ℕ)
            → let m = moment_with host at.now at.order free rows in
            IsAnswered settings.now m id (piece_in body.now payload.now)
            (λ a. row_gets settings.now m id body.now payload.now a (seen_server lent.old.pool.now self.old) (seen_state lent.old.pool.now self.old.state))
            (Some (seen_server lent.new.pool.now self.new)) (response_in self.new.state) lent.new.scratch.now did) }
        ensures left { IfOk result (IsLeft slot (is_for body.now self.old.state) self.old lent.old.pool.now self.new lent.new.pool.now) }
        ensures served { IfOk result (IsServed V.served V.allows lent.old lent.new (service_in (piece_in body.now payload.now)) (response_in self.new.state)) }
        ensures asks { OnErr result ((id : CallId) (m : PlainMoment) (a : Answer)
            → IsAsked id (service_in (piece_in body.now payload.now)) lent.new.scratch.now
            (row_gets settings.now m id body.now payload.now a (seen_server lent.old.pool.now self.old) (seen_state lent.old.pool.now self.old.state))) }
        ensures same { OnErr result (self.new ≡ self.old) }
        ensures refused { OnErr result (IsRefused V.served lent.old lent.new) }
        ensures lent { IsSame V.allows lent.old lent.new }
    {
        match &self.state {
            State::Receiving { .. } => {
                self.receiving_gets(alloc, at, slot, body, payload, settings, lent)
            }
            State::Held { .. } => Ok(held_gets(slot, body)),
            State::Replying { .. } => Ok(self.replying_gets(slot, body, at.now)),
            State::Buried { .. } => Ok(buried_gets(slot, body)),
        }
    }
}
