//! What a packet of its server does to a row.
//! Rules: what DATA, GRANT, RESEND, BUSY, UNKNOWN, NEED_ACK and CUTOFFS do to a call at its client, and which renew it.
ghost use Rattle.std.specs.Prelude.{◌≡◌, ℕ, ◌+◌, ◌<◌, ◌≤◌, length, Some, None, IsSome, IfSome};
ghost use Rattle.homa_plain.specs.Outgoing.{grant};
ghost use Rattle.homa_plain.specs.AtClient.{renewed, refreshed, started_over, answered, piece_comes, response_piece};
ghost use Rattle.homa_plain.specs.AtServer.{piece_of};
ghost use Rattle.homa_plain.specs.declared.id.CallId.{CallId};
ghost use Rattle.homa_plain.specs.declared.id.HostId.{HostId};
ghost use Rattle.homa_plain.specs.declared.settings.Settings.{Settings};
ghost use Rattle.homa_plain.specs.Rules.{Moment as PlainMoment, keeps};
ghost use Rattle.msg_pool.specs.Pool.{Pool};
ghost use Rattle.homa_in.specs.Pooled.{seen_part, IsInPool, Moves};
ghost use Rattle.homa_in.specs.Pieces.{piece_in, IsFit};
ghost use Rattle.homa_client.specs.Held.{seen_row};
ghost use Rattle.homa_client.specs.Gives.{Gave, moment_of};
ghost use Rattle.homa_client.specs.Lending.{IsSame};

use crate::answers::RowDid;
use crate::lent::Lent;
use crate::row::Row;
use homa_in::{Moment, Opening, Piece, Put, close_part, open_part, put_piece};
use homa_plain::{Body, CallId, LAST_HOST_TICK, LONGEST_MESSAGE};
use msg_pool::MsgPool;

impl Row {
    /// A packet of the row's server comes, of no earlier life of it than was seen. Where the response becomes whole,
    /// the scratch becomes its bytes.
    pub(crate) fn gets(
        &mut self,
        at: Moment,
        id: CallId,
        inc: u32,
        body: &Body,
        payload: &[u8],
        unsched: u32,
        lent: &mut Lent<'_>,
    ) -> RowDid
        requires pool { IsInPool lent.old.pool.now self.old.part }
        requires fits { IsFit body.now payload.now }
        requires now { at.now ≤ LAST_HOST_TICK }
        ensures gave { (s : Settings) (host : HostId) (rows : ℕ) → s.unsched ≡ unsched
            → let r = seen_row lent.old.pool.now self.old in
            let m = moment_of host at.now at.order lent.old.pool.now self.old.part rows in
            Gave m id (piece_in body.now payload.now) (answered s m id body.now payload.now (refreshed at.now body.now (renewed inc r)))
            lent.old.pool.now self.old lent.new.pool.now self.new lent.new.scratch.now result }
        ensures lent { IsSame lent.old lent.new }
    {
        self.renew(inc, lent.pool);
        self.refresh(at.now, body);
        self.answer(id, body, payload, at.order, unsched, lent)
    }

    // A later life of the server sends: what an earlier one sent of the response is dropped.
    fn renew(&mut self, inc: u32, pool: &mut MsgPool)
        requires { IsInPool pool.old self.old.part }
        ensures row { seen_row pool.new self.new ≡ renewed inc (seen_row pool.old self.old) }
        ensures moves { Moves pool.old self.old.part pool.new self.new.part }
    {
        if self.seen < inc {
            self.seen = inc;
            self.drop_part(pool);
        }
    }

    // The server is heard of, but through UNKNOWN; NEED_ACK and CUTOFFS leave the timer's base.
    fn refresh(&mut self, now: u64, body: &Body)
        requires { now ≤ LAST_HOST_TICK }
        ensures row { (pool : Pool) → seen_row pool self.new ≡ refreshed now body.now (seen_row pool self.old) }
        ensures part { self.new.part ≡ self.old.part }
    {
        match body {
            Body::Unknown { .. } => {}
            Body::NeedAck | Body::Cutoffs(_) => {
                self.heard = now;
                self.count = 0;
            }
            _ => {
                self.heard = now;
                self.base = now;
                self.count = 0;
            }
        }
    }

    // A packet of the server's latest life, of which was heard.
    fn answer(
        &mut self,
        id: CallId,
        body: &Body,
        payload: &[u8],
        order: u64,
        unsched: u32,
        lent: &mut Lent<'_>,
    ) -> RowDid
        requires pool { IsInPool lent.old.pool.now self.old.part }
        requires fits { IsFit body.now payload.now }
        ensures gave { (s : Settings) (host : HostId) (now rows : ℕ) → s.unsched ≡ unsched
            → let r = seen_row lent.old.pool.now self.old in
            let m = moment_of host now order lent.old.pool.now self.old.part rows in
            Gave m id (piece_in body.now payload.now) (answered s m id body.now payload.now r)
            lent.old.pool.now self.old lent.new.pool.now self.new lent.new.scratch.now result }
        ensures lent { IsSame lent.old lent.new }
    {
        match body {
            Body::Data {
                length,
                offset,
                service,
                ..
            } => {
                let piece = Piece {
                    size: *length,
                    offset: *offset,
                    service: *service,
                    bytes: payload,
                };
                if self.part.is_some() {
                    self.put(id, piece, lent)
                } else {
                    self.open_with(piece, order, unsched, lent)
                }
            }
            Body::Grant { offset, prio } => {
                self.grant(*offset, *prio);
                RowDid::Touched
            }
            Body::Resend { from, to, prio } => self.resend(*from, *to, *prio),
            Body::Busy | Body::Cutoffs(_) | Body::Ack { .. } => RowDid::Touched,
            Body::Unknown { reason } => {
                if *reason == 0 {
                    self.start_over();
                    RowDid::Touched
                } else {
                    self.drop_part(lent.pool);
                    RowDid::Forgotten
                }
            }
            Body::NeedAck => RowDid::Busy,
        }
    }

    // A piece of the response, of which a part has arrived.
    fn put(&mut self, id: CallId, piece: Piece<'_>, lent: &mut Lent<'_>) -> RowDid
        requires part { IsSome self.old.part }
        requires pool { IsInPool lent.old.pool.now self.old.part }
        requires some { 0 < length piece.bytes.now }
        requires fits { piece.offset + length piece.bytes.now ≤ piece.size }
        ensures gave { (m : PlainMoment) (version : ℕ)
            → let r = seen_row lent.old.pool.now self.old in
            let p = piece_of piece.entry.size piece.entry.offset version piece.entry.service piece.entry.bytes.now in
            IfSome r.part (λ part. Gave m id (Some p) (piece_comes id r part p (keeps m r))
            lent.old.pool.now self.old lent.new.pool.now self.new lent.new.scratch.now result) }
        ensures lent { IsSame lent.old lent.new }
    {
        let Some(part) = &mut self.part else {
            unreachable!()
        };
        if part.len() != piece.size {
            return RowDid::Touched;
        }
        match put_piece(part, piece.offset, piece.bytes, lent.pool, lent.scratch) {
            Put::TooMany => RowDid::Gaps,
            Put::Taken => RowDid::Touched,
            Put::Last => {
                self.drop_part(lent.pool);
                RowDid::Done { opened: false }
            }
        }
    }

    // The first piece of the response.
    fn open_with(
        &mut self,
        piece: Piece<'_>,
        order: u64,
        unsched: u32,
        lent: &mut Lent<'_>,
    ) -> RowDid
        requires none { self.old.part ≡ None }
        requires some { 0 < length piece.bytes.now }
        requires fits { piece.offset + length piece.bytes.now ≤ piece.size }
        requires small { piece.size ≤ LONGEST_MESSAGE }
        ensures gave { (s : Settings) (id : CallId) (host : HostId) (now rows version : ℕ) → s.unsched ≡ unsched
            → let r = seen_row lent.old.pool.now self.old in
            let m = moment_of host now order lent.old.pool.now self.old.part rows in
            let p = piece_of piece.entry.size piece.entry.offset version piece.entry.service piece.entry.bytes.now in
            Gave m id (Some p) (response_piece s m id r None p)
            lent.old.pool.now self.old lent.new.pool.now self.new lent.new.scratch.now result }
        ensures lent { IsSame lent.old lent.new }
    {
        match open_part(
            &mut self.part,
            self.server,
            piece,
            order,
            unsched,
            lent.pool,
            lent.scratch,
        ) {
            Opening::Full { need, free } => RowDid::Full { need, free },
            Opening::Whole => RowDid::Done { opened: true },
            Opening::Begun => RowDid::Opened,
        }
    }

    // A GRANT of the request.
    fn grant(&mut self, offset: u32, prio: u8)
        requires { prio ≤ 7 }
        ensures { self.new ≡ record self.old { out = grant self.old.out offset prio } }
    {
        self.out.grant(offset, prio);
    }

    // The server has no record of the call: where nothing of the response has come, the request starts over.
    fn start_over(&mut self)
        ensures row { (pool : Pool) → seen_row pool self.new ≡ started_over (seen_row pool self.old) (seen_part pool self.old.part) }
        ensures part { self.new.part ≡ self.old.part }
    {
        if self.part.is_none() {
            self.out.restart();
        }
    }

    /// The response's part goes, if there is one: its pages are free again.
    pub(crate) fn drop_part(&mut self, pool: &mut MsgPool)
        requires { IsInPool pool.old self.old.part }
        ensures row { self.new ≡ record self.old { part = None } }
        ensures moves { Moves pool.old self.old.part pool.new None }
    {
        if let Some(part) = self.part.take() {
            close_part(part, pool);
        }
    }
}
