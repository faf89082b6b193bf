// What the first piece of a request opens.
// Rules: the first DATA of a request opens a row if its pages are free, and runs the service if it is whole.
ghost use Rattle.std.specs.Prelude.{◌≡◌, ℕ, ◌+◌, ◌<◌, ◌≤◌, ◌^◌, length, None, Some, IfOk, OnErr};
ghost use Rattle.homa_plain.specs.declared.id.CallId.{CallId};
ghost use Rattle.homa_plain.specs.declared.id.HostId.{HostId};
ghost use Rattle.homa_plain.specs.Settings.{IsValid};
ghost use Rattle.homa_plain.specs.Rules.{Moment as PlainMoment, Answer};
ghost use Rattle.homa_plain.specs.AtServer.{piece_of, opens};
ghost use Rattle.msg_pool.specs.Pool.{free_pages};
ghost use Rattle.homa_in.specs.Pooled.{Moves};
ghost use Rattle.homa_in.specs.Pieces.{moment_with};
ghost use Rattle.homa_server.specs.Answers.{IsAnswered, slot_in, IsAsked};
ghost use Rattle.homa_server.specs.Lending.{IsSame, IsServed, IsRefused};
ghost use Rattle.homa_server.specs.Firsts.{first_did, first_row, first_part, first_response};

use crate::lent::Lent;
use crate::row::Row;
use homa_in::{Moment, Opening, Piece, open_part};
use homa_plain::{HostId, LAST_HOST_TICK, LONGEST_MESSAGE, Settings};
use homa_service::Service;
use std::alloc::{AllocError, Global};

/// What became of the first piece of a request.
#[derive(Drop)]
pub enum FirstPiece {
    /// There are too few free pages.
    FullPages { need: u32, free: u32 },
    /// The row of a request that arrives.
    Begun(Row),
    /// The piece is the whole request, and the service ran; `hold` tells for how many ticks the response is held back.
    Ran { row: Row, hold: u32 },
}

/// The first piece of a client's request comes, and there is room for a row. The service is called where the piece is
/// the whole request, which then stands in `scratch`; where it finds no memory, nothing but `scratch` changes.
pub fn open_row<V: Service>(
    alloc: Global,
    at: Moment,
    client: HostId,
    piece: Piece<'_>,
    settings: &Settings,
    lent: &mut Lent<'_, V>,
) -> Result<FirstPiece, AllocError>
    requires valid { IsValid settings.now }
    requires some { 0 < length piece.bytes.now }
    requires fits { piece.offset + length piece.bytes.now ≤ piece.size }
    requires small { piece.size ≤ LONGEST_MESSAGE }
    requires now { at.now ≤ LAST_HOST_TICK }
    requires order { at.order < 2 ^ 63 }
    requires served { V.served lent.old.service.now < 2 ^ 63 }
    ensures did { IfOk result (λ first. (id : CallId) (host : HostId) (rows version slot : ℕ)
        → id.client ≡ client → rows < settings.now.served
        → let m = moment_with host at.now at.order (free_pages lent.old.pool.now) rows in
        let p = piece_of piece.entry.size piece.entry.offset version piece.entry.service piece.entry.bytes.now in
        IsAnswered settings.now m id (Some p) (λ a. opens settings.now m id p a)
        (first_row lent.new.pool.now first) (first_response first) lent.new.scratch.now (first_did slot first)) }
    ensures idle { IfOk result (λ first. slot_in (first_did 0 first) ≡ None → lent.new.pool.now ≡ lent.old.pool.now) }
    ensures moves { IfOk result (λ first. Moves lent.old.pool.now None lent.new.pool.now (first_part first)) }
    ensures served { IfOk result (λ first.
        IsServed V.served V.allows lent.old lent.new piece.entry.service (first_response first) (first_did 0 first)) }
    ensures asks { OnErr result ((id : CallId) (m : PlainMoment) (version : ℕ) (a : Answer)
        → m.rows < settings.now.served → m.free ≡ free_pages lent.old.pool.now
        → let p = piece_of piece.entry.size piece.entry.offset version piece.entry.service piece.entry.bytes.now in
        IsAsked id piece.entry.service lent.new.scratch.now (opens settings.now m id p a)) }
    ensures refused { OnErr result (IsRefused V.served lent.old lent.new) }
    ensures lent { IsSame V.allows lent.old lent.new }
{
    let mut part = None;
    match open_part(
        &mut part,
        client,
        piece,
        at.order,
        settings.unsched,
        lent.pool,
        lent.scratch,
    ) {
        Opening::Full { need, free } => Ok(FirstPiece::FullPages { need, free }),
        Opening::Begun => {
            let Some(part) = part else { unreachable!() };
            let row = Row::receiving(at.order, piece.service, part, at.now);
            Ok(FirstPiece::Begun(row))
        }
        Opening::Whole => {
            let request = lent.scratch.bytes();
            let reply = lent.service.serve(alloc, piece.service, request)?;
            let hold = reply.hold();
            let row = Row::replied(at.order, reply, at.now, at.order + 1, settings.unsched);
            Ok(FirstPiece::Ran { row, hold })
        }
    }
}
