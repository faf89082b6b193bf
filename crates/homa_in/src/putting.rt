//! Pieces of messages, and the parts that they go into.
ghost use Rattle.std.specs.Prelude.{◌≡◌, ℕ, ◌+◌, ◌<◌, ◌≤◌, length, Some, None};
ghost use Rattle.plain_sets.specs.Maps.{len};
ghost use Rattle.homa_in.specs.Part.{IsIn};
ghost use Rattle.homa_in.specs.Pooled.{Moves};
ghost use Rattle.homa_in.specs.Putting.{WasPut, WasOpened};

use crate::{Accepted, Incoming, Piece};
use homa_plain::{HostId, LONGEST_MESSAGE};
use msg_pool::{MsgPool, PoolFull, Scratch};

/// What a piece did to a part.
#[derive(Clone, Copy, Debug, PartialEq, Eq)]
pub enum Put {
    /// More than 64 gaps would have been left, and nothing changed.
    TooMany,
    /// It has all bytes that were missing. The part is as before.
    Last,
    /// The part has its bytes, and others are still missing.
    Taken,
}

/// Puts a piece, which begins at byte `offset`, into a part of which bytes are missing. If it has all of these,
/// `scratch` becomes the message, and the part and the pool stay as they are.
pub fn put_piece(
    part: &mut Incoming,
    offset: u32,
    bytes: &[u8],
    pool: &mut MsgPool,
    scratch: &mut Scratch,
) -> Put
    requires some { 0 < length bytes.now }
    requires fits { offset + length bytes.now ≤ part.old.length }
    requires pool { IsIn pool.old part.old }
    requires short { 0 < len part.old.missing }
    ensures { WasPut pool.old part.old offset bytes.now pool.new part.new scratch.new result }
{
    if part.whole_with(offset, bytes, pool, scratch) {
        return Put::Last;
    }
    match part.accept(offset, bytes, pool) {
        Accepted::TooManyGaps => Put::TooMany,
        _ => Put::Taken,
    }
}

/// What the first piece of a message did.
#[derive(Clone, Copy, Debug, PartialEq, Eq)]
pub enum Opening {
    /// The message needs more pages than are free, and nothing changed.
    Full { need: u32, free: u32 },
    /// The piece is the whole message. The pool is as before.
    Whole,
    /// The piece has arrived, and bytes are still missing.
    Begun,
}

/// Opens a message by its first piece: its sender may send the first `unsched` bytes without a grant. If the piece is
/// all of it, `scratch` becomes the message. If bytes are still missing, `part` becomes what has arrived of it; else
/// `part` stays None.
pub fn open_part(
    part: &mut Option<Incoming>,
    peer: HostId,
    piece: Piece<'_>,
    order: u64,
    unsched: u32,
    pool: &mut MsgPool,
    scratch: &mut Scratch,
) -> Opening
    requires none { part.old ≡ None }
    requires some { 0 < length piece.bytes.now }
    requires fits { piece.offset + length piece.bytes.now ≤ piece.size }
    requires small { piece.size ≤ LONGEST_MESSAGE }
    ensures { WasOpened pool.old peer piece.entry.size order unsched piece.entry.offset piece.entry.bytes.now
        pool.new part.new scratch.new result }
{
    if piece.bytes.len() == piece.size as usize {
        return open_whole(piece.bytes, pool, scratch);
    }
    open_by_piece(part, peer, piece, order, unsched, pool, scratch)
}

// The message isn't opened, since too few pages are free.
fn no_pages(full: PoolFull) -> Opening
    ensures { result ≡ Opening.Full full.need full.free }
{
    Opening::Full {
        need: full.need,
        free: full.free,
    }
}

// Opens a message of which these are all the bytes. It takes no pages, but is opened only if they are free.
fn open_whole(bytes: &[u8], pool: &MsgPool, scratch: &mut Scratch) -> Opening
    requires some { 0 < length bytes.now }
    requires small { length bytes.now ≤ LONGEST_MESSAGE }
    ensures { (peer : HostId) (order unsched : ℕ)
        → WasOpened pool.now peer (length bytes.now) order unsched 0 bytes.now pool.now None scratch.new result }
{
    match pool.check_room(bytes.len() as u32) {
        Err(full) => no_pages(full),
        Ok(()) => {
            scratch.set(bytes);
            Opening::Whole
        }
    }
}

// Opens a message of which the first piece is a part.
fn open_by_piece(
    part: &mut Option<Incoming>,
    peer: HostId,
    piece: Piece<'_>,
    order: u64,
    unsched: u32,
    pool: &mut MsgPool,
    scratch: &mut Scratch,
) -> Opening
    requires none { part.old ≡ None }
    requires some { 0 < length piece.bytes.now }
    requires fits { piece.offset + length piece.bytes.now ≤ piece.size }
    requires small { piece.size ≤ LONGEST_MESSAGE }
    ensures { WasOpened pool.old peer piece.entry.size order unsched piece.entry.offset piece.entry.bytes.now
        pool.new part.new scratch.new result }
{
    let lease = match pool.take(piece.size) {
        Err(full) => return no_pages(full),
        Ok(lease) => lease,
    };
    let mut begun = Incoming::open(peer, piece.size, piece.size.min(unsched), order, lease);
    match put_piece(&mut begun, piece.offset, piece.bytes, pool, scratch) {
        Put::Last => {
            pool.give(begun.close());
            Opening::Whole
        }
        Put::Taken => {
            *part = Some(begun);
            Opening::Begun
        }
        Put::TooMany => unreachable!(),
    }
}

/// Ends a part: its pages are free again.
pub fn close_part(part: Incoming, pool: &mut MsgPool)
    requires { IsIn pool.old part }
    ensures { Moves pool.old (Some part) pool.new None }
{
    pool.give(part.close());
}
