// All packets of a world, by their numbers.
ghost use Rattle.std.specs.Prelude.{◌≡◌, ◌≤◌, ◌<◌, ◌+◌, ◌*◌, ◌^◌, ◌++◌, ◌∷◌, [], ℕ, true, Some, None, length, slice_get, nat_le, nat_lt};
ghost use Rattle.std.specs.Prelude.{OnOk, OnErr, IfOk, IfSome, IfNone, MatchOption, drop, false};
ghost use Rattle.std.specs.List.{list_all, flat_map};
ghost use Rattle.homa_plain.specs.declared.settings.Settings.{Settings};
ghost use Rattle.homa_plain.specs.Settings.{IsValid};
ghost use Rattle.world_packets.specs.declared.tick.Tick.{Tick};
ghost use Rattle.world_packets.specs.Firsts.{firsts_at};
ghost use Rattle.world_packets.specs.Kept.{HasNoOld};
ghost use Rattle.world_packets.specs.Ticks.{kept_of};
ghost use Rattle.world_packets.specs.Past.{past_kept, wire_of};
ghost use Rattle.world_packets.specs.Blocks.{frames_of, size_of};

use crate::block::Block;
use crate::past::Past;
use crate::tick::Tick;
use homa_plain::{HostId, Settings};
use std::alloc::{AllocError, Global};
use std::collections::VecDeque;
use std::mem;

/// What is kept of a packet.
#[derive(Clone, Copy, Debug, PartialEq, Eq)]
pub enum Kept<'a> {
    /// The tick of its sending, and its datagram, with its sender and its receiver.
    Whole {
        tick: u64,
        from: HostId,
        to: HostId,
        bytes: &'a [u8],
    },
    /// The tick of its sending: it is late for good.
    Late {
        tick: u64,
    },
    /// Its receiver and its sender's clock: it is certainly stale.
    Stale {
        to: HostId,
        at: u64,
    },
}

// The most bytes of a tick whose room is kept for one of few bytes.
const SMALL: usize = 1024;

/// The most bytes of a block, beside those of a step.
const MOST_SIZE: usize = 1 << 30;

// An empty block: the room of a tick that was given up, or as much as a tick of so many bytes needs.
fn empty_block(alloc: Global, spare: &mut Option<Block>, size: usize) -> Result<Block, AllocError>
    requires { size < 2 ^ 32 }
    ensures frames { IfOk result (λ block. frames_of block ≡ []) }
    ensures size { IfOk result (λ block. size_of block ≡ 0) }
{
    let Some(mut block) = spare.take() else {
        return Block::with_room(alloc, size);
    };
    block.clear();
    Ok(block)
}

// The same packets, in the room of a tick of few bytes that was given up, or else in as much as they need.
fn copy_few(alloc: Global, front: &Block, small: &mut Option<Block>) -> Result<Block, AllocError>
    ensures { IfOk result (λ block. frames_of block ≡ frames_of front.now) }
{
    match small.take() {
        Some(block) => block.refilled(front),
        None => front.copy(alloc),
    }
}

// Takes out the packets of a tick: many with the room in which they stand, few as a copy.
fn take_front(
    alloc: Global,
    front: &mut Block,
    spare: &mut Option<Block>,
    small: &mut Option<Block>,
) -> Result<Block, AllocError>
    ensures taken { IfOk result (λ block. frames_of block ≡ frames_of front.old) }
    ensures none { OnOk result (frames_of front.new ≡ []) }
    ensures size { OnOk result (size_of front.new ≡ 0) }
    ensures same { OnErr result (front.new ≡ front.old) }
{
    if !front.is_dense() {
        let block = copy_few(alloc, front, small)?;
        front.clear();
        return Ok(block);
    }
    let next = empty_block(alloc, spare, front.size())?;
    Ok(mem::replace(front, next))
}

// The first tick goes. Its room is kept if it is worth it, and also if it is small: then the next small one needs no
// new room.
fn give_up(ticks: &mut VecDeque<Tick>, spare: &mut Option<Block>, small: &mut Option<Block>)
    ensures rest { ticks.new.items ≡ drop 1 ticks.old.items }
{
    let Some(Tick { block, .. }) = ticks.pop_front() else {
        return;
    };
    if block.is_dense() {
        *spare = Some(block);
    } else if block.size() <= SMALL {
        *small = Some(block);
    }
}

/// Every packet that was sent, by its number, counted from 0.
#[derive(Drop)]
pub struct Packets {
    settings: Settings,
    // The first packets, which are too old, and behind them those of earlier ticks.
    past: Past,
    ticks: VecDeque<Tick>,
    // The room of a tick that was given up, for a tick to come, and that of a tick of few bytes.
    spare: Option<Block>,
    small: Option<Block>,
    // The packets of the last tick, from number `first` on.
    front: Block,
    tick: u64,
    first: u64,
    // Whether a `reserve` went through the ticks at this one: none of them has become too old since.
    swept: bool,
    ghost valid: { IsValid settings },
    ghost firsts: { firsts_at (λ (t : Tick). t.first) kept_of (length (past_kept past)) ticks.items first ≡ true },
    ghost few: { first + length (frames_of front) < 2 ^ 64 },
    ghost wire: { wire_of past ≡ settings.wire },
    ghost filled: { list_all (λ (t : Tick). nat_lt 0 (length (kept_of t))) ticks.items ≡ true },
    ghost swept_is: { swept ≡ true → ∥ HasNoOld settings tick (flat_map kept_of ticks.items) ∥₁ },
}

impl Packets {
    ghost use Rattle.world_packets.specs.Kept.{WholePacket, kept_seen, AllAged};
    ghost use Rattle.world_packets.specs.Firsts.{IsIn};
    ghost use Rattle.world_packets.specs.All.{kept_all, settings_of, open_tick, open_number, HasRoomFor};

    /// No packet was sent yet. It takes no memory.
    pub fn open(alloc: Global, settings: &Settings) -> Packets
        requires { IsValid settings.now }
        ensures none { kept_all result ≡ [] }
        ensures settings { settings_of result ≡ settings.now }
    {
        Packets {
            settings: *settings,
            past: Past::open(alloc, settings.wire),
            ticks: VecDeque::new(alloc),
            spare: None,
            small: None,
            front: Block::open(alloc),
            tick: 0,
            first: 0,
            swept: false,
        }
    }

    /// How many packets were sent.
    pub fn count(&self) -> u64
        ensures { result ≡ length (kept_all self.now) }
    {
        self.first + self.front.len() as u64
    }

    // The packets of the last tick, if there are any, become those of an earlier one.
    fn close(&mut self, alloc: Global) -> Result<(), AllocError>
        ensures kept { kept_all self.new ≡ kept_all self.old }
        ensures closed { OnOk result (frames_of self.new.front ≡ []) }
        ensures size { OnOk result (size_of self.new.front ≡ 0) }
        ensures swept { self.new.swept ≡ false }
        ensures settings { settings_of self.new ≡ settings_of self.old }
    {
        self.swept = false;
        let count = self.front.len() as u64;
        if count == 0 {
            self.front.clear();
            return Ok(());
        }
        self.ticks.reserve(1)?;
        let block = take_front(alloc, &mut self.front, &mut self.spare, &mut self.small)?;
        self.ticks.push_back(Tick {
            tick: self.tick,
            first: self.first,
            block,
        })?;
        self.first += count;
        Ok(())
    }

    // The next packets are sent in this tick. A block is begun only with a new tick or where the last one is full.
    fn turn_over(&mut self, alloc: Global, now: u64) -> Result<(), AllocError>
        ensures stays { self.old.tick ≡ now → size_of self.old.front ≤ 2 ^ 30 → self.new ≡ self.old }
        ensures kept { kept_all self.new ≡ kept_all self.old }
        ensures tick { OnOk result (self.new.tick ≡ now) }
        ensures small { OnOk result (size_of self.new.front ≤ 2 ^ 30) }
        ensures settings { settings_of self.new ≡ settings_of self.old }
    {
        if self.tick == now && self.front.size() <= MOST_SIZE {
            return Ok(());
        }
        self.close(alloc)?;
        self.tick = now;
        Ok(())
    }

    // Gives up the datagrams of the ticks whose packets are too old, the oldest first.
    fn expire(&mut self, now: u64) -> Result<(), AllocError>
        ensures aged { AllAged (settings_of self.old) now (kept_all self.old) (kept_all self.new) }
        ensures settings { settings_of self.new ≡ settings_of self.old }
        ensures no_old { OnOk result (HasNoOld (settings_of self.old) now (flat_map kept_of self.new.ticks.items)) }
        ensures front { self.new.front ≡ self.old.front }
        ensures tick { self.new.tick ≡ self.old.tick }
    {
        self.swept = false;
        while !self.ticks.is_empty() {
            if !self.past.take(&self.settings, &self.ticks[0], now)? {
                break;
            }
            give_up(&mut self.ticks, &mut self.spare, &mut self.small);
        }
        Ok(())
    }

    /// Whether a `reserve` at this tick would change nothing.
    pub fn is_ready(&self, now: u64) -> bool
        requires { length (kept_all self.now) + 64 < 2 ^ 64 }
        ensures no_old { result ≡ true → ∥ HasNoOld (settings_of self.now) now (kept_all self.now) ∥₁ }
        ensures room { result ≡ true → HasRoomFor self.now 64 }
        ensures tick { result ≡ true → open_tick self.now ≡ now }
    {
        if !self.swept {
            return false;
        }
        if self.tick != now {
            return false;
        }
        if self.front.size() > MOST_SIZE {
            return false;
        }
        self.front.has_room()
    }

    /// The packets that are pushed next are sent in the tick `now`, which isn't below the last one; there is room for 64 of them.
    /// Gives up the datagrams of each tick whose packets are all too old, the oldest first, up to one that has a packet that isn't.
    /// Only this takes memory; after an error the packets are the same but for those that became too old.
    pub fn reserve(&mut self, alloc: Global, now: u64) -> Result<(), AllocError>
        requires { length (kept_all self.old) + 64 < 2 ^ 64 }
        ensures aged { AllAged (settings_of self.old) now (kept_all self.old) (kept_all self.new) }
        ensures no_old { OnOk result (HasNoOld (settings_of self.old) now (kept_all self.new)) }
        ensures room { OnOk result (HasRoomFor self.new 64) }
        ensures tick { OnOk result (open_tick self.new ≡ now) }
        ensures settings { settings_of self.new ≡ settings_of self.old }
    {
        self.turn_over(alloc, now)?;
        self.expire(now)?;
        self.front.reserve()?;
        self.swept = true;
        Ok(())
    }

    /// Adds a packet, of at most 1,444 bytes, in room that was taken before.
    pub fn push(&mut self, from: HostId, to: HostId, bytes: &[u8])
        requires room { HasRoomFor self.old 1 }
        requires short { length bytes.now ≤ 1444 }
        ensures kept { kept_all self.new ≡ kept_all self.old ++ WholePacket (open_tick self.old) (record { from = from; to = to; bytes = bytes.now }) ∷ [] }
        ensures room { (n : ℕ) → HasRoomFor self.old (n + 1) → HasRoomFor self.new n }
        ensures tick { open_tick self.new ≡ open_tick self.old }
        ensures settings { settings_of self.new ≡ settings_of self.old }
    {
        self.front.push(from, to, bytes);
    }

    // The tick in which the packet with this number was sent.
    fn find(&self, n: u64) -> &Tick
        requires from { length (past_kept self.now.past) ≤ n }
        requires to { n < self.now.first }
        ensures { IsIn (λ (t : Tick). t.first) kept_of self.now.ticks.items (length (past_kept self.now.past)) n result.now }
    {
        // Most packets that are asked for are of the last of these ticks.
        let last = self.ticks.len() - 1;
        if self.ticks[last].first <= n {
            return &self.ticks[last];
        }
        let place = self.ticks.partition_point(
            |tick: &Tick| -> bool
                ensures { result ≡ nat_le tick.now.first n }
            { tick.first <= n },
        );
        &self.ticks[place - 1]
    }

    /// What is kept of the packet with this number, if it is one of the last ones: those of the block in which the
    /// next are put.
    pub fn recent(&self, n: u64) -> Option<Kept<'_>>
        ensures some { IfSome result (λ kept. slice_get (kept_all self.now) n ≡ Some (kept_seen kept)) }
        ensures none { IfNone result (open_number self.now ≤ n → length (kept_all self.now) ≤ n) }
    {
        if n < self.first {
            return None;
        }
        let i = (n - self.first) as usize;
        if i >= self.front.len() {
            return None;
        }
        let (from, to, bytes) = self.front.get(i);
        Some(Kept::Whole {
            tick: self.tick,
            from,
            to,
            bytes,
        })
    }

    /// What is kept of the packet with this number, if so many were sent.
    pub fn get(&self, n: u64) -> Option<Kept<'_>>
        ensures { MatchOption result (length (kept_all self.now) ≤ n) (λ kept. slice_get (kept_all self.now) n ≡ Some (kept_seen kept)) }
    {
        if n >= self.first {
            return self.recent(n);
        }
        if n < self.past.len() {
            return Some(self.past.get(n));
        }
        let tick = self.find(n);
        Some(tick.get((n - tick.first) as usize))
    }
}
