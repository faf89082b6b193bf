// What is kept of packets that are too old.
ghost use Rattle.std.specs.Prelude.{◌≡◌, ◌≢◌, ◌≤◌, ◌<◌, ◌+◌, ◌*◌, ◌++◌, ◌^◌, [], true, false, Some, length, slice_get, IfSome, IfNone, IfOk};
ghost use Rattle.homa_plain.specs.declared.settings.Settings.{Settings};
ghost use Rattle.homa_plain.specs.Settings.{IsValid};
ghost use Rattle.world_packets.specs.Blocks.{frames_of};
ghost use Rattle.world_packets.specs.Olds.{IsOld, IsNotOld, AddsOlds, HasNotOld, IfTaken};

use crate::block::Block;
use crate::late::Lates;
use crate::packets::Kept;
use crate::tick::Tick;
use homa_plain::{HostId, Settings};
use homa_wire::decode;
use std::alloc::{AllocError, Global};

/// What is kept of a packet that is certainly stale: its receiver, and its sender's clock.
#[derive(Clone, Copy)]
pub(crate) struct Old {
    pub(crate) at: u64,
    pub(crate) to: HostId,
}

/// What is kept of the first packets.
#[derive(Drop)]
pub(crate) enum Past {
    /// With version 1: they are late for good.
    Late(Lates),
    /// With version 2: they are certainly stale.
    Stale(Vec<Old>),
}

// Whether the packets of a tick may be too old at this tick of the world's clock.
fn is_old(s: &Settings, tick: u64, now: u64) -> bool
    ensures old { result ≡ true → s.now.wire ≡ 1 → tick + s.now.life < now }
    ensures late { result ≡ false → s.now.wire ≡ 1 → now ≤ tick + s.now.life }
    ensures stale { result ≡ false → s.now.wire ≡ 2 → now ≤ tick + s.now.life + 4 * s.now.skew }
{
    let mut life = u64::from(s.life);
    if s.wire != 1 {
        life += 4 * u64::from(s.skew);
    }
    now > life && tick < now - life
}

// What is kept of a packet for this host, if it is certainly stale: if its sender's clock is more than `reach` ticks behind.
fn old_of(to: HostId, bytes: &[u8], reach: u64, now: u64) -> Option<Old>
    ensures some { IfSome result (IsOld reach now to bytes.now) }
    ensures none { IfNone result (IsNotOld reach now bytes.now) }
{
    let Some((packet, _)) = decode(bytes, 2) else {
        return None;
    };
    if now < reach || packet.at >= now - reach {
        return None;
    }
    Some(Old { at: packet.at, to })
}

// Adds what is kept of the packets of a block, if they are certainly stale; false where one of them isn't. Then, and after an
// error, nothing is added.
fn push_olds(olds: &mut Vec<Old>, block: &Block, reach: u64, now: u64) -> Result<bool, AllocError>
    ensures olds { IfTaken result (AddsOlds reach now (frames_of block.now) olds.old.items olds.new.items) (olds.new.items ≡ olds.old.items) }
    ensures left { IfOk result (λ taken. taken ≡ false → HasNotOld reach now (frames_of block.now)) }
{
    olds.reserve(block.len())?;
    let before = olds.len();
    for i in 0..block.len() {
        let (_, to, bytes) = block.get(i);
        let Some(old) = old_of(to, bytes, reach, now) else {
            olds.truncate(before);
            return Ok(false);
        };
        olds.push(old).unwrap();
    }
    Ok(true)
}

impl Past {
    ghost use Rattle.world_packets.specs.Kept.{kept_seen, AllAged, HasNoOld};
    ghost use Rattle.world_packets.specs.Past.{past_kept, wire_of};
    ghost use Rattle.world_packets.specs.Ticks.{kept_of};

    /// Opens an empty store of packets. Takes no memory.
    pub(crate) fn open(alloc: Global, wire: u32) -> Past
        ensures none { past_kept result ≡ [] }
        ensures one { wire ≡ 1 → wire_of result ≡ 1 }
        ensures two { wire ≢ 1 → wire_of result ≡ 2 }
    {
        if wire == 1 {
            return Past::Late(Lates::open(alloc));
        }
        Past::Stale(Vec::new(alloc))
    }

    /// How many packets there are.
    pub(crate) fn len(&self) -> u64
        ensures { result ≡ length (past_kept self.now) }
    {
        match self {
            Past::Late(lates) => lates.len(),
            Past::Stale(olds) => olds.len() as u64,
        }
    }

    /// What is kept of the packet with this number.
    pub(crate) fn get(&self, n: u64) -> Kept<'_>
        requires { n < length (past_kept self.now) }
        ensures { slice_get (past_kept self.now) n ≡ Some (kept_seen result) }
    {
        match self {
            Past::Late(lates) => Kept::Late { tick: lates.get(n) },
            Past::Stale(olds) => {
                let old = olds[n as usize];
                Kept::Stale {
                    to: old.to,
                    at: old.at,
                }
            }
        }
    }

    /// Adds the packets of the next tick, if they are all too old; false where one of them isn't. Then, and after an error, nothing
    /// is added.
    pub(crate) fn take(&mut self, s: &Settings, tick: &Tick, now: u64) -> Result<bool, AllocError>
        requires valid { IsValid s.now }
        requires few { length (past_kept self.old) + length (kept_of tick.now) < 2 ^ 64 }
        ensures aged { IfTaken result (AllAged s.now now (past_kept self.old ++ kept_of tick.now) (past_kept self.new)) (past_kept self.new
            ≡ past_kept self.old) }
        ensures left { wire_of self.old ≡ s.now.wire → IfOk result (λ taken. taken ≡ false → HasNoOld s.now now (kept_of tick.now)) }
        ensures wire { wire_of self.new ≡ wire_of self.old }
    {
        if !is_old(s, tick.tick, now) {
            return Ok(false);
        }
        match self {
            Past::Late(lates) if s.wire == 1 => {
                lates.push(tick.tick, tick.block.len() as u64)?;
                Ok(true)
            }
            Past::Stale(olds) if s.wire != 1 => {
                let reach = u64::from(s.life + 2 * s.skew);
                push_olds(olds, &tick.block, reach, now)
            }
            _ => Ok(false),
        }
    }
}
