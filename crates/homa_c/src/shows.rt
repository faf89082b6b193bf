// What C reads of a host's last step. Each call answers the same until the next call, delivery or turn.
ghost use Rattle.std.specs.Prelude.{◌≡◌, ◌≢◌, ◌≤◌, ◌<◌, IfSome, true, false, length, take, drop, slice_get};
ghost use Rattle.homa_c.specs.Shown.{told_entries, shown_entry, shown_more, shown_level};

use crate::entries::{HomaEntry, HomaMore, entry_of, more_of};
use crate::handle::Handle;
use crate::results::{NO_ROOM, NOT_OPEN, NOT_THERE, OK};
use homa_plain::LONGEST_MESSAGE;

/// Where a frame has its level.
const LEVEL_AT: usize = 3;

/// A frame: who sent it, to whom, and how many bytes it has.
#[repr(C)]
#[derive(Drop)]
pub struct HomaFrame {
    pub from: u16,
    pub to: u16,
    pub len: usize,
}

/// How many frames the last step sent, at most 64. None where the handle isn't open.
#[unsafe(no_mangle)]
pub extern "C" fn homa_frames(host: &mut Handle) -> usize
    ensures closed { host.old.is_open ≡ false → result ≡ 0 }
    ensures count { host.old.is_open ≡ true → result ≡ length host.old.slot.held.driven.out }
    ensures few { result ≤ 64 }
    ensures same { host.new.slot.held ≡ host.old.slot.held }
    ensures open { host.new.is_open ≡ host.old.is_open }
{
    if !host.is_open {
        return 0;
    }
    host.slot.as_mut().asking().out().len()
}

/// The frame of the last step with this number, counted from 0. Its bytes go to the front of `room`. NOT_THERE: there is no such
/// frame. NO_ROOM: the room is too small.
#[unsafe(no_mangle)]
pub extern "C" fn homa_frame(
    host: &mut Handle,
    i: usize,
    room: &mut [u8],
    info: &mut HomaFrame,
) -> u32
    ensures closed { host.old.is_open ≡ false → result ≡ 16 }
    ensures there { host.old.is_open ≡ true → length host.old.slot.held.driven.out ≤ i → result ≡ 25 }
    ensures begins { host.old.is_open ≡ true → IfSome (slice_get host.old.slot.held.driven.out i) (λ f. length f.frame ≤ length room.old → result ≡ 0) }
    ensures no_room { host.old.is_open ≡ true → IfSome (slice_get host.old.slot.held.driven.out i) (λ f. length room.old < length f.frame → result ≡ 26) }
    ensures within { result ≡ 0 → i < length host.old.slot.held.driven.out }
    ensures sent { result ≡ 0 → IfSome (slice_get host.old.slot.held.driven.out i)
        (λ f. (info.new.from ≡ f.from.0) × (info.new.to ≡ f.to.0) × (take info.new.len room.new ≡ f.frame)) }
    ensures behind { result ≡ 0 → drop info.new.len room.new ≡ drop info.new.len room.old }
    ensures same { host.new.slot.held ≡ host.old.slot.held }
    ensures unwritten { result ≢ 0 → (room.new ≡ room.old) × (info.new ≡ info.old) }
    ensures open { host.new.is_open ≡ host.old.is_open }
{
    if !host.is_open {
        return NOT_OPEN;
    }
    let sent = host.slot.as_mut().asking().out();
    if i >= sent.len() {
        return NOT_THERE;
    }
    let bytes = sent.bytes(i);
    if bytes.len() > room.len() {
        return NO_ROOM;
    }
    *info = HomaFrame {
        from: sent.sender(i).0,
        to: sent.receiver(i).0,
        len: bytes.len(),
    };
    room[..bytes.len()].copy_from_slice(bytes);
    OK
}

/// The level of the frame of the last step with this number: its fourth byte, where 7 goes first. 0 where the handle isn't open,
/// or there is no such frame.
#[unsafe(no_mangle)]
pub extern "C" fn homa_frame_level(host: &mut Handle, i: usize) -> u32
    ensures closed { host.old.is_open ≡ false → result ≡ 0 }
    ensures there { length host.old.slot.held.driven.out ≤ i → result ≡ 0 }
    ensures level { host.old.is_open ≡ true → IfSome (slice_get host.old.slot.held.driven.out i) (λ f. result ≡ shown_level f.frame) }
    ensures same { host.new.slot.held ≡ host.old.slot.held }
    ensures open { host.new.is_open ≡ host.old.is_open }
{
    if !host.is_open {
        return 0;
    }
    let sent = host.slot.as_mut().asking().out();
    if i >= sent.len() {
        return 0;
    }
    let bytes = sent.bytes(i);
    if bytes.len() <= LEVEL_AT {
        return 0;
    }
    u32::from(bytes[LEVEL_AT])
}

/// How many entries the last step has, at most 128. None where the handle isn't open.
#[unsafe(no_mangle)]
pub extern "C" fn homa_entries(host: &mut Handle) -> usize
    ensures closed { host.old.is_open ≡ false → result ≡ 0 }
    ensures count { host.old.is_open ≡ true → result ≡ length host.old.slot.held.driven.host.marks }
    ensures few { result ≤ 128 }
    ensures same { host.new.slot.held ≡ host.old.slot.held }
    ensures open { host.new.is_open ≡ host.old.is_open }
{
    if !host.is_open {
        return 0;
    }
    host.slot.as_mut().asking().host().entries()
}

/// The entry of the last step with this number, counted from 0. NOT_THERE: there is none.
#[unsafe(no_mangle)]
pub extern "C" fn homa_entry(host: &mut Handle, i: usize, info: &mut HomaEntry) -> u32
    ensures closed { host.old.is_open ≡ false → result ≡ 16 }
    ensures there { host.old.is_open ≡ true → length host.old.slot.held.driven.host.marks ≤ i → result ≡ 25 }
    ensures begins { host.old.is_open ≡ true → i < length host.old.slot.held.driven.host.marks → result ≡ 0 }
    ensures within { result ≡ 0 → i < length host.old.slot.held.driven.host.marks }
    ensures told { result ≡ 0 → IfSome (slice_get (told_entries host.old.slot.held.driven) i)
        (λ e. info.new ≡ shown_entry e) }
    ensures same { host.new.slot.held ≡ host.old.slot.held }
    ensures unwritten { result ≢ 0 → info.new ≡ info.old }
    ensures open { host.new.is_open ≡ host.old.is_open }
{
    if !host.is_open {
        return NOT_OPEN;
    }
    let held = host.slot.as_mut().asking();
    if i >= held.host().entries() {
        return NOT_THERE;
    }
    *info = entry_of(&held.entry(i));
    OK
}

/// What more the entry of the last step with this number tells. NOT_THERE: there is none.
#[unsafe(no_mangle)]
pub extern "C" fn homa_entry_more(host: &mut Handle, i: usize, more: &mut HomaMore) -> u32
    ensures closed { host.old.is_open ≡ false → result ≡ 16 }
    ensures there { host.old.is_open ≡ true → length host.old.slot.held.driven.host.marks ≤ i → result ≡ 25 }
    ensures begins { host.old.is_open ≡ true → i < length host.old.slot.held.driven.host.marks → result ≡ 0 }
    ensures within { result ≡ 0 → i < length host.old.slot.held.driven.host.marks }
    ensures told { result ≡ 0 → IfSome (slice_get (told_entries host.old.slot.held.driven) i)
        (λ e. more.new ≡ shown_more host.old.slot.held.driven.from e) }
    ensures same { host.new.slot.held ≡ host.old.slot.held }
    ensures unwritten { result ≢ 0 → more.new ≡ more.old }
    ensures open { host.new.is_open ≡ host.old.is_open }
{
    if !host.is_open {
        return NOT_OPEN;
    }
    let held = host.slot.as_mut().asking();
    if i >= held.host().entries() {
        return NOT_THERE;
    }
    *more = more_of(held.from(), &held.entry(i));
    OK
}

/// How many bytes the message has that became whole in the last step, at most 1,000,000. None where none did, or the handle
/// isn't open.
#[unsafe(no_mangle)]
pub extern "C" fn homa_whole_len(host: &mut Handle) -> usize
    ensures closed { host.old.is_open ≡ false → result ≡ 0 }
    ensures len { host.old.is_open ≡ true → result ≡ length host.old.slot.held.driven.whole }
    ensures small { result ≤ LONGEST_MESSAGE }
    ensures same { host.new.slot.held ≡ host.old.slot.held }
    ensures open { host.new.is_open ≡ host.old.is_open }
{
    if !host.is_open {
        return 0;
    }
    host.slot.as_mut().asking().whole().len()
}

/// The message that became whole in the last step: the request that is asked about or was answered, or the response of a call
/// that is done; empty where none did. Its bytes go to the front of `room`. NO_ROOM: the room is too small.
#[unsafe(no_mangle)]
pub extern "C" fn homa_whole(host: &mut Handle, room: &mut [u8], len: &mut usize) -> u32
    ensures closed { host.old.is_open ≡ false → result ≡ 16 }
    ensures begins { host.old.is_open ≡ true → length host.old.slot.held.driven.whole ≤ length room.old → result ≡ 0 }
    ensures no_room { host.old.is_open ≡ true → length room.old < length host.old.slot.held.driven.whole → result ≡ 26 }
    ensures len { result ≡ 0 → len.new ≡ length host.old.slot.held.driven.whole }
    ensures bytes { result ≡ 0 → take len.new room.new ≡ host.old.slot.held.driven.whole }
    ensures behind { result ≡ 0 → drop len.new room.new ≡ drop len.new room.old }
    ensures same { host.new.slot.held ≡ host.old.slot.held }
    ensures unwritten { result ≢ 0 → (room.new ≡ room.old) × (len.new ≡ len.old) }
    ensures open { host.new.is_open ≡ host.old.is_open }
{
    if !host.is_open {
        return NOT_OPEN;
    }
    let bytes = host.slot.as_mut().asking().whole();
    if bytes.len() > room.len() {
        return NO_ROOM;
    }
    room[..bytes.len()].copy_from_slice(bytes);
    *len = bytes.len();
    OK
}
