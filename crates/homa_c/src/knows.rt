// What C asks a host of itself, and the library of itself.
ghost use Rattle.std.specs.Prelude.{◌≡◌, true, false};
ghost use Rattle.plain_sets.specs.Maps.{len};
ghost use Rattle.homa_c.specs.Counted.{count_of};

use crate::handle::Handle;

/// The version of the project, 65,536 * MAJOR + 256 * MINOR + PATCH, as `include/homa.h` has it.
const VERSION: u32 = 0x100;

/// The version of the library.
#[unsafe(no_mangle)]
pub extern "C" fn homa_version() -> u32
    ensures { result ≡ 256 }
{
    VERSION
}

/// How many calls are live. 0 where the handle isn't open.
#[unsafe(no_mangle)]
pub extern "C" fn homa_live(host: &mut Handle) -> u32
    ensures closed { host.old.is_open ≡ false → result ≡ 0 }
    ensures live { host.old.is_open ≡ true → result ≡ len host.old.slot.held.driven.host.host.clients }
    ensures same { host.new.slot.held ≡ host.old.slot.held }
    ensures open { host.new.is_open ≡ host.old.is_open }
{
    if !host.is_open {
        return 0;
    }
    host.slot.as_mut().asking().host().live()
}

/// The tick of its last step, and before the first what the host was opened with. 0 where the handle isn't open.
#[unsafe(no_mangle)]
pub extern "C" fn homa_last(host: &mut Handle) -> u64
    ensures closed { host.old.is_open ≡ false → result ≡ 0 }
    ensures last { host.old.is_open ≡ true → result ≡ host.old.slot.held.driven.host.host.last }
    ensures same { host.new.slot.held ≡ host.old.slot.held }
    ensures open { host.new.is_open ≡ host.old.is_open }
{
    if !host.is_open {
        return 0;
    }
    host.slot.as_mut().asking().host().last()
}

/// The count of this number (`all_counts`). 0 where the handle isn't open, or there is no such count.
#[unsafe(no_mangle)]
pub extern "C" fn homa_count(host: &mut Handle, which: u32) -> u64
    ensures closed { host.old.is_open ≡ false → result ≡ 0 }
    ensures count { host.old.is_open ≡ true → result ≡ count_of host.old.slot.held which }
    ensures same { host.new.slot.held ≡ host.old.slot.held }
    ensures open { host.new.is_open ≡ host.old.is_open }
{
    if !host.is_open {
        return 0;
    }
    let held = host.slot.as_mut();
    let asking = held.asking();
    let counts = asking.counts();
    match which {
        0 => counts.calls,
        1 => counts.done,
        2 => counts.timeouts,
        3 => counts.forgotten,
        4 => counts.asked,
        5 => counts.ran,
        6 => counts.sent,
        7 => counts.sent_bytes,
        8 => counts.received,
        9 => counts.resends_sent,
        10 => counts.junk,
        11 => counts.stale,
        12 => counts.no_row,
        13 => counts.no_pages,
        14 => counts.gaps,
        15 => counts.dropped,
        16 => counts.buried,
        17 => counts.freed,
        18 => u64::from(asking.host().live()),
        19 => held.kept() as u64,
        20 => u64::from(asking.host().served()),
        _ => 0,
    }
}
