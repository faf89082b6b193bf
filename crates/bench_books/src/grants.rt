// The mix over incoming messages.
ghost use Rattle.std.specs.Prelude.{◌≡◌, ◌<◌, IfSome, IsSome};
ghost use Rattle.homa_plain.specs.Settings.{IsValid};
ghost use Rattle.homa_grants.specs.Entries.{entry_of};
ghost use Rattle.bench_books.specs.Filled.{IsFilled};

use crate::mix::{Checksum, Mix, Numbers};
use arrayvec::ArrayVec;
use homa_grants::GrantBook;
use homa_plain::{HostId, Settings};
use std::alloc::{AllocError, Global};

// The usual settings, with as many hosts as there may be.
fn settings() -> Settings
    ensures valid { IsValid result }
    ensures hosts { result.hosts ≡ 32 }
    ensures calls { result.calls ≡ 256 }
    ensures served { result.served ≡ 1024 }
{
    Settings {
        hosts: 32,
        ..Settings::usual()
    }
}

// Enters a message under a slot. Its order is the slot, as that of every other.
fn enter(book: &mut GrantBook, slot: u32, remaining: u32)
    requires slot { slot < 1280 }
    requires filled { IsFilled book.old }
    ensures { IsFilled book.new }
{
    let peer = HostId((slot % 32) as u16);
    book.enter(slot, peer, remaining, u64::from(slot));
}

// The slot that is chosen first. `chosen` is all that are chosen.
fn choose(book: &GrantBook, chosen: &mut ArrayVec<u32, 8>) -> Option<u32>
    ensures { IfSome result (λ slot. IsSome (entry_of slot book.now.entries)) }
{
    book.choose(chosen);
    chosen.as_slice().first().copied()
}

/// All answers of `choose`, in rounds in which more bytes are missing of the message that is chosen first.
pub(crate) fn by_grants(alloc: Global, mix: Mix) -> Result<u64, AllocError> {
    let mut book = GrantBook::open(alloc, &settings())?;
    let mut numbers = Numbers::new();
    let mut checksum = Checksum::new();
    let mut chosen = ArrayVec::new();
    'fills: for slot in 0..mix.rows {
        enter(&mut book, slot, mix.key(0, numbers.next()));
    }
    'rounds: for round in 0..mix.rounds {
        if let Some(slot) = choose(&book, &mut chosen) {
            checksum.add_all(chosen.as_slice());
            book.change(slot, mix.key(round, numbers.next()));
        }
    }
    Ok(checksum.sum())
}
