// A replay over a world that can't be opened.
use homa_io::{MemSink, MemSource, WriteFailed};
use homa_plain::{Entry, Event, Settings, WorldFault};
use homa_replay::*;
use std::alloc::{AllocError, Global};
use std::test::Fail;

// No plain world stands for it.
#[derive(Drop)]
struct Blank {
    settings: Settings,
    events: u64,
}

impl ReplayWorld for Blank {
    ghost use Rattle.std.specs.Prelude.{[], ◌∷◌, ◌≡◌, refl};
    ghost use Rattle.homa_plain.specs.Entries.{PlainClock};

    ghost stands = { λ w v. ⊥ };

    ghost settings = { λ w. w.settings };

    ghost events = { λ w. w.events };

    ghost told = { λ w. PlainClock 0 ∷ [] };

    ghost allows = { λ w told. told ≡ told };

    ghost allows_none = { λ w. refl };

    fn apply(&mut self, _alloc: Global, _event: &Event, _bytes: &[u8]) -> Result<(), WorldFault> {
        self.events += 1;
        Ok(())
    }

    fn entries(&self) -> usize {
        1
    }

    fn entry(&self, _i: usize) -> Entry<'_> {
        Entry::Clock { tick: 0 }
    }

    fn put_entries<K: FlushSink>(&self, sink: &mut K) -> Result<(), WriteFailed> {
        sink.put(&Entry::Clock { tick: 0 })
    }
}

impl OpenWorld<u32> for Blank {
    ghost use Rattle.std.specs.Prelude.{◌≡◌, refl};

    ghost many = { λ boxes. boxes };

    ghost are_ready = { λ boxes. boxes ≡ boxes };

    ghost are_allowed = { λ boxes told. told ≡ told };

    ghost unasked = { λ boxes told none. refl };

    fn open(_alloc: Global, _s: &Settings, _boxes: u32) -> Result<Blank, AllocError> {
        Err(AllocError)
    }
}

// What the replay of a schedule answers.
fn replayed(
    alloc: Global,
    sink: &mut MemSink,
    text: &[u8],
) -> Result<Result<bool, Stop>, AllocError> {
    let bytes = Vec::from_slice(alloc, text)?;
    let mut source = MemSource::new(bytes, Vec::new(alloc));
    Ok(replay::<u32, Blank, MemSource, MemSink>(alloc, &mut source, sink, 96))
}

#[test]
fn refused_before_the_world(rt: HostRuntime) -> Result<(), Fail> {
    let alloc = rt.alloc();
    let mut sink = MemSink::new(alloc, 1000, Vec::new(alloc))?;
    let answer = replayed(alloc, &mut sink, b"turn 0")?;
    assert!(rt; answer == Ok(false));
    assert!(rt; sink.bytes().starts_with(b"refused 1 "));
    let stopped = replayed(alloc, &mut sink, b"go\nturn 0")?;
    assert!(rt; stopped == Err(Stop::NoMemory));
    Ok(())
}
