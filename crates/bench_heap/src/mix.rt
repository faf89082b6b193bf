// The changes of a mix.
ghost use Rattle.std.specs.Prelude.{◌<◌};

use place_heap::Key;
use std::io;

/// A slot of the heap: below 8192.
#[derive(Clone, Copy)]
pub struct Slot {
    pub number: u32,
    ghost small: { number < 8192 },
}

impl Slot {
    // The slot with this number, if there is one.
    fn read(word: Option<&str>) -> Option<Slot> {
        let number = word?.parse::<u32>().ok()?;
        if number < 8192 {
            return Some(Slot { number });
        }
        None
    }
}

/// One change of the heap.
#[derive(Clone, Copy)]
pub enum Change {
    /// The slot has this key from now on.
    Set(Slot, Key),
    /// The slot isn't in the heap any more.
    Unset(Slot),
}

fn read_number(word: Option<&str>) -> Option<u64> {
    word?.parse::<u64>().ok()
}

// The change that a line says, if it says one.
fn read_change(line: &str) -> Option<Change> {
    let mut words = line.split_whitespace();
    let name = words.next()?;
    let slot = Slot::read(words.next())?;
    if name == "unset" {
        return Some(Change::Unset(slot));
    }
    let first = read_number(words.next())?;
    let second = read_number(words.next())?;
    Some(Change::Set(slot, Key { first, second }))
}

/// The changes that standard input says. Lines that say none are passed over.
pub(crate) fn read_mix(rt: &(impl Input + AllocGlobal)) -> io::Result<Vec<Change>> {
    let mut mix = Vec::new(rt.alloc());
    for line in rt.lines(rt.alloc()) {
        let line = line?;
        if let Some(change) = read_change(line.as_str()) {
            mix.push(change)?;
        }
    }
    Ok(mix)
}
