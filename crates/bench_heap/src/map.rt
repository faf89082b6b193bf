// The mix over std's map, with the key of each slot beside it.
use crate::mix::{Change, Slot};
use arrayvec::ArrayVec;
use place_heap::{Item, Key};
use std::alloc::{AllocError, Global};
use std::collections::BTreeMap;

type Sorted = BTreeMap<(Key, u32), ()>;

// The slot has this key from now on, or none.
fn change(
    map: &mut Sorted,
    keys: &mut Vec<Option<Key>>,
    slot: Slot,
    next: Option<Key>,
) -> Result<(), AllocError> {
    let number = slot.number;
    let Some(place) = keys.get_mut(number as usize) else {
        return Ok(());
    };
    if let Some(key) = *place {
        map.remove(&(key, number));
    }
    if let Some(key) = next {
        map.insert((key, number), ())?;
    }
    *place = next;
    Ok(())
}

/// The first eight slots after these changes.
pub(crate) fn by_map(alloc: Global, mix: &[Change]) -> Result<ArrayVec<Item, 8>, AllocError> {
    let mut map: Sorted = BTreeMap::new(alloc);
    let mut keys: Vec<Option<Key>> = vec![in alloc; None; 8192]?;
    for entry in mix {
        match *entry {
            Change::Set(slot, key) => change(&mut map, &mut keys, slot, Some(key))?,
            Change::Unset(slot) => change(&mut map, &mut keys, slot, None)?,
        }
    }
    let mut out = ArrayVec::new();
    for (key, _) in map.iter().take(8) {
        let _ = out.try_push((key.1, key.0));
    }
    Ok(out)
}
