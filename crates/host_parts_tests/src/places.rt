// Each public call once, with ample memory.
ghost use Rattle.std.specs.Prelude.{◌≡◌};

use homa_plain::{CallId, HostId};
use host_places::Rows;
use std::process::Abort;
use std::test::Fail;

fn call(seq: u32) -> CallId {
    CallId {
        client: HostId(1),
        inc: 3,
        seq,
    }
}

// A row for a call that has none, where there is room.
fn add(rows: &mut Rows<u64>, room: u32, seq: u32, row: u64) -> Option<u32>
    requires { rows.old.room ≡ room }
    ensures { rows.new.room ≡ room }
{
    let id = call(seq);
    if rows.len() >= room {
        return None;
    }
    match rows.find(id) {
        None => Some(rows.insert(id, row)),
        Some(_) => None,
    }
}

// Another row at a place.
fn change(rows: &mut Rows<u64>, place: u32, row: u64) -> bool
    ensures { rows.new.room ≡ rows.old.room }
{
    match rows.get(place) {
        Some(_) => {
            *rows.row_mut(place) = row;
            true
        }
        None => false,
    }
}

// The row at a place goes.
fn take(rows: &mut Rows<u64>, place: u32) -> Option<(CallId, u64)>
    ensures { rows.new.room ≡ rows.old.room }
{
    match rows.get(place) {
        Some(_) => Some(rows.remove(place)),
        None => None,
    }
}

// The row at a place, with its call.
fn row_at(rows: &Rows<u64>, place: u32) -> Option<(CallId, u64)> {
    rows.get(place).map(|found| (found.0, *found.1))
}

// Fills both places: where each call stands.
fn fill(rt: &impl Abort, rows: &mut Rows<u64>) -> Option<(u32, u32)>
    requires { rows.old.room ≡ 2 }
    ensures { rows.new.room ≡ 2 }
{
    assert_eq!(rt; rows.len(), 0);
    let first = add(rows, 2, 7, 70)?;
    let second = add(rows, 2, 5, 50)?;
    assert_eq!(rt; (first.min(second), first.max(second)), (0, 1));
    let full = add(rows, 2, 9, 90);
    let double = add(rows, 2, 5, 51);
    assert_eq!(rt; (full, double), (None, None));
    Some((first, second))
}

// Calls are found at their places, and one row is changed.
fn find(rt: &impl Abort, rows: &mut Rows<u64>, first: u32, second: u32)
    requires { rows.old.room ≡ 2 }
    ensures { rows.new.room ≡ 2 }
{
    let found = (rows.len(), rows.find(call(5)), rows.find(call(9)));
    assert_eq!(rt; found, (2, Some(second), None));
    let read = (row_at(rows, first), row_at(rows, 2));
    assert_eq!(rt; read, (Some((call(7), 70)), None));
    assert!(rt; change(rows, second, 55));
    assert_eq!(rt; row_at(rows, second), Some((call(5), 55)));
}

// A row goes, and its place is free for another.
fn replace(rt: &impl Abort, rows: &mut Rows<u64>, first: u32, second: u32)
    requires { rows.old.room ≡ 2 }
{
    assert_eq!(rt; take(rows, first), Some((call(7), 70)));
    let found = (rows.find(call(7)), rows.find(call(5)));
    assert_eq!(rt; found, (None, Some(second)));
    assert!(rt; !change(rows, first, 71));
    assert_eq!(rt; add(rows, 2, 9, 90), Some(first));
    assert_eq!(rt; row_at(rows, first), Some((call(9), 90)));
}

#[test]
fn two_places(rt: HostRuntime) -> Result<(), Fail> {
    let mut rows = Rows::open(rt.alloc(), 2)?;
    let Some((first, second)) = fill(&rt, &mut rows) else {
        return Err(Fail::from("room"));
    };
    find(&rt, &mut rows, first, second);
    replace(&rt, &mut rows, first, second);
    Ok(())
}
