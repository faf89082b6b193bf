//! Tests of `homa_cutoffs`.
use homa_cutoffs::*;
use homa_plain::Cutoffs;
use std::test::Fail;

#[test]
fn levels_by_the_first_cutoffs(rt: HostRuntime) -> Result<(), Fail> {
    let first = Cutoffs::first(4);
    let upto = [0, 0, 0, 0, 1000000, 1000000, 1000000, 1000000];
    assert_eq!(rt; first, Cutoffs { version: 0, upto });
    assert_eq!(rt; first.level(4, 1000000), 7);
    Ok(())
}

#[test]
fn levels_by_two_lengths(rt: HostRuntime) -> Result<(), Fail> {
    let mut recent = Recent::new(rt.alloc())?;
    recent.note(1);
    recent.note(3);
    let cutoffs = recent.balance(4, 10000, 2);
    let upto = [0, 0, 0, 0, 1000000, 3, 3, 1];
    assert_eq!(rt; cutoffs, Cutoffs { version: 2, upto });
    assert_eq!(rt; cutoffs.level(4, 1), 7);
    assert_eq!(rt; cutoffs.level(4, 2), 6);
    assert_eq!(rt; cutoffs.level(4, 3), 6);
    assert_eq!(rt; cutoffs.level(4, 4), 4);
    Ok(())
}

#[test]
fn one_level_takes_all(rt: HostRuntime) -> Result<(), Fail> {
    let mut recent = Recent::new(rt.alloc())?;
    recent.note(5);
    let upto = [0, 0, 0, 0, 0, 0, 0, 1000000];
    assert_eq!(rt; recent.balance(7, 10000, 1), Cutoffs { version: 1, upto });
    Ok(())
}

#[test]
fn the_oldest_length_is_forgotten(rt: HostRuntime) -> Result<(), Fail> {
    let mut recent = Recent::new(rt.alloc())?;
    recent.note(1000000);
    recent.note(1);
    let both = [0, 0, 0, 0, 0, 0, 1000000, 1000000];
    assert_eq!(rt; recent.balance(6, 1000000, 1).upto, both);
    for _ in 0..254 {
        recent.note(1);
    }
    recent.note(1);
    let ones = [0, 0, 0, 0, 0, 0, 1000000, 1];
    assert_eq!(rt; recent.balance(6, 1000000, 2).upto, ones);
    Ok(())
}
