// The steps of a table, and what they say together.
ghost use Rattle.std.specs.Prelude.{◌≡◌, ◌≤◌, ◌<◌, ◌+◌, ◌-◌, ◌*◌, true, Some, IfOk};
ghost use Rattle.std.specs.Int.{div_ceil};
ghost use Rattle.std.specs.List.{sum_by};
ghost use Rattle.experiment.specs.Wires.{cut_of};
ghost use Rattle.experiment.specs.Tables.{is_table, steps_of, last_upto, shares, step_at, step_wire, bound_of};

use crate::framing::Framing;
use std::alloc::{AllocError, Global};

/// Of the shares of all steps so many requests have more than `above` and at most `upto` bytes, each length as likely as any other.
#[derive(Clone, Copy, Debug, PartialEq, Eq)]
pub struct Step {
    pub above: u32,
    pub upto: u32,
    pub share: u32,
}

/// The steps of rows, each above the one before.
pub(crate) fn steps_of(alloc: Global, rows: &[(u32, u32)]) -> Result<Vec<Step>, AllocError>
    ensures { IfOk result (λ steps. steps.items ≡ steps_of 0 rows.now) }
{
    let mut steps = Vec::with_capacity(alloc, rows.len())?;
    let mut above = 0;
    for (upto, share) in rows {
        let (upto, share) = (*upto, *share);
        steps.push(Step { above, upto, share })?;
        above = upto;
    }
    Ok(steps)
}

/// The greatest length.
pub(crate) fn longest(steps: &[Step]) -> u32
    requires { is_table steps.now ≡ true }
    ensures value { result ≡ last_upto steps.now }
    ensures some { 1 ≤ result }
    ensures most { result ≤ 1000000 }
{
    steps[steps.len() - 1].upto
}

/// The sum of all shares.
pub(crate) fn shares(steps: &[Step]) -> u32
    requires { is_table steps.now ≡ true }
    ensures sum { result ≡ shares steps.now }
    ensures some { 1 ≤ result }
{
    let mut sum = 0;
    for step in steps {
        sum += step.share;
    }
    sum
}

/// The step in which a number falls.
pub(crate) fn step_at(steps: &[Step], at: u32) -> Step
    requires table { is_table steps.now ≡ true }
    requires below { at < shares steps.now }
    ensures at { step_at at steps.now ≡ Some result }
    ensures rises { result.above < result.upto }
    ensures most { result.upto ≤ 1000000 }
{
    let mut left = at;
    for step in steps {
        if left < step.share {
            return *step;
        }
        left -= step.share;
    }
    unreachable!()
}

// 1000 times the mean of the bytes on the wire of a step's lengths, times its share.
fn step_wire(step: &Step, framing: &Framing) -> u128
    requires rises { step.now.above < step.now.upto }
    requires most { step.now.upto ≤ 1000000 }
    requires share { step.now.share ≤ 1000000 }
    ensures wire { result ≡ step_wire (cut_of framing.now) step.now }
    ensures bound { result ≤ step.now.share * 17179869184000 }
{
    let lengths = u128::from(step.upto - step.above);
    let wire = framing.wire_between(step.above, step.upto);
    wire * u128::from(step.share) * 1000 / lengths
}

/// The sum of 1000 times the mean of the bytes on the wire of each step's lengths, times its share.
pub(crate) fn wires(steps: &[Step], framing: &Framing) -> u128
    requires { is_table steps.now ≡ true }
    ensures sum { result ≡ sum_by (step_wire (cut_of framing.now)) steps.now }
    ensures bound { result ≤ shares steps.now * 17179869184000 }
{
    let mut sum: u128 = 0;
    for step in steps {
        sum += step_wire(step, framing);
    }
    sum
}

// The length at which so much of a step's share is reached.
fn length_in(step: &Step, left: u64, share: u64) -> u32
    requires rises { step.now.above < step.now.upto }
    requires most { step.now.upto ≤ 1000000 }
    requires some { 0 < left }
    requires within { left ≤ share }
    requires share { share ≤ 1000000000 }
    ensures length { result ≡ step.now.above + div_ceil ((step.now.upto - step.now.above) * left) share }
    ensures above { step.now.above < result }
    ensures upto { result ≤ step.now.upto }
    ensures last { left ≡ share → result ≡ step.now.upto }
{
    let lengths = u64::from(step.upto - step.above);
    step.above + ((lengths * left).div_ceil(share)) as u32
}

/// The length up to which so many of so many parts of all shares are.
pub(crate) fn bound(steps: &[Step], part: u32, parts: u32) -> u32
    requires table { is_table steps.now ≡ true }
    requires some { 1 ≤ part }
    requires within { part ≤ parts }
    requires most { parts ≤ 1000 }
    ensures bound { result ≡ bound_of part parts steps.now }
    ensures some { 1 ≤ result }
    ensures most { result ≤ last_upto steps.now }
    ensures last { part ≡ parts → result ≡ last_upto steps.now }
{
    let mut left = u64::from(shares(steps)) * u64::from(part);
    for step in steps {
        let share = u64::from(step.share) * u64::from(parts);
        if left <= share {
            return length_in(step, left, share);
        }
        left -= share;
    }
    unreachable!()
}
