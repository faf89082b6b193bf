// Slowdowns, by length.
ghost use Rattle.std.specs.Prelude.{◌≡◌, ◌≤◌, ◌<◌, length, IfOk};

use crate::alone::call_alone;
use crate::calls::{CallEnd, SimCall};
use crate::ranks::{Rank, SLOWER, rank_of};
use experiment::Experiment;
use std::alloc::{AllocError, Global};

/// The slowdowns of the calls of one range of lengths, in 1000ths: how many there are, how many are done, and three of them by rank.
#[derive(Clone, Copy, Debug, PartialEq, Eq)]
pub struct Slowdowns {
    pub from: u32,
    pub to: u32,
    pub count: usize,
    pub done: usize,
    pub p50: Rank,
    pub p99: Rank,
    pub p999: Rank,
}

/// Of all calls that were measured, of both halves of them, and of each part of the lengths.
#[derive(Drop)]
pub struct Figures {
    pub all: Slowdowns,
    pub halves: [Slowdowns; 2],
    pub parts: Vec<Slowdowns>,
}

// How many values there must be for the rank of 990 and of 999 of 1000.
const FOR_990: usize = 100;

const FOR_999: usize = 1000;

// The slowdown of a call, in 1000ths.
fn slowdown(experiment: &Experiment, call: &SimCall) -> u64 {
    if call.end != CallEnd::Done {
        return SLOWER;
    }
    let took = u128::from(call.ended.saturating_sub(call.made)) * 1000;
    let alone = call_alone(experiment, call.request.min(1_000_000));
    (took / u128::from(alone.max(1))).min(u128::from(SLOWER - 1)) as u64
}

// How many of the values are those of calls that are done.
fn count_done(values: &[u64]) -> usize
    ensures { result ≤ length values.now }
{
    values.iter().filter(|value| **value != SLOWER).count()
}

// The figures of the calls of a range of lengths.
fn told(
    alloc: Global,
    experiment: &Experiment,
    calls: &[SimCall],
    above: u32,
    upto: u32,
) -> Result<Slowdowns, AllocError> {
    let mut values = Vec::new(alloc);
    for call in calls {
        if above < call.request && call.request <= upto {
            values.push(slowdown(experiment, call))?;
        }
    }
    values.sort()?;
    Ok(Slowdowns {
        from: above.saturating_add(1),
        to: upto,
        count: values.len(),
        done: count_done(&values),
        p50: rank_of(&values, 500, 1),
        p99: rank_of(&values, 990, FOR_990),
        p999: rank_of(&values, 999, FOR_999),
    })
}

// The longest message.
const LONGEST: u32 = 1_000_000;

// The greatest length of the calls: that of the table, unless calls are listed.
fn longest(experiment: &Experiment) -> u32
    ensures { result ≤ 1000000 }
{
    if experiment.listed.is_empty() {
        experiment.workload.longest()
    } else {
        LONGEST
    }
}

// The length up to which so many of the parts are; the last one has all lengths that are left.
fn bound_of(experiment: &Experiment, part: u32) -> u32
    requires some { 1 ≤ part }
    requires within { part ≤ experiment.now.load.parts }
{
    if part == experiment.load.parts {
        longest(experiment)
    } else {
        experiment.workload.bound(part, experiment.load.parts)
    }
}

impl Figures {
    /// Those of these calls, which are the ones that were measured.
    pub fn of(
        alloc: Global,
        experiment: &Experiment,
        calls: &[SimCall],
    ) -> Result<Figures, AllocError>
        ensures parts { IfOk result (λ figures. length figures.parts.items ≡ experiment.now.load.parts) }
    {
        let count = experiment.load.parts;
        let mut parts = Vec::with_capacity(alloc, count as usize)?;
        let mut above = 0;
        for part in 0..count {
            let upto = bound_of(experiment, part + 1);
            parts.push(told(alloc, experiment, calls, above, upto)?)?;
            above = upto;
        }
        let most = longest(experiment);
        let (first, second) = calls.split_at(calls.len() / 2);
        let first = told(alloc, experiment, first, 0, most)?;
        let second = told(alloc, experiment, second, 0, most)?;
        Ok(Figures {
            all: told(alloc, experiment, calls, 0, most)?,
            halves: [first, second],
            parts,
        })
    }
}
