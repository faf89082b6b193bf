// Slowdowns by length, for each seed and over all of them.
ghost use Rattle.std.specs.Prelude.{◌≡◌};
ghost use Rattle.simulate.specs.Rows.{names};
ghost use Rattle.simulate.specs.Columns.{slowdown_names};

use crate::cells::RowCell;
use crate::rows::{Column, add_head, add_line, named};
use crate::words::Format;
use call_figures::{Figures, Interval, Rank, Slowdowns};
use std::alloc::{AllocError, Global};

/// Which of the calls that were measured a line is about.
#[derive(Clone, Copy)]
pub(crate) enum Group {
    /// Those of one part of the lengths, counted from 0.
    Part(usize),
    All,
    /// The first half of them.
    First,
    /// The second half.
    Second,
}

impl Group {
    // Its name.
    fn cell(self) -> RowCell {
        match self {
            Group::Part(part) => RowCell::Number((part as u64).saturating_add(1)),
            Group::All => RowCell::Word("all"),
            Group::First => RowCell::Word("half1"),
            Group::Second => RowCell::Word("half2"),
        }
    }

    /// What is known of it in a run, if there is such a part.
    pub(crate) fn of(self, figures: &Figures) -> Option<Slowdowns> {
        match self {
            Group::Part(part) => figures.parts.get(part).copied(),
            Group::All => Some(figures.all),
            Group::First => Some(figures.halves[0]),
            Group::Second => Some(figures.halves[1]),
        }
    }
}

/// A range of lengths over one or several seeds: the three ranks with their intervals, of which a single seed has none.
#[derive(Clone, Copy)]
pub(crate) struct Spread {
    pub(crate) from: u32,
    pub(crate) to: u32,
    pub(crate) count: u64,
    pub(crate) done: u64,
    pub(crate) p50: Interval,
    pub(crate) p99: Interval,
    pub(crate) p999: Interval,
}

// A rank of one seed.
fn single(rank: Rank) -> Interval {
    Interval {
        mean: rank,
        off: Rank::Few,
    }
}

/// What is known of a range of lengths in one run.
pub(crate) fn spread_of(it: &Slowdowns) -> Spread {
    Spread {
        from: it.from,
        to: it.to,
        count: it.count as u64,
        done: it.done as u64,
        p50: single(it.p50),
        p99: single(it.p99),
        p999: single(it.p999),
    }
}

// One of the three ranks.
#[derive(Clone, Copy)]
enum Which {
    P50,
    P99,
    P999,
}

// This rank.
fn rank_of(it: &Slowdowns, which: Which) -> Rank {
    match which {
        Which::P50 => it.p50,
        Which::P99 => it.p99,
        Which::P999 => it.p999,
    }
}

// The mean of a rank of a group over runs, with its interval.
fn interval(
    alloc: Global,
    all: &[Figures],
    group: Group,
    which: Which,
) -> Result<Interval, AllocError> {
    let mut ranks = Vec::with_capacity(alloc, all.len())?;
    for figures in all {
        if let Some(it) = group.of(figures) {
            ranks.push(rank_of(&it, which))?;
        }
    }
    Ok(Interval::of(&ranks))
}

// How many calls of a group there are in all runs, and how many of them are done.
fn counts(all: &[Figures], group: Group) -> (u64, u64) {
    let (mut count, mut done) = (0u64, 0u64);
    for figures in all {
        if let Some(it) = group.of(figures) {
            count = count.saturating_add(it.count as u64);
            done = done.saturating_add(it.done as u64);
        }
    }
    (count, done)
}

/// What is known of a group over all runs, if there is such a group.
pub(crate) fn spread_over(
    alloc: Global,
    all: &[Figures],
    group: Group,
) -> Result<Option<Spread>, AllocError> {
    let Some(first) = all.first() else {
        return Ok(None);
    };
    let Some(it) = group.of(first) else {
        return Ok(None);
    };
    let (count, done) = counts(all, group);
    Ok(Some(Spread {
        from: it.from,
        to: it.to,
        count,
        done,
        p50: interval(alloc, all, group, Which::P50)?,
        p99: interval(alloc, all, group, Which::P99)?,
        p999: interval(alloc, all, group, Which::P999)?,
    }))
}

// The columns of a group.
fn columns(seed: RowCell, group: Group, it: &Spread) -> [Column; 12]
    ensures { names result ≡ slowdown_names }
{
    [
        named("seed", seed),
        named("part", group.cell()),
        named("from", RowCell::Number(u64::from(it.from))),
        named("to", RowCell::Number(u64::from(it.to))),
        named("count", RowCell::Number(it.count)),
        named("done", RowCell::Number(it.done)),
        named("p50", RowCell::Rank(it.p50.mean)),
        named("p50_off", RowCell::Rank(it.p50.off)),
        named("p99", RowCell::Rank(it.p99.mean)),
        named("p99_off", RowCell::Rank(it.p99.off)),
        named("p999", RowCell::Rank(it.p999.mean)),
        named("p999_off", RowCell::Rank(it.p999.off)),
    ]
}

// Adds the line of a group in one run.
fn add_group(
    text: &mut String,
    format: Format,
    figures: &Figures,
    seed: u64,
    group: Group,
) -> Result<(), AllocError> {
    match group.of(figures) {
        Some(it) => add_line(
            text,
            format,
            &columns(RowCell::Number(seed), group, &spread_of(&it)),
        ),
        None => Ok(()),
    }
}

// Adds the line of a group over all runs.
fn add_spread(
    alloc: Global,
    text: &mut String,
    format: Format,
    all: &[Figures],
    group: Group,
) -> Result<(), AllocError> {
    match spread_over(alloc, all, group)? {
        Some(spread) => add_line(text, format, &columns(RowCell::Word("all"), group, &spread)),
        None => Ok(()),
    }
}

/// Adds the names of the columns.
pub(crate) fn add_slowdown_head(
    text: &mut String,
    format: Format,
    figures: &Figures,
) -> Result<(), AllocError> {
    let spread = spread_of(&figures.all);
    add_head(text, format, &columns(RowCell::Empty, Group::All, &spread))
}

/// Adds the lines of a run.
pub(crate) fn add_slowdowns(
    text: &mut String,
    format: Format,
    figures: &Figures,
    seed: u64,
) -> Result<(), AllocError> {
    for part in 0..figures.parts.len() {
        add_group(text, format, figures, seed, Group::Part(part))?;
    }
    add_group(text, format, figures, seed, Group::All)?;
    add_group(text, format, figures, seed, Group::First)?;
    add_group(text, format, figures, seed, Group::Second)
}

/// Adds the lines over all runs.
pub(crate) fn add_spreads(
    alloc: Global,
    text: &mut String,
    format: Format,
    all: &[Figures],
    parts: u32,
) -> Result<(), AllocError> {
    for part in 0..parts as usize {
        add_spread(alloc, text, format, all, Group::Part(part))?;
    }
    add_spread(alloc, text, format, all, Group::All)?;
    add_spread(alloc, text, format, all, Group::First)?;
    add_spread(alloc, text, format, all, Group::Second)
}
