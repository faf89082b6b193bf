// A page for people.
use crate::cells::{RowCell, Thousandths, add_cell};
use crate::parts::{mean, nanos, part};
use crate::slowdown_rows::{Group, Spread, spread_of, spread_over};
use crate::tally::Tally;
use crate::totals::{LinkParts, Queue, passed, span};
use call_figures::{Figures, Interval};
use experiment::Experiment;
use simulated_network::{RunOutcome, Waits, Window};
use std::alloc::{AllocError, Global};
use std::fmt::Write;

// What of the links was asked, offered and taken in the window.
fn add_taken(
    text: &mut String,
    experiment: &Experiment,
    window: &Window,
) -> Result<(), AllocError> {
    let it = LinkParts::of(experiment, window);
    let (asked, offered) = (
        Thousandths(u64::from(experiment.load.load)),
        Thousandths(it.offered),
    );
    let (up, down, data) = (
        Thousandths(it.up),
        Thousandths(it.down),
        Thousandths(it.data),
    );
    let (again, control) = (Thousandths(it.again), Thousandths(it.control));
    let (host, hot) = (window.hottest.0.0, Thousandths(it.hot));
    writeln!(
        text,
        "  load      asked {asked}, offered {offered} (frames of requests and responses)"
    )?;
    writeln!(
        text,
        "  links     taken {up} up, {down} down: data {data}, sent again {again}, control {control}"
    )?;
    writeln!(text, "  hottest   the link to host {host}: taken {hot}")
}

// How the links to hosts were idle in the window.
fn add_idle(text: &mut String, experiment: &Experiment, window: &Window) -> Result<(), AllocError> {
    let it = LinkParts::of(experiment, window);
    let (withheld, wasted) = (Thousandths(it.withheld), Thousandths(it.wasted));
    let (coming, unsent, empty) = (
        Thousandths(it.coming),
        Thousandths(it.unsent),
        Thousandths(it.empty),
    );
    writeln!(
        text,
        "  idle      withheld {withheld}, coming {coming}, unsent {unsent}, empty {empty}; wasted {wasted}"
    )
}

// How the calls that were measured ended, and how long they waited.
fn add_calls(
    text: &mut String,
    experiment: &Experiment,
    outcome: &RunOutcome,
) -> Result<(), AllocError> {
    let it = Tally::of(outcome, outcome.measured(&experiment.load));
    let (done, failed, open, resends) = (it.done, it.failed, it.still_open, it.resends);
    let (again, bytes) = (it.again, it.bytes);
    let count = u128::from(it.count());
    let (card, output) = (
        nanos(mean(it.in_card, count)),
        nanos(mean(it.at_output, count)),
    );
    let (grant, credit) = (
        nanos(mean(it.for_grant, count)),
        nanos(mean(it.for_credit, count)),
    );
    writeln!(
        text,
        "  calls     {done} done, {failed} failed, {open} open; {resends} RESENDs; {again} of {bytes} bytes sent again"
    )?;
    writeln!(
        text,
        "  waits     of a call, in ns: {card} in cards, {output} at outputs, {grant} for grants, {credit} for credit"
    )
}

// What waited in the cards or at the outputs.
fn add_queue(text: &mut String, name: &str, waits: &Waits, time: u128) -> Result<(), AllocError> {
    let Queue {
        most,
        mean,
        little,
        wait_ns,
    } = Queue::of(waits, time);
    writeln!(
        text,
        "  {name} at most {most} bytes, mean {mean} ({little} by waits); a packet waits {wait_ns} ns"
    )
}

// The outputs by level.
fn add_levels(text: &mut String, window: &Window) -> Result<(), AllocError> {
    let all = passed(window);
    for (number, level) in window.levels.iter().enumerate() {
        let (most, mean) = (level.most, mean(level.area, window.links.time));
        let share = Thousandths(part(u128::from(level.passed), all));
        writeln!(
            text,
            "  level {number}   at most {most} bytes, mean {mean}; {share} of all bytes"
        )?;
    }
    Ok(())
}

// What became of the packets of the whole run.
fn add_fates(text: &mut String, outcome: &RunOutcome) -> Result<(), AllocError> {
    let it = &outcome.fates;
    let (sent, repeated, delivered) = (it.sent, it.repeated, it.delivered);
    let (lost, full, old) = (it.lost, it.full, it.old);
    let under_way = outcome.under_way;
    writeln!(
        text,
        "  packets   {sent} sent, {repeated} repeated: {delivered} delivered, {lost} lost, {full} at a full output, {old} too old, {under_way} under way"
    )?;
    let it = &outcome.trouble;
    let (left_out, dropped, refused, held) = (it.left_out, it.dropped, it.refused, it.held);
    let events = outcome.events;
    writeln!(
        text,
        "  trouble   {left_out} calls left out, {dropped} requests dropped, {refused} messages refused, {held} turns held; {events} events"
    )
}

// Adds what stands in a column, at the right of so much room.
fn add_right(
    alloc: Global,
    text: &mut String,
    cell: RowCell,
    width: usize,
) -> Result<(), AllocError> {
    let mut word = String::new(alloc);
    add_cell(&mut word, cell)?;
    for _ in word.len()..width {
        text.push_str(" ")?;
    }
    text.push_str(word.as_str())
}

// Adds a rank with its interval.
fn add_interval(alloc: Global, text: &mut String, it: &Interval) -> Result<(), AllocError> {
    add_right(alloc, text, RowCell::Rank(it.mean), 11)?;
    text.push_str(" +- ")?;
    add_right(alloc, text, RowCell::Rank(it.off), 7)
}

// Adds the name of a group of calls: the lengths of a part.
fn add_group(
    alloc: Global,
    text: &mut String,
    group: Group,
    it: &Spread,
) -> Result<(), AllocError> {
    match group {
        Group::Part(_) => add_right(alloc, text, RowCell::Number(u64::from(it.to)), 14)?,
        Group::All => add_right(alloc, text, RowCell::Word("all"), 14)?,
        Group::First => add_right(alloc, text, RowCell::Word("first half"), 14)?,
        Group::Second => add_right(alloc, text, RowCell::Word("second half"), 14)?,
    }
    add_right(alloc, text, RowCell::Number(it.count), 10)
}

// Adds the line of a group in one run.
fn add_ranks(
    alloc: Global,
    text: &mut String,
    group: Group,
    it: &Spread,
) -> Result<(), AllocError> {
    add_group(alloc, text, group, it)?;
    add_right(alloc, text, RowCell::Rank(it.p50.mean), 11)?;
    add_right(alloc, text, RowCell::Rank(it.p99.mean), 11)?;
    add_right(alloc, text, RowCell::Rank(it.p999.mean), 11)?;
    text.push_str("\n")
}

// Adds the line of a group over several runs.
fn add_intervals(
    alloc: Global,
    text: &mut String,
    group: Group,
    it: &Spread,
) -> Result<(), AllocError> {
    add_group(alloc, text, group, it)?;
    add_interval(alloc, text, &it.p50)?;
    add_interval(alloc, text, &it.p99)?;
    add_interval(alloc, text, &it.p999)?;
    text.push_str("\n")
}

// Adds the line of a group in one run.
fn add_ranks_of(
    alloc: Global,
    text: &mut String,
    figures: &Figures,
    group: Group,
) -> Result<(), AllocError> {
    match group.of(figures) {
        Some(it) => add_ranks(alloc, text, group, &spread_of(&it)),
        None => Ok(()),
    }
}

// Adds the line of a group over several runs.
fn add_intervals_of(
    alloc: Global,
    text: &mut String,
    all: &[Figures],
    group: Group,
) -> Result<(), AllocError> {
    match spread_over(alloc, all, group)? {
        Some(it) => add_intervals(alloc, text, group, &it),
        None => Ok(()),
    }
}

// Adds the slowdowns of a run.
fn add_slowdowns(alloc: Global, text: &mut String, figures: &Figures) -> Result<(), AllocError> {
    text.push_str("  bytes up to     calls        p50        p99      p99.9  (slowdown)\n")?;
    for part in 0..figures.parts.len() {
        add_ranks_of(alloc, text, figures, Group::Part(part))?;
    }
    add_ranks_of(alloc, text, figures, Group::First)?;
    add_ranks_of(alloc, text, figures, Group::Second)?;
    add_ranks_of(alloc, text, figures, Group::All)
}

// Adds what is known of the window.
fn add_window(
    text: &mut String,
    experiment: &Experiment,
    window: &Window,
) -> Result<(), AllocError> {
    let span = nanos(span(window));
    writeln!(
        text,
        " in the window of {span} ns, from the first measured call until the one behind the last"
    )?;
    add_taken(text, experiment, window)?;
    add_idle(text, experiment, window)?;
    add_queue(text, "cards    ", &window.cards, window.links.time)?;
    add_queue(text, "outputs  ", &window.outputs, window.links.time)?;
    add_levels(text, window)?;
    let (packets, cutoffs) = (window.packets, window.cutoffs);
    writeln!(
        text,
        "  packets   {packets}, of which {cutoffs} are CUTOFFS"
    )
}

/// Adds the page of a run.
pub(crate) fn add_summary(
    alloc: Global,
    text: &mut String,
    experiment: &Experiment,
    outcome: &RunOutcome,
    figures: &Figures,
    seed: u64,
) -> Result<(), AllocError> {
    writeln!(text, "seed {seed}")?;
    add_window(text, experiment, &outcome.window)?;
    let whole = nanos(outcome.ended);
    writeln!(text, " over the whole run of {whole} ns")?;
    add_fates(text, outcome)?;
    writeln!(text, " of the measured calls")?;
    add_calls(text, experiment, outcome)?;
    add_slowdowns(alloc, text, figures)
}

/// Adds the means over several runs, with their intervals.
pub(crate) fn add_means(
    alloc: Global,
    text: &mut String,
    all: &[Figures],
    parts: u32,
) -> Result<(), AllocError> {
    text.push_str("all seeds: slowdowns with 95% intervals\n")?;
    text.push_str(
        "  bytes up to     calls                   p50                   p99                 p99.9\n",
    )?;
    for part in 0..parts as usize {
        add_intervals_of(alloc, text, all, Group::Part(part))?;
    }
    add_intervals_of(alloc, text, all, Group::First)?;
    add_intervals_of(alloc, text, all, Group::Second)?;
    add_intervals_of(alloc, text, all, Group::All)
}
