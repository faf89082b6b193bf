// What was counted in a run.
ghost use Rattle.std.specs.Prelude.{◌≡◌, IfOk};
ghost use Rattle.simulate.specs.Rows.{names};
ghost use Rattle.simulate.specs.Columns.{taken_names, ended_names, fates_names, queues_names, most_names, means_names, shares_names};
ghost use Rattle.simulate.specs.Columns.{waits_names, totals_names};

use crate::cells::RowCell;
use crate::parts::{mean, nanos, part};
use crate::rows::{Column, add_head, add_line, named};
use crate::tally::Tally;
use crate::words::Format;
use experiment::Experiment;
use simulated_network::{LinkUse, RunOutcome, Waits, Window};
use std::alloc::{AllocError, Global};

/// What waited at all cards, or at all outputs, in bytes and nanoseconds.
#[derive(Clone, Copy)]
pub(crate) struct Queue {
    /// The most bytes at one of them.
    pub(crate) most: u64,
    /// The mean of the bytes at one, by their sum over time.
    pub(crate) mean: u64,
    /// The same mean, by the waits of packets.
    pub(crate) little: u64,
    /// The mean wait of a packet.
    pub(crate) wait_ns: u64,
}

/// The numbers of a run's window as they are printed: parts of links are 1000ths.
#[derive(Clone, Copy)]
pub(crate) struct LinkParts {
    pub(crate) offered: u64,
    pub(crate) up: u64,
    pub(crate) down: u64,
    pub(crate) hot: u64,
    pub(crate) data: u64,
    pub(crate) again: u64,
    pub(crate) control: u64,
    pub(crate) withheld: u64,
    pub(crate) wasted: u64,
    pub(crate) coming: u64,
    pub(crate) unsent: u64,
    pub(crate) empty: u64,
}

/// How long a window is, in picoseconds.
pub(crate) fn span(window: &Window) -> u64 {
    window.to.saturating_sub(window.from)
}

impl Queue {
    /// What waited in so much time of all links, in picoseconds.
    pub(crate) fn of(waits: &Waits, time: u128) -> Queue {
        Queue {
            most: waits.most,
            mean: mean(waits.area, time),
            little: mean(waits.weighted, time),
            wait_ns: nanos(mean(u128::from(waits.waited), u128::from(waits.begun))),
        }
    }
}

impl LinkParts {
    /// Those of a run.
    pub(crate) fn of(experiment: &Experiment, window: &Window) -> LinkParts {
        let time = window.links.time;
        let byte = u128::from(experiment.network.byte);
        let span = u128::from(span(window));
        let filled = |bytes: u64| part(u128::from(bytes).saturating_mul(byte), time);
        let LinkUse {
            taken,
            withheld,
            coming,
            unsent,
            empty,
            wasted,
            ..
        } = window.links;
        LinkParts {
            offered: filled(window.offered),
            up: part(window.up, time),
            down: part(taken, time),
            hot: part(u128::from(window.hottest.1), span),
            data: filled(window.data),
            again: filled(window.again),
            control: filled(window.control),
            withheld: part(withheld, time),
            wasted: part(wasted, time),
            coming: part(coming, time),
            unsent: part(unsent, time),
            empty: part(empty, time),
        }
    }
}

// The window, and what of the links was asked, offered and taken.
fn taken(experiment: &Experiment, outcome: &RunOutcome, seed: u64) -> [Column; 17]
    ensures { names result ≡ taken_names }
{
    let window = &outcome.window;
    let parts = LinkParts::of(experiment, window);
    let load = u64::from(experiment.load.load);
    [
        named("seed", RowCell::Number(seed)),
        named("window_ns", RowCell::Number(nanos(span(window)))),
        named("run_ns", RowCell::Number(nanos(outcome.ended))),
        named("asked", RowCell::Thousandths(load)),
        named("offered", RowCell::Thousandths(parts.offered)),
        named("up", RowCell::Thousandths(parts.up)),
        named("down", RowCell::Thousandths(parts.down)),
        named("hot_host", RowCell::Number(u64::from(window.hottest.0.0))),
        named("hot_down", RowCell::Thousandths(parts.hot)),
        named("data", RowCell::Thousandths(parts.data)),
        named("again", RowCell::Thousandths(parts.again)),
        named("control", RowCell::Thousandths(parts.control)),
        named("withheld", RowCell::Thousandths(parts.withheld)),
        named("wasted", RowCell::Thousandths(parts.wasted)),
        named("coming", RowCell::Thousandths(parts.coming)),
        named("unsent", RowCell::Thousandths(parts.unsent)),
        named("empty", RowCell::Thousandths(parts.empty)),
    ]
}

// How the calls that were measured ended, and the packets of the window.
fn ended(tally: &Tally, window: &Window) -> [Column; 8]
    ensures { names result ≡ ended_names }
{
    [
        named("done", RowCell::Number(tally.done)),
        named("failed", RowCell::Number(tally.failed)),
        named("open", RowCell::Number(tally.still_open)),
        named("resends", RowCell::Number(tally.resends)),
        named("again_bytes", RowCell::Number(tally.again)),
        named("bytes", RowCell::Number(tally.bytes)),
        named("packets", RowCell::Number(window.packets)),
        named("cutoffs", RowCell::Number(window.cutoffs)),
    ]
}

// What became of the packets of the whole run, and what went wrong in it.
fn fates(outcome: &RunOutcome) -> [Column; 12]
    ensures { names result ≡ fates_names }
{
    let (fates, trouble) = (&outcome.fates, &outcome.trouble);
    [
        named("sent", RowCell::Number(fates.sent)),
        named("repeated", RowCell::Number(fates.repeated)),
        named("delivered", RowCell::Number(fates.delivered)),
        named("lost", RowCell::Number(fates.lost)),
        named("full", RowCell::Number(fates.full)),
        named("old", RowCell::Number(fates.old)),
        named("under_way", RowCell::Number(outcome.under_way)),
        named("left_out", RowCell::Number(trouble.left_out)),
        named("dropped", RowCell::Number(trouble.dropped)),
        named("refused", RowCell::Number(trouble.refused)),
        named("held", RowCell::Number(trouble.held)),
        named("events", RowCell::Number(outcome.events)),
    ]
}

// What waited at cards and outputs.
fn queues(window: &Window) -> [Column; 8]
    ensures { names result ≡ queues_names }
{
    let cards = Queue::of(&window.cards, window.links.time);
    let outputs = Queue::of(&window.outputs, window.links.time);
    [
        named("card_most", RowCell::Number(cards.most)),
        named("card_mean", RowCell::Number(cards.mean)),
        named("card_little", RowCell::Number(cards.little)),
        named("card_wait_ns", RowCell::Number(cards.wait_ns)),
        named("out_most", RowCell::Number(outputs.most)),
        named("out_mean", RowCell::Number(outputs.mean)),
        named("out_little", RowCell::Number(outputs.little)),
        named("out_wait_ns", RowCell::Number(outputs.wait_ns)),
    ]
}

// The most bytes that waited at an output, by level.
fn most(window: &Window) -> [Column; 8]
    ensures { names result ≡ most_names }
{
    let most = |level: usize| RowCell::Number(window.levels[level].most);
    [
        named("most0", most(0)),
        named("most1", most(1)),
        named("most2", most(2)),
        named("most3", most(3)),
        named("most4", most(4)),
        named("most5", most(5)),
        named("most6", most(6)),
        named("most7", most(7)),
    ]
}

// The mean of the bytes that waited at an output, by level.
fn means(window: &Window) -> [Column; 8]
    ensures { names result ≡ means_names }
{
    let mean = |level: usize| RowCell::Number(mean(window.levels[level].area, window.links.time));
    [
        named("mean0", mean(0)),
        named("mean1", mean(1)),
        named("mean2", mean(2)),
        named("mean3", mean(3)),
        named("mean4", mean(4)),
        named("mean5", mean(5)),
        named("mean6", mean(6)),
        named("mean7", mean(7)),
    ]
}

/// The bytes that left all outputs in a window, of all levels.
pub(crate) fn passed(window: &Window) -> u128 {
    let mut sum: u128 = 0;
    for level in &window.levels {
        sum = sum.saturating_add(u128::from(level.passed));
    }
    sum
}

// Each level's share of the bytes that left outputs.
fn shares(window: &Window) -> [Column; 8]
    ensures { names result ≡ shares_names }
{
    let all = passed(window);
    let share = |level: usize| RowCell::Thousandths(part(
        u128::from(window.levels[level].passed),
        all,
    ));
    [
        named("share0", share(0)),
        named("share1", share(1)),
        named("share2", share(2)),
        named("share3", share(3)),
        named("share4", share(4)),
        named("share5", share(5)),
        named("share6", share(6)),
        named("share7", share(7)),
    ]
}

// The mean waits of a call that was measured, in nanoseconds: all of its pieces together in cards and at outputs, and its
// messages for grants and for credit.
fn waits(tally: &Tally) -> [Column; 4]
    ensures { names result ≡ waits_names }
{
    let count = u128::from(tally.count());
    let wait = |sum: u128| RowCell::Number(nanos(mean(sum, count)));
    [
        named("call_card_ns", wait(tally.in_card)),
        named("call_out_ns", wait(tally.at_output)),
        named("call_grant_ns", wait(tally.for_grant)),
        named("call_credit_ns", wait(tally.for_credit)),
    ]
}

// The columns of a run.
fn columns(
    alloc: Global,
    experiment: &Experiment,
    outcome: &RunOutcome,
    seed: u64,
) -> Result<Vec<Column>, AllocError>
    ensures { IfOk result (λ columns. names columns.items ≡ totals_names) }
{
    let window = &outcome.window;
    let tally = Tally::of(outcome, outcome.measured(&experiment.load));
    let mut columns = Vec::with_capacity(alloc, 73)?;
    columns.extend_from_slice(&taken(experiment, outcome, seed))?;
    columns.extend_from_slice(&ended(&tally, window))?;
    columns.extend_from_slice(&fates(outcome))?;
    columns.extend_from_slice(&queues(window))?;
    columns.extend_from_slice(&most(window))?;
    columns.extend_from_slice(&means(window))?;
    columns.extend_from_slice(&shares(window))?;
    columns.extend_from_slice(&waits(&tally))?;
    Ok(columns)
}

/// Adds the line of a run, behind the names of the columns if the run is the first one.
pub(crate) fn add_totals(
    alloc: Global,
    text: &mut String,
    format: Format,
    experiment: &Experiment,
    outcome: &RunOutcome,
    seed: u64,
    is_first: bool,
) -> Result<(), AllocError> {
    let columns = columns(alloc, experiment, outcome, seed)?;
    if is_first {
        add_head(text, format, &columns)?;
    }
    add_line(text, format, &columns)
}
