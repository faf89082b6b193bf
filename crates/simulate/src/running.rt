// The runs of an experiment, one for each seed, and what is printed of them.
use crate::call_rows::{add_call, add_call_head};
use crate::progress::Hearing;
use crate::slowdown_rows::{add_slowdown_head, add_slowdowns, add_spreads};
use crate::summary::{add_means, add_summary};
use crate::totals::add_totals;
use crate::values::values;
use crate::warnings::{Warning, from_memory, halves_apart, many_cutoffs, rate_over_link};
use crate::words::{Report, Wanted};
use call_figures::Figures;
use experiment::Experiment;
use homa_io::{Sink, write_all};
use homa_service::Suite;
use homa_world::World;
use simulated_network::RunOutcome;
use simulation::{SimStop, simulate, suites};
use std::alloc::{AllocError, Global};
use std::fmt::Write;

/// What is to be done: the experiment, and what is asked of its runs.
#[derive(Clone, Copy)]
pub(crate) struct Job<'a> {
    pub(crate) alloc: Global,
    pub(crate) experiment: &'a Experiment,
    pub(crate) asked: Wanted,
}

// The run of a seed. If a schedule is asked, the sink takes its events.
fn run_of<K: Sink, T: Hearing>(
    job: &Job<'_>,
    sink: &mut K,
    telling: &mut T,
    seed: u64,
) -> Result<RunOutcome, SimStop> {
    let load = &job.experiment.load;
    telling.begin(seed, u64::from(load.warm) + u64::from(load.calls));
    let services = suites(job.alloc)?;
    simulate::<Vec<Suite>, World<Suite>, K, T>(
        job.alloc,
        job.experiment,
        seed,
        services,
        sink,
        matches!(job.asked.report, Report::Schedule),
        telling,
    )
}

// Tells a warning on standard error, and on the page for people.
fn warn<E: Eprint>(
    job: &Job<'_>,
    text: &mut String,
    notes: &E,
    warning: Option<Warning>,
) -> Result<(), AllocError> {
    let Some(warning) = warning else {
        return Ok(());
    };
    let _ = eprintln!(notes; "homa-simulate: warning: {warning}");
    if matches!(job.asked.report, Report::Summary) {
        writeln!(text, "warning: {warning}")?;
    }
    Ok(())
}

// Adds all values of the experiment, and the warnings that they give.
fn add_beginning<E: Eprint>(job: &Job<'_>, text: &mut String, notes: &E) -> Result<(), AllocError> {
    let memory = from_memory(job.experiment);
    let note = match job.asked.report {
        Report::Summary => None,
        _ => memory,
    };
    let values = values(job.alloc, job.asked.format, job.experiment, note)?;
    text.push_str(values.as_str())?;
    warn(job, text, notes, memory)?;
    warn(job, text, notes, rate_over_link(job.experiment))
}

// Adds what is asked of the run of the seed at a place, but for its calls.
fn add_run(
    job: &Job<'_>,
    text: &mut String,
    outcome: &RunOutcome,
    figures: &Figures,
    at: u32,
) -> Result<(), AllocError> {
    let (alloc, experiment, format) = (job.alloc, job.experiment, job.asked.format);
    let (seed, is_first) = (experiment.load.seed + u64::from(at), at == 0);
    match job.asked.report {
        Report::Summary => add_summary(alloc, text, experiment, outcome, figures, seed),
        Report::Figures => {
            if is_first {
                add_slowdown_head(text, format, figures)?;
            }
            add_slowdowns(text, format, figures, seed)
        }
        Report::Totals => add_totals(alloc, text, format, experiment, outcome, seed, is_first),
        Report::Calls if is_first => add_call_head(text, format, experiment, outcome),
        Report::Calls | Report::Schedule => Ok(()),
    }
}

// Writes a text, which then is empty.
fn put<K: Sink>(sink: &mut K, text: &mut String) -> Result<(), SimStop> {
    write_all(sink, text.as_bytes())?;
    text.clear();
    Ok(())
}

// Writes the lines of the calls of a run, one at a time.
fn put_calls<K: Sink>(
    job: &Job<'_>,
    sink: &mut K,
    text: &mut String,
    outcome: &RunOutcome,
    seed: u64,
) -> Result<(), SimStop> {
    let (experiment, format) = (job.experiment, job.asked.format);
    for call in outcome.measured(&experiment.load) {
        add_call(text, format, experiment, outcome, seed, call)?;
        put(sink, text)?;
    }
    Ok(())
}

// Runs the seed at a place, and prints what is asked of it.
fn put_run<K: Sink, E: Eprint, T: Hearing>(
    job: &Job<'_>,
    sink: &mut K,
    text: &mut String,
    notes: &E,
    telling: &mut T,
    at: u32,
) -> Result<Figures, SimStop> {
    let load = &job.experiment.load;
    let seed = load.seed + u64::from(at);
    let outcome = run_of(job, sink, telling, seed)?;
    let figures = Figures::of(job.alloc, job.experiment, outcome.measured(load))?;
    add_run(job, text, &outcome, &figures, at)?;
    put(sink, text)?;
    if matches!(job.asked.report, Report::Calls) {
        put_calls(job, sink, text, &outcome, seed)?;
    }
    warn(job, text, notes, many_cutoffs(seed, &outcome.window))?;
    Ok(figures)
}

// Adds what is asked of all runs together.
fn add_end<E: Eprint>(
    job: &Job<'_>,
    text: &mut String,
    notes: &E,
    all: &[Figures],
) -> Result<(), AllocError> {
    let (alloc, format) = (job.alloc, job.asked.format);
    let parts = job.experiment.load.parts;
    if all.len() > 1 {
        match job.asked.report {
            Report::Summary => add_means(alloc, text, all, parts)?,
            Report::Figures => add_spreads(alloc, text, format, all, parts)?,
            Report::Totals | Report::Calls | Report::Schedule => {}
        }
    }
    let warning = halves_apart(alloc, all)?;
    warn(job, text, notes, warning)
}

// How many runs there are: a schedule is that of the first seed.
fn seeds(job: &Job<'_>) -> u32 {
    match job.asked.report {
        Report::Schedule => 1,
        _ => job.experiment.load.seeds,
    }
}

/// Runs an experiment for each of its seeds, and prints what is asked.
pub(crate) fn run<K: Sink, E: Eprint, T: Hearing>(
    job: &Job<'_>,
    sink: &mut K,
    notes: &E,
    telling: &mut T,
) -> Result<(), SimStop> {
    let mut text = String::new(job.alloc);
    add_beginning(job, &mut text, notes)?;
    put(sink, &mut text)?;
    let mut all = Vec::new(job.alloc);
    for at in 0..seeds(job) {
        let figures = put_run(job, sink, &mut text, notes, telling, at)?;
        all.push(figures).map_err(AllocError::from)?;
    }
    add_end(job, &mut text, notes, &all)?;
    put(sink, &mut text)
}
