// What a reader of figures has to know before they are believed.
ghost use Rattle.std.specs.Prelude.{◌≡◌, ◌<◌, ◌*◌, ◌↔◌, IsSome, IsTrue};
ghost use Rattle.std.specs.Option.{option_map};
ghost use Rattle.simulate.specs.Warnings.{carried, are_apart};

use crate::cells::Thousandths;
use crate::slowdown_rows::{Group, spread_over};
use call_figures::{Figures, Interval, Rank};
use experiment::{Experiment, Framing};
use simulated_network::Window;
use std::alloc::{AllocError, Global};
use std::fmt;

/// Why figures may not say what they seem to say.
#[derive(Clone, Copy)]
pub(crate) enum Warning {
    /// The lengths are those of one of the five workloads.
    FromMemory(u32),
    /// A host may send more bytes of payload a tick than its link carries.
    RateOverLink {
        rate: u32,
        carries: u64,
    },
    /// More than a tenth of the packets of a seed's window are CUTOFFS.
    Cutoffs {
        seed: u64,
        cutoffs: u64,
        packets: u64,
    },
    /// A rank of the halves of the calls differs by more than the intervals of both.
    Halves {
        rank: &'static str,
        first: u64,
        second: u64,
    },
}

impl fmt::Display for Warning {
    fn fmt<W: fmt::Write>(&self, f: &mut fmt::Formatter<W>) -> fmt::Result {
        match *self {
            Warning::FromMemory(number) => write!(f, "the lengths of W{number} are from memory"),
            Warning::RateOverLink { rate, carries } => write!(
                f,
                "a host may send {rate} bytes a tick (`rate`), and its link carries {carries} of them"
            ),
            Warning::Cutoffs {
                seed,
                cutoffs,
                packets,
            } => write!(
                f,
                "seed {seed}: {cutoffs} of {packets} packets are CUTOFFS, more than a tenth"
            ),
            Warning::Halves {
                rank,
                first,
                second,
            } => {
                let (first, second) = (Thousandths(first), Thousandths(second));
                write!(
                    f,
                    "{rank} of both halves of the calls differs by more than its intervals: {first}, {second}"
                )
            }
        }
    }
}

/// That the lengths are from memory, if they are.
pub(crate) fn from_memory(experiment: &Experiment) -> Option<Warning>
    ensures { result ≡ option_map (λ number. Warning.FromMemory number) experiment.now.numbered }
{
    match experiment.numbered {
        Some(number) => Some(Warning::FromMemory(number)),
        None => None,
    }
}

// How many bytes of payload a link carries in a tick, in full frames.
fn carried(experiment: &Experiment) -> u64
    ensures { result ≡ carried experiment.now }
{
    let network = &experiment.network;
    let framing = Framing::new(&experiment.settings, network.overhead);
    let seg = experiment.settings.seg;
    network.tick / network.byte * u64::from(seg) / framing.wire(seg).max(1)
}

/// That `rate` is above what a link carries in a tick, if it is.
pub(crate) fn rate_over_link(experiment: &Experiment) -> Option<Warning>
    ensures { IsSome result ↔ (carried experiment.now < experiment.now.settings.rate) }
{
    let (rate, carries) = (experiment.settings.rate, carried(experiment));
    if u64::from(rate) > carries {
        Some(Warning::RateOverLink { rate, carries })
    } else {
        None
    }
}

/// That more than a tenth of the packets of a window are CUTOFFS, if they are.
pub(crate) fn many_cutoffs(seed: u64, window: &Window) -> Option<Warning>
    ensures { IsSome result ↔ (window.now.packets < window.now.cutoffs * 10) }
{
    let (cutoffs, packets) = (window.cutoffs, window.packets);
    if u128::from(cutoffs) * 10 > u128::from(packets) {
        Some(Warning::Cutoffs {
            seed,
            cutoffs,
            packets,
        })
    } else {
        None
    }
}

// That two means are further apart than both of their intervals reach, if they are.
fn apart(rank: &'static str, first: &Interval, second: &Interval) -> Option<Warning>
    ensures { IsSome result ↔ IsTrue (are_apart first.now.mean first.now.off second.now.mean second.now.off) }
{
    let (Rank::At(a), Rank::At(b)) = (first.mean, second.mean) else {
        return None;
    };
    let (Rank::At(p), Rank::At(q)) = (first.off, second.off) else {
        return None;
    };
    if a.abs_diff(b) > p.saturating_add(q) {
        Some(Warning::Halves {
            rank,
            first: a,
            second: b,
        })
    } else {
        None
    }
}

/// That the halves of the calls of all runs differ, in p50 or else in p99, if they do.
pub(crate) fn halves_apart(alloc: Global, all: &[Figures]) -> Result<Option<Warning>, AllocError> {
    let first = spread_over(alloc, all, Group::First)?;
    let second = spread_over(alloc, all, Group::Second)?;
    let (Some(first), Some(second)) = (first, second) else {
        return Ok(None);
    };
    match apart("p50", &first.p50, &second.p50) {
        Some(warning) => Ok(Some(warning)),
        None => Ok(apart("p99", &first.p99, &second.p99)),
    }
}
