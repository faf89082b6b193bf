// How far apart calls are, so that they fill the links as the load says.
ghost use Rattle.std.specs.Prelude.{◌≡◌, ◌≤◌, ◌+◌, ◌*◌, ◌^◌};
ghost use Rattle.experiment.specs.Wires.{cut_of, wire};
ghost use Rattle.experiment.specs.Tables.{after_lengths, wires_drawn};
ghost use Rattle.experiment.specs.Gaps.{cut_in, answer_length, mean_of_seed, mean_asked, bytes_at_once, gap_of};

use crate::draws::Draws;
use crate::framing::Framing;
use crate::load::Load;
use crate::trial::Experiment;
use crate::workload::Workload;

/// The stream of the moments of calls, and of their servers.
pub const ARRIVALS: u64 = 1;

/// The stream of the lengths of calls.
pub const LENGTHS: u64 = 2;

// The longest mean gap: 20 hours.
const MOST_GAP: u128 = 1 << 56;

// How an experiment's messages are cut.
fn framing_of(experiment: &Experiment) -> Framing
    ensures { cut_of result ≡ cut_in experiment.now }
{
    Framing::new(&experiment.settings, experiment.network.overhead)
}

// How many bytes the answer to a request of so many bytes has.
fn answer_to(load: &Load, length: u32) -> u32
    ensures answer { result ≡ answer_length load.now length }
    ensures most { length ≤ 1000000 → result ≤ 1000000 }
{
    if load.service == 1 { 8 } else { length }
}

/// How many bytes a call has on the wire, of both messages.
pub fn wire_of_call(experiment: &Experiment, length: u32) -> u64
    requires { length ≤ 1000000 }
    ensures wire { result ≡ wire (cut_in experiment.now) length + wire (cut_in experiment.now) (answer_length experiment.now.load length) }
    ensures most { result ≤ 2 ^ 40 }
{
    let framing = framing_of(experiment);
    framing.wire(length) + framing.wire(answer_to(&experiment.load, length))
}

// Draws so many lengths.
fn draw_lengths(workload: &Workload, draws: &mut Draws, n: u32)
    ensures { draws.new ≡ after_lengths n workload.now draws.old }
{
    'lengths: for _ in 0..n {
        workload.draw(draws);
    }
}

// The bytes that messages of the next so many lengths have on the wire.
fn wires(workload: &Workload, framing: &Framing, draws: &mut Draws, n: u32) -> u64
    requires { n ≤ 100000000 }
    ensures sum { result ≡ wires_drawn (cut_of framing.now) n workload.now draws.old }
    ensures most { result ≤ n * 2 ^ 34 }
{
    let mut sum = 0;
    'lengths: for _ in 0..n {
        let length = workload.draw(draws);
        let more = framing.wire(length);
        sum += more;
    }
    sum
}

// The mean of the bytes on the wire of the requests of a seed that are measured, in 1000ths: its lengths are drawn as a run draws them.
fn mean_of_seed(experiment: &Experiment, framing: &Framing, seed: u64) -> u64
    requires { cut_of framing.now ≡ cut_in experiment.now }
    ensures mean { result ≡ mean_of_seed experiment.now seed }
    ensures most { result ≤ 17179869184000 }
{
    let load = &experiment.load;
    let mut draws = Draws::new(seed, LENGTHS);
    draw_lengths(&experiment.workload, &mut draws, load.warm);
    let sum = wires(&experiment.workload, framing, &mut draws, load.calls);
    (u128::from(sum) * 1000 / u128::from(load.calls)) as u64
}

// The mean of the bytes on the wire of a request, in 1000ths: that of a seed's own lengths, or that of the table.
fn mean_asked(experiment: &Experiment, framing: &Framing, seed: u64) -> u64
    requires { cut_of framing.now ≡ cut_in experiment.now }
    ensures mean { result ≡ mean_asked experiment.now seed }
    ensures most { result ≤ 17179869184000 }
{
    if experiment.load.is_exact {
        mean_of_seed(experiment, framing, seed)
    } else {
        experiment.workload.mean_wire(framing)
    }
}

// The bytes on a link of a call, or of the calls of an incast, in 1000ths, where a request has so many.
fn bytes_at_once(experiment: &Experiment, framing: &Framing, asked: u64) -> u128
    requires framing { cut_of framing.now ≡ cut_in experiment.now }
    requires most { asked ≤ 17179869184000 }
    ensures bytes { result ≡ bytes_at_once experiment.now asked }
    ensures most { result ≤ 2 ^ 50 }
{
    let load = &experiment.load;
    let asked = u128::from(asked);
    if load.incast > 0 {
        asked * u128::from(load.incast)
    } else if load.service == 1 {
        asked + u128::from(framing.wire(8)) * 1000
    } else {
        asked * 2
    }
}

/// The mean span between two times at which a client makes calls, or all clients of an incast at once: it fills the links as the load
/// says, but is at most 20 hours.
pub fn gap_of(experiment: &Experiment, seed: u64) -> u64
    ensures gap { result ≡ gap_of experiment.now seed }
    ensures most { result ≤ 2 ^ 56 }
{
    let framing = framing_of(experiment);
    let asked = mean_asked(experiment, &framing, seed);
    let bytes = bytes_at_once(experiment, &framing, asked);
    let span = u128::from(experiment.network.byte) * u128::from(experiment.load.burst) * bytes;
    (span / u128::from(experiment.load.load)).min(MOST_GAP) as u64
}
