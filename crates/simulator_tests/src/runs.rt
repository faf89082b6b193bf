// Whole runs, whose schedules were worked out by hand.
use experiment::{Experiment, ExperimentFault, read};
use homa_io::{MemSink, MemSource};
use homa_service::Suite;
use homa_world::World;
use simulated_network::RunOutcome;
use simulation::{Far, SimStop, Telling, simulate, suites};
use std::alloc::Global;
use std::process::Abort;

// Counts how often it is told how far a run is.
#[derive(Drop)]
struct Counted(u32);

impl Telling for Counted {
    ghost hears = { λ a far b. Unit {0} };

    fn tell(&mut self, _far: &Far) {
        self.0 = self.0.saturating_add(1);
    }
}

// The experiment of a text.
fn experiment_of(alloc: Global, text: &str) -> Result<Experiment, ExperimentFault> {
    let bytes = text.as_bytes().to_vec(alloc)?;
    read(alloc, &mut MemSource::new(bytes, Vec::new(alloc)))
}

// Runs an experiment, whose events the sink takes.
fn run_of(
    alloc: Global,
    experiment: &Experiment,
    sink: &mut MemSink,
) -> Result<RunOutcome, SimStop> {
    let boxes = suites(alloc)?;
    let mut heard = Counted(0);
    simulate::<Vec<Suite>, World<Suite>, MemSink, Counted>(
        alloc, experiment, 1, boxes, sink, true, &mut heard,
    )
}

// What is printed of a run of this experiment behind `go`, and what came of it.
fn printed(
    rt: &(impl Abort + AllocGlobal),
    text: &str,
    wanted: &str,
) -> Result<RunOutcome, SimStop> {
    let alloc = rt.alloc();
    let Ok(experiment) = experiment_of(alloc, text) else {
        assert!(rt; false, "no experiment");
        return Err(SimStop::NoMemory);
    };
    let mut sink = MemSink::new(alloc, 1_000_000, Vec::new(alloc))?;
    let ran = run_of(alloc, &experiment, &mut sink);
    let all = sink.bytes();
    let behind = all.len().saturating_sub(wanted.len());
    assert_eq!(rt; &all[behind..], wanted.as_bytes());
    ran
}

// A call of 3 bytes is made after 1,000 ns, and takes 105 bytes on the wire, which are 84 ns: 2,818 ns after the beginning it is at
// its server. Meanwhile the clock went on, after 2,500 ns; host 1 has its turn half a tick later. The response of 8 bytes takes 88 ns.
#[test]
fn a_call_is_a_schedule(rt: HostRuntime) -> Result<(), SimStop> {
    let text = "hosts 2\ncall 0 1 3 1000\n";
    let outcome = printed(
        &rt,
        text,
        "go\ncall 0 1 1 *3\nclock\nturn 0\ndeliver 0\nturn 1\ndeliver 1\n",
    )?;
    assert_eq!(rt; outcome.events, 6);
    assert_eq!(rt; outcome.fates.delivered, 2);
    Ok(())
}

#[test]
fn a_run_stops_at_its_own_limit(rt: HostRuntime) {
    let text = "hosts 2\ncall 0 1 3 1000\nevents 3\n";
    let stop = printed(&rt, text, "go\ncall 0 1 1 *3\nclock\nturn 0\n").err();
    assert_eq!(rt; stop, Some(SimStop::Events));
}
