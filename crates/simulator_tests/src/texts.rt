// Each public function once, with values worked out by hand.
use experiment::{
    Amount, Draws, Experiment, ExperimentFault, Framing, PacketName, Step, Workload, Wrong, gap_of,
    read, wire_of_call,
};
use homa_io::MemSource;
use homa_plain::Settings;
use std::alloc::Global;
use std::process::Abort;

// The experiment of a text.
fn read_text(alloc: Global, text: &str) -> Result<Experiment, ExperimentFault> {
    let bytes = text.as_bytes().to_vec(alloc)?;
    read(alloc, &mut MemSource::new(bytes, Vec::new(alloc)))
}

#[test]
fn a_text_is_read(rt: HostRuntime) {
    let text =
        "# usual but for these\nhosts 4\nlength 1000\nload 800\nlink 10000\ncard srpt\nrestart 3 5\n";
    let Ok(experiment) = read_text(rt.alloc(), text) else {
        assert!(&rt; false);
        return;
    };
    assert_eq!(&rt; experiment.settings.hosts, 4);
    assert_eq!(&rt; wire_of_call(&experiment, 1000), 1102 + 110);
    assert_eq!(&rt; gap_of(&experiment, 1), 1212 * 1000);
    let (network, load) = (&experiment.network, &experiment.load);
    assert_eq!(&rt; Amount::Link.value(network, load), 10_000);
    assert_eq!(&rt; Amount::Load.value(network, load), 800);
    assert_eq!(&rt; Amount::Delay.word(), "delay");
    assert_eq!(&rt; Amount::Burst.range(), (1, 1000));
}

// The fault of a text.
fn is_refused(rt: &impl Abort, alloc: Global, text: &str, wanted: (u64, u32, Wrong)) {
    let (line, word, wrong) = wanted;
    let wanted = ExperimentFault::Said { line, word, wrong };
    match read_text(alloc, text) {
        Ok(_) => assert!(rt; false),
        Err(fault) => assert_eq!(rt; fault, wanted),
    }
}

#[test]
fn faults_have_their_places(rt: HostRuntime) {
    let alloc = rt.alloc();
    is_refused(&rt, alloc, "", (1, 1, Wrong::Nothing));
    is_refused(&rt, alloc, "\nlod 5\n", (2, 1, Wrong::UnknownName));
    is_refused(&rt, alloc, "load\n", (1, 2, Wrong::Missing));
    is_refused(&rt, alloc, "service 300\n", (1, 2, Wrong::Outside(0, 3)));
    is_refused(&rt, alloc, "hosts 4\nrestart 4 1\n", (2, 2, Wrong::Host));
    is_refused(&rt, alloc, "size 5 1\nsize 5 1\n", (2, 2, Wrong::NotAbove));
    is_refused(&rt, alloc, "load 5 5\n", (1, 3, Wrong::Extra));
}

#[test]
fn a_table_of_ten_lengths(rt: HostRuntime) {
    let step = Step {
        above: 0,
        upto: 10,
        share: 1,
    };
    let Ok(table) = Workload::of(rt.alloc(), step) else {
        assert!(&rt; false);
        return;
    };
    let framing = Framing::new(&Settings::usual(), 66);
    assert_eq!(&rt; framing.wire(1401), 1401 + 2 * 102);
    assert_eq!(&rt; table.mean_wire(&framing), 107_500);
    assert_eq!(&rt; (table.longest(), table.bound(1, 2)), (10, 5));
    assert_eq!(&rt; table.steps().len(), 1);
    assert!(&rt; table.draw(&mut Draws::new(1, 1)) <= 10);
}

#[test]
fn draws_go_by_the_name(rt: HostRuntime) {
    let name = PacketName {
        call: 1,
        kind: 0,
        offset: 0,
        times: 0,
    };
    let first = Draws::named(1, name).below(1_000_000);
    assert_eq!(&rt; Draws::named(1, name).below(1_000_000), first);
    assert!(&rt; Draws::new(1, 1).exponential(1000) <= 23_000);
    assert!(&rt; Draws::new(1, 1).is_in(1_000_000));
}
