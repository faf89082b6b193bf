// Runs of small experiments, with lines that a world could tell. Moments are worked out by hand.
use experiment::{Experiment, read};
use homa_io::MemSource;
use homa_plain::{Body, CallId, Entry, Event, HostId, Role};
use simulated_network::{RunStep, SentDatagram, SimulatedNetwork};
use std::alloc::Global;
use std::process::Abort;

// The experiment of a text.
fn experiment_of(rt: &impl Abort, alloc: Global, text: &str) -> Experiment {
    let bytes = text.as_bytes().to_vec(alloc).expect(rt, "no memory");
    let mut source = MemSource::new(bytes, Vec::new(alloc));
    read(alloc, &mut source).expect(rt, "no experiment")
}

// Whether a step is a call, or brings a packet, or is the last.
fn is_news(step: &RunStep) -> bool {
    match *step {
        RunStep::Over | RunStep::Call { .. } => true,
        RunStep::Event { event, .. } => matches!(event, Event::Deliver { .. }),
        RunStep::Inside => false,
    }
}

// The next step that is a call, or brings a packet, or is the last.
fn next_news(rt: &impl Abort, network: &mut SimulatedNetwork<'_>) -> RunStep {
    for _ in 0..10_000 {
        let step = network.next(0).expect(rt, "it stops");
        if is_news(&step) {
            return step;
        }
    }
    RunStep::Inside
}

const CALL: CallId = CallId {
    client: HostId(0),
    inc: 1,
    seq: 0,
};

// The first call is made.
fn make_call(rt: &impl Abort, network: &mut SimulatedNetwork<'_>) {
    let made = Entry::Call {
        id: CALL,
        server: HostId(1),
        service: 1,
        bytes: &[7; 100],
    };
    assert!(rt; network.heed(&made, None).is_ok());
}

// The first 100 bytes of its request, which has so many, go to its server in a datagram of 144 bytes.
fn send_request(rt: &impl Abort, network: &mut SimulatedNetwork<'_>, number: u64, length: u32) {
    let sent = Entry::Send {
        number,
        from: HostId(0),
        to: HostId(1),
        inc: 1,
        role: Role::Client,
        id: CALL,
        level: 7,
        body: Body::Data {
            length,
            offset: 0,
            version: 0,
            service: 1,
            ack: None,
        },
        payload: &[7; 100],
    };
    let datagram = SentDatagram { len: 144, tick: 0 };
    assert!(rt; network.heed(&sent, Some(datagram)).is_ok());
}

#[test]
fn a_packet_takes_its_bytes_on_two_links(rt: HostRuntime) {
    let text =
        "hosts 4\ndelay 700\nswitch 250\nhost-delay 0\nlink 10000\noverhead 66\ncall 0 1 100 5\n";
    let experiment = experiment_of(&rt, rt.alloc(), text);
    let mut network = SimulatedNetwork::open(rt.alloc(), &experiment, 1).expect(&rt, "no memory");
    let call = RunStep::Call {
        client: HostId(0),
        server: HostId(1),
        bytes: 100,
    };
    assert_eq!(&rt; next_news(&rt, &mut network), call);
    assert_eq!(&rt; (network.drawn(), network.now()), (1, 5000));
    make_call(&rt, &mut network);
    send_request(&rt, &mut network, 0, 100);
    let delivery = RunStep::Event {
        event: Event::Deliver { packet: 0 },
        bytes: 0,
    };
    assert_eq!(&rt; next_news(&rt, &mut network), delivery);
    assert_eq!(&rt; network.now(), 5000 + 2 * (210 * 800 + 700_000) + 250_000);
    let done = Entry::Done {
        id: CALL,
        bytes: &[7; 8],
    };
    assert!(&rt; network.heed(&done, None).is_ok());
    assert_eq!(&rt; next_news(&rt, &mut network), RunStep::Over);
    let outcome = network.finish(3);
    assert_eq!(&rt;
        (outcome.calls.count(), outcome.events, outcome.under_way),
        (1, 3, 0)
    );
    assert_eq!(&rt; (outcome.fates.sent, outcome.fates.delivered), (1, 1));
    assert_eq!(&rt; outcome.measured(&experiment.load).len(), 1);
    let window = &outcome.window;
    assert_eq!(&rt; (window.data, window.again, window.control), (210, 0, 0));
    assert_eq!(&rt; (window.links.taken, window.up), (168_000, 168_000));
    assert_eq!(&rt;
        window.links.idle(),
        (4 * u128::from(window.to.saturating_sub(window.from))).saturating_sub(168_000)
    );
}

// Goes on until a moment is over.
fn pass(rt: &impl Abort, network: &mut SimulatedNetwork<'_>, moment: u64) {
    for _ in 0..100 {
        if network.now() > moment {
            return;
        }
        let _ = network.next(0).expect(rt, "it stops");
    }
}

// The first piece comes to its server, which gives up the request at once. It comes again, and from then on the request is incomplete
// there. Turns are at 2,500, 3,125, 3,750 and 4,375 ns.
#[test]
fn a_request_that_was_given_up_may_come_anew(rt: HostRuntime) {
    let text =
        "hosts 4\ndelay 700\nswitch 250\nhost-delay 0\nlink 10000\noverhead 66\ntick 2500\ncall 0 1 100 5\n";
    let experiment = experiment_of(&rt, rt.alloc(), text);
    let mut network = SimulatedNetwork::open(rt.alloc(), &experiment, 1).expect(&rt, "no memory");
    let _ = next_news(&rt, &mut network);
    make_call(&rt, &mut network);
    send_request(&rt, &mut network, 0, 3000);
    let _ = next_news(&rt, &mut network);
    let given_up = Entry::Drop {
        host: HostId(1),
        id: CALL,
    };
    assert!(&rt; network.heed(&given_up, None).is_ok());
    send_request(&rt, &mut network, 1, 3000);
    let _ = next_news(&rt, &mut network);
    assert_eq!(&rt;
        network.now(),
        5000 + 2 * (2 * (210 * 800 + 700_000) + 250_000)
    );
    pass(&rt, &mut network, 3_977_000);
    let outcome = network.finish(3);
    assert_eq!(&rt; (outcome.trouble.dropped, outcome.ended), (1, 4_375_000));
    assert_eq!(&rt; outcome.window.links.unsent, 4_375_000 - 3_977_000);
}

#[test]
fn a_call_that_is_left_out_is_counted(rt: HostRuntime) {
    let experiment = experiment_of(&rt, rt.alloc(), "hosts 4\ncall 0 1 100 5\n");
    let mut network = SimulatedNetwork::open(rt.alloc(), &experiment, 1).expect(&rt, "no memory");
    let _ = next_news(&rt, &mut network);
    network.leaves_out();
    assert_eq!(&rt; next_news(&rt, &mut network), RunStep::Over);
    let outcome = network.finish(0);
    assert_eq!(&rt; (outcome.trouble.left_out, outcome.calls.count()), (1, 0));
}

// The two networks draw the same calls, of which the second makes none.
fn draw_the_same(
    rt: &impl Abort,
    first: &mut SimulatedNetwork<'_>,
    second: &mut SimulatedNetwork<'_>,
) {
    for _ in 0..20 {
        assert_eq!(rt; next_news(rt, first), next_news(rt, second));
        second.leaves_out();
        assert_eq!(rt; first.now(), second.now());
    }
}

#[test]
fn a_seed_draws_the_same_calls_whatever_the_settings(rt: HostRuntime) {
    let alloc = rt.alloc();
    let one = experiment_of(&rt, alloc, "hosts 4\nlength 1000\novercommit 1\n");
    let four = experiment_of(
        &rt,
        alloc,
        "hosts 4\nlength 1000\novercommit 4\ntick 5000\n",
    );
    let mut first = SimulatedNetwork::open(alloc, &one, 7).expect(&rt, "no memory");
    let mut second = SimulatedNetwork::open(alloc, &four, 7).expect(&rt, "no memory");
    draw_the_same(&rt, &mut first, &mut second);
    assert_eq!(&rt; (first.made(), second.drawn()), (0, 20));
}
