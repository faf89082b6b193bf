// Each public function, with values worked out by hand.
use call_figures::{
    CallEnd, Figures, Interval, Rank, SimCall, SimCalls, Transfer, Transfers, call_alone,
    message_alone, rank_of, response_to,
};
use experiment::{Experiment, read};
use homa_io::MemSource;
use homa_plain::{CallId, HostId};
use std::alloc::Global;
use std::process::Abort;

// The experiment of a text.
fn experiment_of(rt: &impl Abort, alloc: Global, text: &str) -> Experiment {
    let bytes = text.as_bytes().to_vec(alloc).expect(rt, "no memory");
    let mut source = MemSource::new(bytes, Vec::new(alloc));
    read(alloc, &mut source).expect(rt, "no experiment")
}

// The call of host 0 with a sequence number, which ended after a span.
fn call(seq: u32, request: u32, span: u64, end: CallEnd) -> SimCall {
    SimCall {
        id: CallId {
            client: HostId(0),
            inc: 1,
            seq,
        },
        server: HostId(1),
        request,
        drawn: seq,
        made: 0,
        first: None,
        ran: None,
        ended: span,
        end,
        resends: 0,
        controls: 0,
    }
}

#[test]
fn a_rank_is_the_nearest(rt: HostRuntime) {
    let values = [1, 2, 3, 4];
    assert_eq!(&rt; rank_of(&values, 500, 1), Rank::At(2));
    assert_eq!(&rt; rank_of(&values, 501, 1), Rank::At(3));
    assert_eq!(&rt; rank_of(&values, 990, 100), Rank::Few);
    assert_eq!(&rt; rank_of(&[1, u64::MAX], 990, 1), Rank::Slower);
}

#[test]
fn an_interval_is_student_s(rt: HostRuntime) {
    let values = [Rank::At(1000), Rank::At(2000), Rank::At(3000)];
    let wanted = Interval {
        mean: Rank::At(2000),
        off: Rank::At(2482),
    };
    assert_eq!(&rt; Interval::of(&values), wanted);
}

#[test]
fn a_call_alone_takes_its_frames(rt: HostRuntime) {
    let experiment = experiment_of(&rt, rt.alloc(), "length 1000\nparts 1\n");
    assert_eq!(&rt; message_alone(&experiment, 1000), 3_413_200);
    assert_eq!(&rt; message_alone(&experiment, 2800), 5_254_800);
    assert_eq!(&rt; response_to(&experiment, 1000), 8);
    assert_eq!(&rt; call_alone(&experiment, 1000), 5_239_200);
    let calls = [
        call(0, 1000, 5_239_200, CallEnd::Done),
        call(1, 1000, 10_478_400, CallEnd::Done),
        call(2, 1000, 0, CallEnd::Open),
    ];
    let figures = Figures::of(rt.alloc(), &experiment, &calls).expect(&rt, "no memory");
    assert_eq!(&rt; (figures.all.count, figures.all.done), (3, 2));
    assert_eq!(&rt; figures.all.p50, Rank::At(2000));
    assert_eq!(&rt; figures.halves[0].p50, Rank::At(1000));
}

#[test]
fn calls_are_found_in_each_life(rt: HostRuntime) {
    let mut calls = SimCalls::new(rt.alloc(), 2).expect(&rt, "no memory");
    let first = call(0, 10, 0, CallEnd::Open);
    assert!(&rt; calls.make(first.id, first).is_ok());
    assert!(&rt; calls.begin_life(HostId(0), 2).is_ok());
    let later = SimCall {
        id: CallId { inc: 2, ..first.id },
        ..first
    };
    assert!(&rt; calls.make(later.id, later).is_ok());
    assert_eq!(&rt;
        (calls.place(first.id), calls.place(later.id)),
        (Some(0), Some(1))
    );
    let ended = SimCall {
        end: CallEnd::Done,
        ..later
    };
    calls.set(1, ended);
    assert_eq!(&rt;
        (calls.at(1), calls.count(), calls.all().len()),
        (Some(ended), 2, 2)
    );
    assert_eq!(&rt;
        (later.sender(false), later.sender(true)),
        (HostId(0), HostId(1))
    );
}

#[test]
fn messages_stand_by_call_and_side(rt: HostRuntime) {
    let mut transfers = Transfers::new(rt.alloc());
    let mut request = Transfer::begun(3000, 1000, 5);
    assert!(&rt; transfers.begin(request, Transfer::unknown()).is_ok());
    assert!(&rt; !request.sends(7, 0, 1000) && request.is_short());
    request.clears(9, 2000);
    request.grants(3000);
    assert!(&rt; request.sends(12, 500, 1000) && !request.is_short());
    assert_eq!(&rt;
        (request.for_credit, request.for_grant, request.again),
        (5, 2, 500)
    );
    transfers.set(0, false, request);
    assert_eq!(&rt; transfers.message(0, false), Some(request));
    assert_eq!(&rt; transfers.message(0, true), Some(Transfer::unknown()));
}
