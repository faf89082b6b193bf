// One call between two hosts, through the exports: that a host opens, that a call succeeds, and how it ends. The expected
// numbers are those of the usual settings, and of the packets' layout.
use crate::entries::{HomaAsked, HomaCall, HomaEntry, HomaMore};
use crate::exports::{homa_call, homa_close, homa_deliver, homa_next_turn, homa_open, homa_turn};
use crate::handle::Handle;
use crate::handle::slot::Slot;
use crate::knows::{homa_count, homa_last, homa_live, homa_version};
use crate::late::{homa_answer, homa_decline, homa_open_late};
use crate::settings::{HomaSettings, homa_service, homa_usual, homa_wrong_setting};
use crate::shows::{
    HomaFrame, homa_entries, homa_entry, homa_entry_more, homa_frame, homa_frame_level,
    homa_frames, homa_whole, homa_whole_len,
};
use std::alloc::Global;
use std::process::Abort;
use std::test::*;

const CLIENT: u16 = 0;

const SERVER: u16 = 1;

fn usual() -> HomaSettings {
    let mut settings = HomaSettings {
        hosts: 0,
        seg: 0,
        window: 0,
        unsched: 0,
        overcommit: 0,
        rate: 0,
        resend: 0,
        tries: 0,
        life: 0,
        pages: 0,
        calls: 0,
        served: 0,
        rebalance: 0,
        skew: 0,
        wire: 0,
    };
    homa_service(&mut settings);
    homa_usual(&mut settings);
    settings
}

fn no_call() -> HomaCall {
    HomaCall {
        client: 9,
        inc: 9,
        seq: 9,
    }
}

fn nobody() -> HomaAsked {
    HomaAsked {
        id: no_call(),
        service: 9,
    }
}

// A host of the usual settings, in incarnation 3, whose clock stands at 5.
fn opened(rt: &impl Abort, alloc: Global, id: u16) -> Handle {
    let mut host = Handle {
        slot: Slot::none(alloc),
        is_open: false,
    };
    assert!(rt; homa_open(alloc, &usual(), id, 3, 5, &mut host) == 0);
    assert!(rt; host.is_open);
    assert!(rt; homa_open(alloc, &usual(), id, 3, 5, &mut host) == 17);
    assert!(rt; homa_last(&mut host) == 5);
    host
}

// A datagram of which the first `len` bytes of this room are.
#[derive(Drop)]
struct Datagram {
    room: [u8; 1500],
    len: usize,
}

// The only frame of a host's last step.
fn only_frame(rt: &impl Abort, host: &mut Handle, from: u16, to: u16) -> Datagram {
    let mut room = [0; 1500];
    let mut info = HomaFrame {
        from: 9,
        to: 9,
        len: 0,
    };
    assert!(rt; homa_frames(host) == 1);
    assert!(rt; homa_frame(host, 0, &mut room, &mut info) == 0);
    assert!(rt; info.from == from && info.to == to);
    assert!(rt; homa_frame(host, 1, &mut room, &mut info) == 25);
    assert!(rt; homa_frame_level(host, 0) == u32::from(room[3]));
    Datagram {
        room,
        len: info.len,
    }
}

// The first entry of a host's last step: its kind, its service, its call's number and its number, and the other host.
fn first(rt: &impl Abort, host: &mut Handle) -> (u32, u32, u32, usize, u16) {
    let mut entry = HomaEntry {
        kind: 99,
        service: 99,
        id: no_call(),
        len: 99,
    };
    let mut more = HomaMore { peer: 99, at: 99 };
    assert!(rt; homa_entries(host) > 0);
    assert!(rt; homa_entry(host, 0, &mut entry) == 0);
    assert!(rt; homa_entry_more(host, 0, &mut more) == 0);
    assert!(rt; more.at == 0);
    (
        entry.kind,
        entry.service,
        entry.id.seq,
        entry.len,
        more.peer,
    )
}

// The client calls service 7 with "hello" at tick 6.
fn calls(rt: &impl Abort, alloc: Global, client: &mut Handle) -> Datagram {
    let mut id = no_call();
    assert!(rt; homa_call(alloc, client, CLIENT, 7, b"hello", 6, &mut id) == 19);
    assert!(rt; homa_call(alloc, client, SERVER, 7, b"hello", 4, &mut id) == 21);
    assert!(rt; homa_call(alloc, client, SERVER, 7, &[], 6, &mut id) == 22);
    assert!(rt; id.client == 9);
    assert!(rt; homa_call(alloc, client, SERVER, 7, b"hello", 6, &mut id) == 0);
    assert!(rt; id.client == CLIENT && id.inc == 3 && id.seq == 0);
    assert!(rt; homa_live(client) == 1);
    assert!(rt; first(rt, client) == (13, 7, 0, 5, SERVER));
    only_frame(rt, client, CLIENT, SERVER)
}

// It comes to the server, which answers "hi" at once.
fn answers(rt: &impl Abort, alloc: Global, server: &mut Handle, request: &Datagram) -> Datagram {
    let (mut asked, mut room, mut len) = (nobody(), [0; 8], 0);
    let frame = &request.room[..request.len.min(1500)];
    assert!(rt; homa_deliver(alloc, server, CLIENT, frame, 6, &[], &mut asked) == 1);
    assert!(rt; asked.service == 7 && asked.id.client == CLIENT && asked.id.seq == 0);
    assert!(rt; homa_entries(server) == 0);
    assert!(rt; homa_whole_len(server) == 5);
    assert!(rt; homa_whole(server, &mut room, &mut len) == 0);
    assert!(rt; room == *b"hello\0\0\0");
    assert!(rt; homa_deliver(alloc, server, CLIENT, frame, 6, b"hi", &mut asked) == 0);
    assert!(rt; first(rt, server) == (1, 7, 0, 5, CLIENT));
    assert!(rt; homa_count(server, 4) == 1 && homa_count(server, 5) == 1);
    assert!(rt; homa_count(server, 20) == 1);
    only_frame(rt, server, SERVER, CLIENT)
}

// The response comes to the client.
fn ends(rt: &impl Abort, alloc: Global, client: &mut Handle, response: &Datagram) {
    let (mut asked, mut room, mut len) = (nobody(), [0; 2], 0);
    let frame = &response.room[..response.len.min(1500)];
    assert!(rt; homa_deliver(alloc, client, SERVER, frame, 7, &[], &mut asked) == 0);
    assert!(rt; first(rt, client) == (2, 0, 0, 2, SERVER));
    assert!(rt; homa_whole(client, &mut room, &mut len) == 0);
    assert!(rt; room == *b"hi" && len == 2);
    assert!(rt; homa_live(client) == 0);
    assert!(rt; homa_count(client, 0) == 1 && homa_count(client, 1) == 1);
    assert!(rt; homa_count(client, 20) == 0);
}

#[test]
fn one_call(rt: HostRuntime) {
    let alloc = rt.alloc();
    let mut client = opened(&rt, alloc, CLIENT);
    let mut server = opened(&rt, alloc, SERVER);
    let request = calls(&rt, alloc, &mut client);
    let response = answers(&rt, alloc, &mut server, &request);
    ends(&rt, alloc, &mut client, &response);
    assert!(rt; homa_close(alloc, &mut client) == 0);
    assert!(rt; homa_close(alloc, &mut client) == 16);
    assert!(rt; homa_close(alloc, &mut server) == 0);
}

// It comes to a server that keeps what asks, and once more a tick later.
fn waits(rt: &impl Abort, alloc: Global, server: &mut Handle, request: &Datagram) -> HomaAsked {
    let (mut asked, mut again) = (nobody(), nobody());
    let frame = &request.room[..request.len.min(1500)];
    assert!(rt; homa_deliver(alloc, server, CLIENT, frame, 6, &[], &mut asked) == 1);
    assert!(rt; asked.service == 7 && asked.id.client == CLIENT && asked.id.seq == 0);
    assert!(rt; homa_deliver(alloc, server, CLIENT, frame, 7, &[], &mut again) == 6);
    assert!(rt; again.service == 9 && homa_entries(server) == 0 && homa_count(server, 19) == 1);
    asked
}

// The server answers "hi" at tick 7, once.
fn answers_later(
    rt: &impl Abort,
    alloc: Global,
    server: &mut Handle,
    asked: &HomaAsked,
) -> Datagram {
    assert!(rt; homa_answer(alloc, server, &asked.id, &[], 7) == 22);
    assert!(rt; homa_answer(alloc, server, &asked.id, b"hi", 7) == 0);
    assert!(rt; first(rt, server) == (1, 7, 0, 5, CLIENT));
    assert!(rt; homa_answer(alloc, server, &asked.id, b"hi", 7) == 8);
    assert!(rt; homa_decline(server, &asked.id) == 8 && homa_count(server, 19) == 0);
    only_frame(rt, server, SERVER, CLIENT)
}

#[test]
fn a_late_answer(rt: HostRuntime) {
    let alloc = rt.alloc();
    let mut client = opened(&rt, alloc, CLIENT);
    let mut server = Handle {
        slot: Slot::none(alloc),
        is_open: false,
    };
    assert!(rt; homa_open_late(alloc, &usual(), SERVER, 3, 5, 0, 20, &mut server) == 18);
    assert!(rt; homa_open_late(alloc, &usual(), SERVER, 3, 5, 2, 20, &mut server) == 0);
    let request = calls(&rt, alloc, &mut client);
    let asked = waits(&rt, alloc, &mut server, &request);
    let response = answers_later(&rt, alloc, &mut server, &asked);
    ends(&rt, alloc, &mut client, &response);
    assert!(rt; homa_close(alloc, &mut client) == 0);
    assert!(rt; homa_close(alloc, &mut server) == 0);
}

// Nobody answers: the client asks at tick 10, five times in all, and the call fails at tick 30.
#[test]
fn a_call_that_times_out(rt: HostRuntime) {
    let alloc = rt.alloc();
    let (mut client, mut at) = (opened(&rt, alloc, CLIENT), 0);
    let request = calls(&rt, alloc, &mut client);
    assert!(rt; request.len == 41);
    for now in 7..30 {
        assert!(rt; homa_next_turn(&mut client, &mut at) == 0);
        assert!(rt; at == (now + 1) / 4 * 4 + 2);
        assert!(rt; homa_turn(&mut client, now) == 0);
    }
    assert!(rt; homa_count(&mut client, 9) == 5 && homa_live(&mut client) == 1);
    assert!(rt; homa_turn(&mut client, 30) == 0);
    assert!(rt; first(&rt, &mut client) == (3, 0, 0, 0, 65_535));
    assert!(rt; homa_next_turn(&mut client, &mut at) == 9);
    assert!(rt; homa_turn(&mut client, 1_000_000_002_001) == 5);
    assert!(rt; homa_close(alloc, &mut client) == 0);
}

#[test]
fn settings_and_version(rt: HostRuntime) {
    let mut settings = usual();
    assert!(rt; homa_wrong_setting(&settings) == 0);
    settings.tries = 101;
    assert!(rt; homa_wrong_setting(&settings) == 8);
    assert!(rt; homa_version() == 0x100);
}
