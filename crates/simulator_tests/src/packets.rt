// Packets whose ways are worked out by hand. A byte takes 800 ps; a link 700 ns; the switch 250 ns; a host 100 ns.
ghost use Rattle.std.specs.Prelude.{◌<◌};

use experiment::{PacketName, read};
use homa_io::MemSource;
use homa_plain::HostId;
use packet_network::{Fates, PacketCause, PacketNetwork, Reached, SimPacket, Task};
use std::alloc::Global;
use std::process::Abort;

const LINES: &str =
    "hosts 4\nlink 10000\ndelay 700\nswitch 250\nhost-delay 100\nbuffer 1000\ncard srpt\n";

// The network of these lines, and of further ones.
fn network(rt: &impl Abort, alloc: Global, more: &str) -> Option<PacketNetwork> {
    let mut bytes = LINES.as_bytes().to_vec(alloc).ok()?;
    bytes.extend_from_slice(more.as_bytes()).ok()?;
    let source = &mut MemSource::new(bytes, Vec::new(alloc));
    let experiment = read(alloc, source).ok();
    assert!(rt; experiment.is_some());
    PacketNetwork::open(alloc, &experiment?, 1).ok()
}

// A packet of so many bytes, whose message has so many left.
fn packet(from: u16, to: u16, bytes: u32, left: u32) -> SimPacket
    requires from { from < 32 }
    requires to { to < 32 }
{
    SimPacket {
        number: u64::from(left),
        tick: 0,
        came: 0,
        bytes,
        left,
        name: PacketName {
            call: left,
            kind: 0,
            offset: 0,
            times: 0,
        },
        piece: None,
        grant: None,
        from: HostId(from),
        to: HostId(to),
        level: 0,
        cause: PacketCause::Control,
    }
}

// The packets that come to their hosts from now on: how many, a sum of their numbers, each times its turn, and the moment of the last.
fn arrivals(network: &mut PacketNetwork) -> (u32, u64, u64) {
    let (mut many, mut sum, mut last) = (0u32, 0u64, 0);
    for _ in 0..1000 {
        if let Ok(Some(Reached::AtHost(packet))) = network.next() {
            many = many.saturating_add(1);
            sum = sum.saturating_add(packet.number.saturating_mul(u64::from(many)));
            last = network.now();
        }
    }
    (many, sum, last)
}

// What became of packets.
fn end(rt: &impl Abort, network: &PacketNetwork, wanted: (u64, u64, u64)) {
    let Fates {
        delivered,
        lost,
        full,
        ..
    } = network.fates();
    assert_eq!(rt; (delivered, lost, full), wanted);
    assert_eq!(rt; network.under_way(), 0);
}

#[test]
fn a_packet_alone_takes_its_time(rt: HostRuntime) {
    let Some(mut network) = network(&rt, rt.alloc(), "") else {
        return;
    };
    assert!(&rt; network.enter(5_000, Task::Clock).is_ok());
    assert_eq!(&rt; network.next(), Ok(Some(Reached::Task(Task::Clock))));
    assert!(&rt; network.send(packet(0, 1, 1000, 7)).is_ok());
    assert_eq!(&rt; network.under_way(), 1);
    assert_eq!(&rt;
        arrivals(&mut network),
        (1, 7, 5_000 + 2 * (800_000 + 700_000) + 250_000 + 100_000)
    );
    assert_eq!(&rt; network.card_taken(HostId(0)), 800_000);
    end(&rt, &network, (1, 0, 0));
    network.was_too_old();
    assert_eq!(&rt; network.fates().old, 1);
}

#[test]
fn a_full_output_drops_the_last(rt: HostRuntime) {
    let Some(mut network) = network(&rt, rt.alloc(), "") else {
        return;
    };
    assert!(&rt; network.send(packet(0, 3, 600, 1)).is_ok());
    assert!(&rt; network.send(packet(1, 3, 600, 2)).is_ok());
    assert!(&rt; network.send(packet(2, 3, 600, 3)).is_ok());
    assert_eq!(&rt;
        arrivals(&mut network),
        (2, 5, 3 * 480_000 + 1_400_000 + 350_000)
    );
    end(&rt, &network, (2, 0, 1));
    assert_eq!(&rt;
        (network.outputs().begun, network.outputs().waited),
        (2, 480_000)
    );
    assert_eq!(&rt;
        (network.level(0).passed, network.down().control),
        (1200, 1200)
    );
}

#[test]
fn the_fewest_bytes_left_go_first(rt: HostRuntime) {
    let Some(mut network) = network(&rt, rt.alloc(), "") else {
        return;
    };
    assert!(&rt; network.send(packet(0, 1, 100, 9)).is_ok());
    assert!(&rt; network.send(packet(0, 1, 100, 5)).is_ok());
    assert!(&rt; network.send(packet(0, 1, 100, 4)).is_ok());
    assert_eq!(&rt; network.card_bytes(HostId(0)), 200);
    assert_eq!(&rt; arrivals(&mut network).1, 9 + 2 * 4 + 3 * 5);
    end(&rt, &network, (3, 0, 0));
    assert_eq!(&rt; network.cards().weighted, 3 * 80_000 * 100);
    network.restart();
    assert_eq!(&rt;
        (network.cards().begun, network.card_taken(HostId(0))),
        (0, 0)
    );
}

// Sends so many packets from one host, forth or back by their names.
fn send_all(rt: &impl Abort, network: &mut PacketNetwork, is_forth: bool) {
    for turn in 0..40u32 {
        let left = if is_forth { turn } else { 39 - turn };
        assert!(rt; network.send(packet(0, 1, 20, left)).is_ok());
    }
}

#[test]
fn draws_go_by_the_name(rt: HostRuntime) {
    let (first, second) = (
        "loss 300000\n",
        "loss 300000\njitter 900\nrepeat 1000000\nswitch 1\n",
    );
    let (Some(mut first), Some(mut second)) = (
        network(&rt, rt.alloc(), first),
        network(&rt, rt.alloc(), second),
    ) else {
        return;
    };
    send_all(&rt, &mut first, true);
    send_all(&rt, &mut second, false);
    let (many, _, _) = arrivals(&mut first);
    let (twice, _, _) = arrivals(&mut second);
    assert!(&rt; 0 < many && many < 40);
    assert_eq!(&rt; twice, many.saturating_add(40));
    assert_eq!(&rt;
        (first.fates().lost, second.fates().repeated),
        (second.fates().lost, 40)
    );
}
