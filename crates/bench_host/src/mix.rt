// A host with so many rows, and deliveries for them.
ghost use Rattle.std.specs.Prelude.{◌≡◌, ◌<◌, ◌≤◌};
ghost use Rattle.homa_plain.specs.Settings.{IsValid};

use crate::frames::{put, put_first};
use crate::kind::Kind;
use driven_host::DrivenHost;
use homa_plain::{HostId, Settings};
use std::alloc::Global;

// The host with the rows. The others are its peers.
const HOST: HostId = HostId(7);

const PEERS: u32 = 7;

// The most rows, and the most deliveries.
const MOST_ROWS: u32 = 1_000;

const MOST_ROUNDS: u32 = 500_000;

/// How many rows a host has, and how many deliveries of a kind are made.
#[derive(Clone, Copy)]
pub(crate) struct Mix {
    rows: u32,
    rounds: u32,
    ghost some: { 0 < rows },
    ghost few: { rows ≤ 1000 },
    ghost short: { rounds ≤ 500000 },
}

fn read_number(word: Option<String>) -> Option<u32> {
    word?.as_str().parse::<u32>().ok()
}

impl Mix {
    /// The mix that two words say, if they say one.
    pub(crate) fn read(rows: Option<String>, rounds: Option<String>) -> Option<Mix> {
        let rows = read_number(rows)?;
        let rounds = read_number(rounds)?;
        if rows == 0 || rows > MOST_ROWS || rounds > MOST_ROUNDS {
            return None;
        }
        Some(Mix { rows, rounds })
    }

    // How many bytes a message has of which bytes come or go: too many for any number of deliveries.
    fn size(&self) -> u32 {
        MOST_ROUNDS / self.rows + 3
    }

    // How many bytes the request of a row has. One that is to be acknowledged is whole at once.
    fn request_size(&self, kind: Kind) -> u32 {
        match kind {
            Kind::Request | Kind::Repeat | Kind::Grant => self.size(),
            Kind::Ack => 1,
            _ => 3,
        }
    }

    // The row of a delivery. The last row comes first, so that of two messages of which as many bytes are missing the one
    // with the latest piece is granted to.
    fn row(&self, round: u32) -> u32 {
        self.rows - 1 - round % self.rows
    }

    // How often the row of a delivery had one before.
    fn number(&self, round: u32) -> u32
        requires { round ≤ 500000 }
    {
        round / self.rows + 1
    }
}

/// What the steps told.
#[derive(Clone, Copy, Debug, PartialEq, Eq)]
pub(crate) struct Told {
    /// How many deliveries there were.
    pub deliveries: u64,
    /// How many entries there were. A packet that was sent has one.
    pub entries: u64,
    /// How many packets were sent.
    pub packets: u64,
    /// How many bytes they have.
    pub bytes: u64,
}

impl Told {
    // Nothing so far.
    fn nothing() -> Told {
        Told {
            deliveries: 0,
            entries: 0,
            packets: 0,
            bytes: 0,
        }
    }

    // A host's last step too, which was a delivery.
    fn add_delivery(&mut self, host: &DrivenHost) {
        self.deliveries = self.deliveries.saturating_add(1);
        self.add_step(host);
    }

    // A host's last step too.
    fn add_step(&mut self, host: &DrivenHost) {
        let out = host.out();
        self.entries = self.entries.saturating_add(host.host().entries() as u64);
        self.packets = self.packets.saturating_add(out.len() as u64);
        for i in 0..out.len() {
            self.bytes = self.bytes.saturating_add(out.bytes(i).len() as u64);
        }
    }
}

// A byte of each message goes without a grant, and one is granted at a time.
fn settings() -> Settings
    ensures valid { IsValid result }
    ensures hosts { result.hosts ≡ 8 }
{
    Settings {
        hosts: 8,
        window: 1,
        unsched: 1,
        rate: 1_000_000,
        resend: 1000,
        pages: 4096,
        calls: 1024,
        ..Settings::usual()
    }
}

// The peer of the row with this number.
fn peer(row: u32) -> HostId {
    HostId((row % PEERS) as u16)
}

// A datagram comes to the host from the peer of a row, a tick after its last step.
fn hand_over(alloc: Global, host: &mut DrivenHost, row: u32, frame: &[u8]) -> Option<()> {
    let now = host.host().last().saturating_add(1);
    host.deliver(alloc, peer(row), frame, now)
}

// The host makes the call of the row with this number.
fn call(alloc: Global, host: &mut DrivenHost, row: u32, size: u32) -> Option<()> {
    let request = vec![in alloc; 7; size as usize].ok()?;
    let now = host.host().last();
    host.call(peer(row), 0, request, now)?;
    Some(())
}

// The row with this number comes.
fn fill(
    alloc: Global,
    mix: Mix,
    kind: Kind,
    host: &mut DrivenHost,
    frame: &mut Vec<u8>,
    row: u32,
) -> Option<()> {
    if kind.is_served() {
        put_first(frame, row, mix.request_size(kind))?;
        hand_over(alloc, host, row, frame.as_slice())
    } else {
        call(alloc, host, row, mix.request_size(kind))
    }
}

// A row comes for each number.
fn fill_all(
    alloc: Global,
    mix: Mix,
    kind: Kind,
    host: &mut DrivenHost,
    frame: &mut Vec<u8>,
) -> Option<()> {
    for row in 0..mix.rows {
        fill(alloc, mix, kind, host, frame, row)?;
    }
    Some(())
}

// Each row gets the first packet of the kind.
fn begin_all(
    alloc: Global,
    mix: Mix,
    kind: Kind,
    host: &mut DrivenHost,
    frame: &mut Vec<u8>,
) -> Option<()> {
    for row in 0..mix.rows {
        put(frame, kind, row, mix.size(), 0)?;
        hand_over(alloc, host, row, frame.as_slice())?;
    }
    Some(())
}

// The deliveries, for one row after the other.
fn deliver_all(
    alloc: Global,
    mix: Mix,
    kind: Kind,
    host: &mut DrivenHost,
    frame: &mut Vec<u8>,
) -> Option<Told> {
    let mut told = Told::nothing();
    for round in 0..mix.rounds {
        let row = mix.row(round);
        put(frame, kind, row, mix.size(), mix.number(round))?;
        hand_over(alloc, host, row, frame.as_slice())?;
        told.add_delivery(host);
    }
    Some(told)
}

// As often the oldest call is done, and another one is made.
fn finish_all(alloc: Global, mix: Mix, host: &mut DrivenHost, frame: &mut Vec<u8>) -> Option<Told> {
    let mut told = Told::nothing();
    for round in 0..mix.rounds {
        put(frame, Kind::Done, round, 1, 0)?;
        hand_over(alloc, host, round, frame.as_slice())?;
        told.add_delivery(host);
        call(alloc, host, round + mix.rows, mix.request_size(Kind::Done))?;
        told.add_step(host);
    }
    Some(told)
}

// The rows, and the deliveries.
fn run_on(alloc: Global, mix: Mix, kind: Kind, host: &mut DrivenHost) -> Option<Told> {
    let mut frame = Vec::with_capacity(alloc, 64).ok()?;
    fill_all(alloc, mix, kind, host, &mut frame)?;
    if let Kind::Done = kind {
        return finish_all(alloc, mix, host, &mut frame);
    }
    begin_all(alloc, mix, kind, host, &mut frame)?;
    deliver_all(alloc, mix, kind, host, &mut frame)
}

/// What the deliveries of a kind tell at a host with so many rows. None where there is no memory.
pub(crate) fn run_kind(alloc: Global, mix: Mix, kind: Kind) -> Option<Told> {
    let mut host = DrivenHost::open(alloc, HOST, 1, 0, &settings()).ok()?;
    run_on(alloc, mix, kind, &mut host)
}
