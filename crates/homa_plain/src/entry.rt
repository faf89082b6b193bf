// The lines of a trace.
use crate::{Body, CallId, Cutoffs, HostId, LineFault, Role, Settings};

/// Why a call failed at its client.
#[derive(Clone, Copy, Debug, PartialEq, Eq)]
pub enum Why {
    /// After its RESENDs nothing arrived that renews it.
    Timeout,
    /// Its server ran it and forgot it.
    Forgotten,
}

/// One line of a trace. Its bytes are borrowed; definitions see them as lists, through `plain`.
// It derives neither Debug nor PartialEq: with 24 variants these two would take as long to prove as the rest of the crate.
#[derive(Drop)]
pub enum Entry<'a> {
    /// The settings of the run: the first line.
    Settings(Settings),
    /// A client starts a call, with this request.
    Call {
        id: CallId,
        server: HostId,
        service: u8,
        bytes: &'a [u8],
    },
    /// The packet with this number reaches its host.
    Deliver {
        packet: u64,
    },
    /// The clock's new tick.
    Clock {
        tick: u64,
    },
    /// A host restarts, with this incarnation from now on.
    Restart {
        host: HostId,
        inc: u32,
    },
    /// A datagram that no host sent reaches a host.
    Inject {
        host: HostId,
        bytes: &'a [u8],
    },
    /// A host's own clock is from now on `n` ticks ahead of the world's.
    Shift {
        host: HostId,
        n: u32,
    },
    /// The bytes that reached a host are no packet.
    Junk {
        host: HostId,
    },
    /// A packet that reached a host at its own tick `now` was sent at tick `at`, too long ago.
    Stale {
        host: HostId,
        at: u64,
        now: u64,
    },
    /// A packet is sent. `inc` is the sender's incarnation; but for DATA, `level` is 7 and `payload` is empty.
    Send {
        number: u64,
        from: HostId,
        to: HostId,
        inc: u32,
        role: Role,
        id: CallId,
        level: u8,
        body: Body,
        payload: &'a [u8],
    },
    /// A service was called, and its response is held back for `hold` ticks.
    Run {
        host: HostId,
        id: CallId,
        service: u8,
        request: &'a [u8],
        response: &'a [u8],
        hold: u32,
    },
    /// A response is whole at the client.
    Done {
        id: CallId,
        bytes: &'a [u8],
    },
    /// A call failed at its client.
    Fail {
        id: CallId,
        why: Why,
    },
    /// A server gives up a request that isn't whole.
    Drop {
        host: HostId,
        id: CallId,
    },
    /// A piece that would have left more than 64 gaps in a message was refused.
    Gaps {
        host: HostId,
        id: CallId,
    },
    /// A server keeps nothing of a call but that it ran, up to tick `until` of its own clock.
    Bury {
        host: HostId,
        id: CallId,
        until: u64,
    },
    /// A server forgets that a call ran.
    Free {
        host: HostId,
        id: CallId,
    },
    /// A server has `rows` rows, and the limit is `limit`.
    FullRows {
        host: HostId,
        id: CallId,
        rows: u32,
        limit: u32,
    },
    /// A message needs `need` pages, and `free` are free.
    FullPages {
        host: HostId,
        id: CallId,
        need: u32,
        free: u32,
    },
    /// A host has computed its cutoffs anew.
    Balance {
        host: HostId,
        cutoffs: Cutoffs,
    },
    /// A datagram reached a node's host.
    Recv {
        host: HostId,
        from: HostId,
        bytes: &'a [u8],
    },
    /// The run ended after `n` events, or loop turns of a node.
    Finished {
        n: u64,
    },
    /// This line of the input, counted from 1, was refused.
    Refused {
        line: u64,
        fault: LineFault,
    },
    /// A node did its last loop turn, and its clock stood at `now`.
    Stalled {
        turns: u64,
        now: u64,
    },
}
