// How far a server is with a call.
// Rules: a call at its server is receiving, held, replying, or a tombstone; a response begins with its unscheduled
// bytes.
ghost use Rattle.std.specs.Prelude.{◌≡◌, ◌+◌, ◌==◌, ◌<◌, ◌≤◌, length, if◌then◌else◌};
ghost use Rattle.homa_plain.specs.Outgoing as outgoing;
ghost use Rattle.homa_server.specs.Answers.{CanReply};
ghost use Rattle.homa_server.specs.Held.{Keeping, Answering, IsKept};
ghost use Rattle.homa_server.specs.View.{held_state};

use homa_in::Incoming;
use homa_out::Outgoing;
use homa_plain::{LAST_HOST_TICK, LONGEST_MESSAGE};
use homa_service::Reply;

#[derive(Drop)]
pub(crate) enum State {
    // The request arrives. The timer counts from `base` on, and `count` RESENDs were sent since something came that renews
    // the call.
    Receiving {
        service: u8,
        part: Incoming,
        base: u64,
        count: u32,
    },
    // The response is held back up to tick `release`.
    Held {
        response: Vec<u8>,
        release: u64,
    },
    // The response goes out, as far as `out` says; the timer as before, with NEED_ACKs in place of RESENDs.
    Replying {
        response: Vec<u8>,
        out: Outgoing,
        order: u64,
        base: u64,
        count: u32,
    },
    // A tombstone: the service ran for the call, and its response is gone. It stays up to tick `until`.
    Buried {
        until: u64,
    },
}

// The response goes out from now on.
pub(crate) fn replying(response: Vec<u8>, now: u64, order: u64, unsched: u32) -> State
    requires some { 0 < length response.items }
    requires size { length response.items ≤ LONGEST_MESSAGE }
    requires unsched { 1 ≤ unsched }
    requires now { now ≤ LAST_HOST_TICK }
    ensures state { held_state result ≡ Answering response.items (outgoing.opened (length response.items) unsched) order now 0 }
    ensures kept { IsKept (held_state result) }
{
    State::Replying {
        out: Outgoing::open(response.len() as u32, unsched),
        response,
        order,
        base: now,
        count: 0,
    }
}

// The service has answered.
pub(crate) fn answered(reply: Reply, now: u64, order: u64, unsched: u32) -> State
    requires fits { CanReply reply.bytes reply.hold }
    requires unsched { 1 ≤ unsched }
    requires now { now ≤ LAST_HOST_TICK }
    ensures state { held_state result ≡ (if reply.hold == 0
        then Answering reply.bytes (outgoing.opened (length reply.bytes) unsched) order now 0
        else Keeping reply.bytes (now + reply.hold)) }
    ensures kept { IsKept (held_state result) }
{
    let hold = reply.hold();
    let response = reply.into_bytes();
    if hold == 0 {
        return replying(response, now, order, unsched);
    }
    State::Held {
        response,
        release: now + u64::from(hold),
    }
}
