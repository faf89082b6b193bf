// A call at its server.
// Rules: a call at its server is receiving, held, replying, or a tombstone.
ghost use Rattle.std.specs.Prelude.{◌≡◌, ◌+◌, ◌==◌, ◌<◌, ◌≤◌, length, Some, None};
ghost use Rattle.std.specs.Prelude.{option_copied, if◌then◌else◌};
ghost use Rattle.homa_plain.specs.Incoming as incoming;
ghost use Rattle.homa_plain.specs.Outgoing as outgoing;
ghost use Rattle.plain_sets.specs.Maps.{len};
ghost use Rattle.homa_in.specs.Pooled.{Moves, IsInPool};
ghost use Rattle.homa_server.specs.Held.{HeldServer, Arriving, Keeping, Answering};
ghost use Rattle.homa_server.specs.Held.{IsKept, state_part, state_response};
ghost use Rattle.homa_server.specs.Answers.{CanReply, out_facts};

use crate::state::{State, answered};
use homa_in::{Incoming, close_part};
use homa_plain::{LAST_HOST_TICK, LONGEST_MESSAGE, OutFacts};
use homa_service::Reply;
use msg_pool::MsgPool;
use std::marker::Model;

/// A call at its server: the order in which rows were opened, and how far the server is with it.
#[derive(Drop)]
pub struct Row {
    pub(crate) order: u64,
    pub(crate) state: State,
}

impl Model for Row {
    ghost use Rattle.homa_server.specs.Held.{HeldServer, server_code, IsKept};
    ghost use Rattle.homa_server.specs.View.{held_state};

    ghost Value = { HeldServer };

    ghost coded = { server_code };

    ghost view = { λ r. record { order = r.order; state = held_state r.state } };

    ghost invariant = { λ r. IsKept (held_state r.state) };
}

impl Row {
    /// The row of a request that arrives.
    pub(crate) fn receiving(order: u64, service: u8, part: Incoming, now: u64) -> Row
        requires some { 0 < part.length }
        requires small { part.length ≤ LONGEST_MESSAGE }
        requires short { 0 < len part.missing }
        requires now { now ≤ LAST_HOST_TICK }
        ensures { result ≡ record { order = order; state = Arriving service part now 0 } }
    {
        Row {
            order,
            state: State::Receiving {
                service,
                part,
                base: now,
                count: 0,
            },
        }
    }

    /// The row of a call that the service has answered; `out_order` is the number of the response, if it isn't held back.
    pub(crate) fn replied(order: u64, reply: Reply, now: u64, out_order: u64, unsched: u32) -> Row
        requires fits { CanReply reply.bytes reply.hold }
        requires unsched { 1 ≤ unsched }
        requires now { now ≤ LAST_HOST_TICK }
        ensures { result ≡ record {
          order = order;
          state = (if reply.hold == 0
              then Answering reply.bytes (outgoing.opened (length reply.bytes) unsched) out_order now 0
              else Keeping reply.bytes (now + reply.hold));
        } }
    {
        Row {
            order,
            state: answered(reply, now, out_order, unsched),
        }
    }

    /// The row goes, and the pages of its request are free again.
    pub fn close(self, pool: &mut MsgPool)
        requires { IsInPool pool.old (state_part self.state) }
        ensures { Moves pool.old (state_part self.state) pool.new None }
    {
        let Row { state, .. } = self;
        match state {
            State::Receiving { part, .. } => close_part(part, pool),
            _other => {}
        }
    }

    /// The order that the row was opened with.
    pub fn order(&self) -> u64
        ensures order { result ≡ self.now.order }
        ensures kept { IsKept self.now.state }
    {
        self.order
    }

    /// The facts of the response that goes out.
    pub fn out(&self) -> Option<OutFacts>
        ensures { result ≡ out_facts self.now.state }
    {
        let State::Replying { out, order, .. } = &self.state else {
            return None;
        };
        Some(OutFacts {
            length: out.len(),
            service: 0,
            left: out.left(),
            order: *order,
            prio: out.prio(),
            waiting: out.waiting(),
        })
    }

    /// The part of the request that arrives.
    pub fn incoming(&self) -> Option<&Incoming>
        ensures { option_copied result ≡ state_part self.now.state }
    {
        match &self.state {
            State::Receiving { part, .. } => Some(part),
            _ => None,
        }
    }

    /// The response, where it is held back or goes out.
    pub fn response(&self) -> Option<&[u8]>
        ensures { option_copied result ≡ state_response self.now.state }
    {
        match &self.state {
            State::Held { response, .. } | State::Replying { response, .. } => Some(response),
            _ => None,
        }
    }
}
