//! A row of a client: what it remembers of a live call.
//! Rules: a request begins with its unscheduled bytes, and a row takes packets of its own server alone.
ghost use Rattle.std.specs.Prelude.{◌≡◌, ◌<◌, ◌≤◌, length, ◌&&◌, not, nat_lt, option_copied};
ghost use Rattle.homa_plain.specs.declared.settings.Settings.{Settings};
ghost use Rattle.homa_plain.specs.Calls.{is_host};
ghost use Rattle.homa_plain.specs.Outgoing.{IsSound};
ghost use Rattle.homa_client.specs.Held.{HeldRow, new_row, IsRow};
ghost use Rattle.homa_client.specs.Gives.{facts};

use homa_in::Incoming;
use homa_out::Outgoing;
use homa_plain::{CallId, HostId, LAST_HOST_TICK, LONGEST_MESSAGE, OutFacts, RowFacts, Settings};
use std::marker::Model;

/// A call at its client: its server, service and request, how far the request was sent, how far the response has
/// come, and since when it waits.
#[derive(Drop)]
pub(crate) struct Row {
    pub(crate) server: HostId,
    pub(crate) service: u8,
    pub(crate) request: Vec<u8>,
    // Rows that were opened earlier have lower numbers.
    pub(crate) order: u64,
    // The request, as far as it was sent.
    pub(crate) out: Outgoing,
    // When the server was last heard of, or a new piece of the request was sent.
    pub(crate) heard: u64,
    // From when on the timer counts.
    pub(crate) base: u64,
    // How many RESENDs there were since something came that renews the call.
    pub(crate) count: u32,
    // The greatest incarnation of the server that was seen, 0 before the first.
    pub(crate) seen: u32,
    // The response, as far as it arrived.
    pub(crate) part: Option<Incoming>,
}

impl Model for Row {
    ghost use Rattle.homa_client.specs.Held.{HeldRow, row_code, IsRow};

    ghost Value = { HeldRow };

    ghost coded = { row_code };

    ghost view = { λ r. record {
      server = r.server;
      service = r.service;
      request = r.request.items;
      order = r.order;
      out = r.out;
      heard = r.heard;
      base =
          r.base;
      count = r.count;
      seen = r.seen;
      part = r.part;
    } };

    ghost invariant = { λ r. IsRow (record {
      server = r.server;
      service = r.service;
      request = r.request.items;
      order = r.order;
      out = r.out;
      heard = r.heard;
      base = r.base;
      count = r.count;
      seen = r.seen;
      part = r.part;
    }) };
}

impl Row {
    /// The row of a new call.
    pub(crate) fn open(
        server: HostId,
        service: u8,
        request: Vec<u8>,
        now: u64,
        order: u64,
        unsched: u32,
    ) -> Row
        requires some { 0 < length request.items }
        requires small { length request.items ≤ LONGEST_MESSAGE }
        requires now { now ≤ LAST_HOST_TICK }
        requires unsched { 1 ≤ unsched }
        ensures { (s : Settings) → s.unsched ≡ unsched → result ≡ new_row s now order server service request.items }
    {
        let out = Outgoing::open(request.len() as u32, unsched);
        Row {
            server,
            service,
            request,
            order,
            out,
            heard: now,
            base: now,
            count: 0,
            seen: 0,
            part: None,
        }
    }

    /// Whether packets of this incarnation of a host are for the row: those of its server, and of no earlier life of it
    /// than was seen.
    pub(crate) fn takes(&self, from: HostId, inc: u32) -> bool
        ensures { result ≡ (is_host from self.now.server && not (nat_lt inc self.now.seen)) }
    {
        from == self.server && inc >= self.seen
    }

    /// What is told of the row of this call.
    pub(crate) fn facts(&self, id: CallId) -> RowFacts
        ensures facts { result ≡ facts id self.now }
        ensures row { IsRow self.now }
        ensures out { IsSound self.now.out }
        ensures small { self.now.out.length ≤ LONGEST_MESSAGE }
    {
        let out = OutFacts {
            length: self.out.len(),
            service: self.service,
            left: self.out.left(),
            order: self.order,
            prio: self.out.prio(),
            waiting: self.out.waiting(),
        };
        RowFacts {
            id,
            peer: self.server,
            order: self.order,
            out: Some(out),
        }
    }

    /// The part of the response, if there is one.
    pub(crate) fn part(&self) -> Option<&Incoming>
        ensures { option_copied result ≡ self.now.part }
    {
        self.part.as_ref()
    }

    /// The request.
    pub(crate) fn request(&self) -> &[u8]
        ensures { result.now ≡ self.now.request }
    {
        self.request.as_slice()
    }
}
