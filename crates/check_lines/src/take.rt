// A line that is taken.
ghost use Rattle.std.specs.Prelude.{ℕ, List, Option, Some, None, [], ◌∷◌, ◌++◌, length, slice_get, ◌≡◌, ◌+◌, ◌-◌, ◌^◌, ◌<◌, ◌&&◌, ◌||◌, true, false};
ghost use Rattle.std.specs.Prelude.{if◌then◌else◌, OnOk, IfOk, IfSome};
ghost use Rattle.std.specs.Option.{option_map};
ghost use Rattle.check_lines.specs.Changes.{SameLists, SameSets, SameCount, SameNumbers, SameRest, IsChange, IsMade, IsAfter, IsTaken, Changes};
ghost use Rattle.check_lines.specs.Changes.{Ready, Takes, call_or};
ghost use Rattle.check_lines.specs.Sends.{change_by, granted_by, first_after, sent_with, tested, keeps_window};
ghost use Rattle.check_lines.specs.Traces.{Follows, Keeps, StandsOr, IsUndoOf, IsDelivered, beside_at, IsPlace, call_at, host_at, lives_in, lead_of};
ghost use Rattle.check_lines.specs.Traces.{first_of, restarts_in, asked_of, awaited_of, due_of, kept_or};
ghost use Rattle.check_lines.specs.declared.block.Named.TheVariants.{Nobody};
ghost use Rattle.check_call.specs.Spots.{Spot as ASpot, Undo, IsUndo, spot, only, undo_each, said_spot, counted_spot, delivered_spot, due_spot, due_if_refused};
ghost use Rattle.check_call.specs.Tested.{IsOther};
ghost use Rattle.check_call.specs.Calls.{spot_in, beside, ends_of, IsSettled, Leaves};
ghost use Rattle.check_call.specs.Kept.{packet_of};
ghost use Rattle.check_call.specs.declared.call.Call.{Call as ACall};
ghost use Rattle.check_call.specs.declared.spot.Change.TheVariants.{Nothing, Dropped};
ghost use Rattle.homa_plain.specs.Calls.{is_host};
ghost use Rattle.homa_plain.specs.Entries.{plain, PlainCall, PlainRun, PlainDone, PlainFail, PlainDrop};
ghost use Rattle.trace_rules.specs.Judge.{has_shape, is_new_call, runs_once};
ghost use Rattle.trace_rules.specs.Lines as lines;
ghost use Rattle.trace_rules.specs.Seen as seen;
ghost use Rattle.trace_rules.specs.Seen.{seen as seen_with, sent, with_first};
ghost use Rattle.trace_rules.specs.View.{View, Sent, no_ends, nothing_seen, life, is_server_of};
ghost use Rattle.homa_plain.specs.Wire.{Between, is_client, packet_in};
ghost use Rattle.homa_plain.specs.declared.id.CallId.{CallId as AnId};
ghost use Rattle.homa_plain.specs.declared.id.HostId.{HostId as AHost};

use crate::block::{Delivery, Here};
use crate::host::is_same_host;
use crate::trace::Trace;
use check_call::{Call, Change, Delivered, Packet, Piece, Run, Spot};
use homa_plain::{Body, CallId, Entry, HostId, Packet as WirePacket, Role, Why};
use homa_wire::decode;
use open_ranges::OpenRanges;
use std::alloc::{AllocError, Global};

/// The line of an event: a block begins.
pub fn is_event(line: &Entry<'_>) -> bool
    ensures { result ≡ lines.is_event (plain line.now) }
{
    match line {
        Entry::Call { .. }
        | Entry::Deliver { .. }
        | Entry::Recv { .. }
        | Entry::Clock { .. }
        | Entry::Restart { .. }
        | Entry::Inject { .. }
        | Entry::Shift { .. } => true,
        _ => false,
    }
}

/// A last line.
pub fn is_last(line: &Entry<'_>) -> bool
    ensures { result ≡ lines.is_last (plain line.now) }
{
    match line {
        Entry::Finished { .. } | Entry::Refused { .. } | Entry::Stalled { .. } => true,
        _ => false,
    }
}

// The version of the wire format, which is 1 or 2.
fn version_of(wire: u32) -> u32
    ensures version { Between 1 2 result }
    ensures same { Between 1 2 wire → result ≡ wire }
{
    if wire == 1 { 1 } else { 2 }
}

// The bytes of a response that are kept: none if it is the request.
fn own_bytes(alloc: Global, request: &[u8], response: &[u8]) -> Result<Option<Vec<u8>>, AllocError>
    ensures { IfOk result (λ own. kept_or request.now own ≡ response.now) }
{
    if request == response {
        return Ok(None);
    }
    let own = Vec::from_slice(alloc, response)?;
    Ok(Some(own))
}

// The packet that a datagram from one host to another is.
fn received(host: HostId, from: HostId, bytes: &[u8], wire: u32) -> Option<Packet>
    ensures { Between 1 2 wire → result ≡ option_map packet_of (seen.received host from (packet_in wire bytes.now)) }
{
    let (packet, payload) = decode(bytes, version_of(wire))?;
    Some(packet_between(host, from, &packet, (payload.to - payload.from) as u64))
}

// A packet with so many bytes of payload, from one host to another.
fn packet_between(host: HostId, from: HostId, packet: &WirePacket, len: u64) -> Packet
    ensures { (payload : List ℕ) → length payload ≡ len → Some result ≡ option_map packet_of (seen.received host from (Some (packet.now, payload))) }
{
    Packet {
        from,
        to: host,
        inc: packet.sender,
        role: packet.role,
        id: packet.call(client_of(packet.role, host, from)),
        piece: Piece::of(&packet.body, len),
    }
}

// The client of a call between two hosts, of which the first one gets a packet from the second.
fn client_of(role: Role, host: HostId, from: HostId) -> HostId
    ensures { result ≡ (if is_client role then from else host) }
{
    match role {
        Role::Client => from,
        Role::Server => host,
    }
}

// There was a last line, or this is one.
fn is_ended(ended: bool, line: &Entry<'_>) -> bool
    ensures { result ≡ (ended || lines.is_last (plain line.now)) }
{
    ended || is_last(line)
}

// A change, if it comes.
fn change_if(comes: bool, change: Change) -> Change
    ensures { result ≡ (if comes then change else Nothing) }
{
    if comes { change } else { Change::Nothing }
}

// What a GRANT does to a call of this server.
fn grant_change(packet: &Packet, server: HostId, offset: u32) -> Change
    ensures { result ≡ granted_by packet.now server offset }
{
    let client = packet.id.client;
    match packet.role {
        Role::Server => change_if(
            is_same_host(server, packet.from) && is_same_host(client, packet.to),
            Change::RaisedRequest { offset },
        ),
        Role::Client => change_if(
            is_same_host(client, packet.from) && is_same_host(server, packet.to),
            Change::RaisedResponse { offset },
        ),
    }
}

impl Trace {
    // A block begins.
    fn begin(&mut self)
        ensures { self.new ≡ record self.old { here = record { runs = Nobody; dones = Nobody; forgotten = Nobody }; delivery = None } }
    {
        self.here = Here::NONE;
        self.delivery = None;
    }

    // A call starts.
    fn start(
        &mut self,
        alloc: Global,
        id: CallId,
        server: HostId,
        service: u8,
        bytes: &[u8],
    ) -> Result<(), AllocError>
        ensures kept { OnOk result ((v : View) → Keeps v self.old → is_new_call v id server bytes.now ≡ true
            → Keeps (seen_with v (PlainCall id server service bytes.now)) self.new) }
        ensures count { OnOk result (SameCount self.old self.new) }
        ensures delivery { OnOk result (self.new.delivery ≡ self.old.delivery) }
    {
        let lives = self.lives(id, server);
        let call = Call {
            server,
            service,
            sent_last: false,
            size: bytes.len().min(u32::MAX as usize) as u32,
            request: Vec::from_slice(alloc, bytes)?,
            runs: Vec::new(alloc),
            lives,
            spot: Spot::STARTED,
            asked: OpenRanges::empty(alloc),
            answered: OpenRanges::empty(alloc),
        };
        self.calls.push(call)?;
        self.ids.insert(id)?;
        Ok(())
    }

    // Puts the bytes that came last for a message of a call into the set beside its part.
    fn settle(&mut self, alloc: Global, at: usize, id: CallId, role: Role) -> Result<(), AllocError>
        requires { IsPlace self.old id at }
        ensures kept { OnOk result ((v : View) → Keeps v self.old → Keeps v self.new) }
        ensures settled { OnOk result (IfSome (call_at self.new id) (λ c. IsSettled role (spot_in c (lives_in self.new id c.server)))) }
        ensures place { OnOk result (IsPlace self.new id at) }
        ensures rest { OnOk result (self.new ≡ record self.old { calls = self.new.calls }) }
    {
        let lives = self.lives(id, self.calls[at].server);
        self.calls[at].settle(alloc, lives, role)?;
        Ok(())
    }

    // What the delivery of a packet does to its call, whose part that the packet's bytes belong to is settled.
    fn delivered(&self, at: usize, packet: &Packet) -> Delivered
        requires place { IsPlace self.now packet.now.id at }
        requires settled { IfSome (call_at self.now packet.now.id) (λ c. IsSettled packet.now.role (spot_in c (lives_in self.now packet.now.id c.server))) }
        ensures { (v : View) (p : Sent) (c : ACall) → Keeps v self.now → v.place ≡ self.now.place → packet.now ≡ packet_of p
            → call_at self.now packet.now.id ≡ Some c
            → Leaves (beside p.id.client self.now.settings.resend c) p.id result (delivered_spot v p (spot v.now p.id)) (counted_spot v p (spot v.now p.id))
            (due_spot v p (spot v.now p.id)) (due_if_refused v p (spot v.now p.id)) }
    {
        let call = &self.calls[at];
        let lives = self.lives(packet.id, call.server);
        call.delivered(packet, self.place, lives, self.settings.unsched)
    }

    // A packet of a call that was made reaches its host.
    fn deliver_at(&mut self, alloc: Global, at: usize, packet: Packet) -> Result<(), AllocError>
        requires { IsPlace self.old packet.id at }
        ensures taken { OnOk result ((v : View) (p : Sent) → Keeps v self.old → v.place ≡ self.old.place → v.now.due ≡ no_ends → packet ≡ packet_of p
            → IsAfter v (Some p) self.new) }
        ensures count { OnOk result (SameCount self.old self.new) }
    {
        self.settle(alloc, at, packet.id, packet.role)?;
        let stale = self.spot(at, packet.id);
        let delivered = self.delivered(at, &packet);
        self.keep(alloc, at, packet.id, delivered.now)?;
        self.delivery = Some(Delivery {
            packet,
            refused: delivered.refused,
            stale,
            runs: delivered.runs,
            done: delivered.done,
            forgotten: delivered.forgotten,
        });
        Ok(())
    }

    // A packet reaches its host.
    fn deliver(&mut self, alloc: Global, packet: Packet) -> Result<(), AllocError>
        ensures taken { OnOk result ((v : View) (p : Sent) → Keeps v self.old → v.place ≡ self.old.place → v.now.due ≡ no_ends → packet ≡ packet_of p
            → IsAfter v (Some p) self.new) }
        ensures count { OnOk result (SameCount self.old self.new) }
    {
        match self.find(packet.id) {
            Some(at) => self.deliver_at(alloc, at, packet),
            None => {
                self.delivery = Some(Delivery::of_none(packet));
                Ok(())
            }
        }
    }

    // A packet by its number.
    fn packet(&self, number: u64) -> Option<Packet>
        ensures { result ≡ slice_get self.now.packets.items number }
    {
        self.packets.get(number as usize).copied()
    }

    // A packet reaches its host, if there is one, where none did in this block.
    fn deliver_some(&mut self, alloc: Global, packet: Option<Packet>) -> Result<(), AllocError>
        requires { self.old.delivery ≡ None }
        ensures taken { OnOk result ((v : View) (o : Option Sent) → Keeps v self.old → v.place ≡ self.old.place → v.now.due ≡ no_ends
            → packet ≡ option_map packet_of o → IsAfter v o self.new) }
        ensures count { OnOk result (SameCount self.old self.new) }
    {
        if let Some(packet) = packet {
            self.deliver(alloc, packet)?;
        }
        Ok(())
    }

    // A host restarts.
    fn restart(&mut self, alloc: Global, host: HostId, inc: u32) -> Result<(), AllocError>
        ensures restarts { OnOk result ((h : AHost)
            → restarts_in (host_at self.new h)
            ≡ (if is_host h host then restarts_in (host_at self.old h) ++ inc ∷ [] else restarts_in (host_at self.old h))) }
        ensures lead { OnOk result ((h : AHost) → lead_of (host_at self.new h) ≡ lead_of (host_at self.old h)) }
        ensures first { OnOk result ((h : AHost) → first_of (host_at self.new h) ≡ first_of (host_at self.old h)) }
        ensures asked { OnOk result ((h : AHost) (q : AnId)
            → asked_of (host_at self.new h) q ≡ (if is_host h host then false else asked_of (host_at self.old h) q)) }
        ensures awaited { OnOk result ((h : AHost) (q : AnId)
            → awaited_of (host_at self.new h) q ≡ (if is_host h host then false else awaited_of (host_at self.old h) q)) }
        ensures rest { OnOk result (self.new ≡ record self.old { hosts = self.new.hosts }) }
    {
        self.know(alloc, host)?;
        let host = &mut self.hosts[host.0 as usize];
        host.restarts.push(inc)?;
        host.asked.clear();
        host.awaited.clear();
        Ok(())
    }

    // A host's lead.
    fn shift(&mut self, alloc: Global, host: HostId, n: u32) -> Result<(), AllocError>
        ensures lead { OnOk result ((h : AHost) → lead_of (host_at self.new h) ≡ (if is_host h host then Some n else lead_of (host_at self.old h))) }
        ensures first { OnOk result ((h : AHost) → first_of (host_at self.new h) ≡ first_of (host_at self.old h)) }
        ensures restarts { OnOk result ((h : AHost) → restarts_in (host_at self.new h) ≡ restarts_in (host_at self.old h)) }
        ensures lists { OnOk result (SameLists self.old self.new) }
        ensures rest { OnOk result (self.new ≡ record self.old { hosts = self.new.hosts }) }
    {
        self.know(alloc, host)?;
        self.hosts[host.0 as usize].lead = Some(n);
        Ok(())
    }

    // The block's delivery, with a change of a call.
    fn change_delivery(&mut self, id: CallId, change: Change)
        ensures block { (o : Option Undo) (f : ASpot → ASpot) → IsChange self.old id change f → IsMade self.old id → IsDelivered self.old self.old.delivery o
            → IsDelivered self.new self.new.delivery (option_map (undo_each (only id f)) o) }
        ensures due { due_of self.new.delivery ≡ due_of self.old.delivery }
        ensures rest { self.new ≡ record self.old { delivery = self.new.delivery } }
    {
        if let Some(delivery) = self.delivery {
            self.delivery = Some(delivery.changed(id, change));
        }
    }

    // A change of a call, whether the block's delivery is taken back or not.
    fn change(&mut self, alloc: Global, id: CallId, change: Change) -> Result<(), AllocError>
        ensures kept { OnOk result ((v w : View) (f : ASpot → ASpot) → Keeps v self.old → IsMade self.old id → IsChange self.old id change f
            → Changes v w id f → Keeps w self.new) }
        ensures block { OnOk result ((o : Option Undo) (f : ASpot → ASpot) → IsChange self.old id change f → IsMade self.old id
            → IsDelivered self.old self.old.delivery o → IsDelivered self.new self.new.delivery (option_map (undo_each (only id f)) o)) }
        ensures due { OnOk result (due_of self.new.delivery ≡ due_of self.old.delivery) }
        ensures sets { OnOk result (SameSets self.old self.new) }
        ensures count { OnOk result (SameCount self.old self.new) }
    {
        if let Change::Nothing = change {
            return Ok(());
        }
        self.change_delivery(id, change);
        let Some(at) = self.find(id) else {
            return Ok(());
        };
        let spot = self.spot(at, id).changed(change);
        self.keep(alloc, at, id, spot)?;
        Ok(())
    }

    // What a packet that is sent does to its call.
    fn change_of(&self, packet: &Packet, body: &Body) -> Change
        ensures { IfSome (call_at self.now packet.now.id) (λ c. result ≡ change_by self.now c packet.now body.now) }
    {
        let Some(call) = self.call(packet.id) else {
            return Change::Nothing;
        };
        match body {
            Body::Grant { offset, .. } => grant_change(packet, call.server, *offset),
            Body::Resend { .. } => {
                let told = Change::Told {
                    tick: self.own_tick(packet.id.client),
                    gap: self.settings.resend,
                };
                change_if(packet.role.is_of_client(), told)
            }
            Body::Data { .. } => change_if(
                packet.role.is_of_client() && !call.sent_last,
                Change::Renewed,
            ),
            _ => Change::Nothing,
        }
    }

    // The incarnation of a host's first life, if this is its first packet and it hasn't restarted.
    fn note_first(&mut self, alloc: Global, host: HostId, inc: u32) -> Result<(), AllocError>
        ensures first { OnOk result ((h : AHost)
            → first_of (host_at self.new h) ≡ (if is_host h host then first_after (host_at self.old h) inc else first_of (host_at self.old h))) }
        ensures lead { OnOk result ((h : AHost) → lead_of (host_at self.new h) ≡ lead_of (host_at self.old h)) }
        ensures restarts { OnOk result ((h : AHost) → restarts_in (host_at self.new h) ≡ restarts_in (host_at self.old h)) }
        ensures lists { OnOk result (SameLists self.old self.new) }
        ensures rest { OnOk result (self.new ≡ record self.old { hosts = self.new.hosts }) }
    {
        self.know(alloc, host)?;
        let host = &mut self.hosts[host.0 as usize];
        host.first = host.first_with(inc);
        Ok(())
    }

    // Whether the last byte of a call's request was sent, with one packet more.
    fn note_last(&mut self, packet: &Packet)
        ensures calls { (q : AnId) → call_at self.new q ≡ call_or packet.now.id (sent_with packet.now) (call_at self.old) q }
        ensures len { length self.new.calls.items ≡ length self.old.calls.items }
        ensures rest { self.new ≡ record self.old { calls = self.new.calls } }
    {
        if !packet.role.is_of_client() {
            return;
        }
        let Some(at) = self.find(packet.id) else {
            return;
        };
        let last = packet.has_last(self.calls[at].request.len());
        let call = &mut self.calls[at];
        call.sent_last = call.sent_last || last;
    }

    // A packet is kept, and noted at its sender and its call.
    fn keep_packet(&mut self, alloc: Global, packet: Packet) -> Result<(), AllocError>
        ensures kept { OnOk result ((v : View) (p : Sent) → Keeps v self.old → IsMade self.old packet.id → packet ≡ packet_of p
            → Keeps (record v { firsts = with_first v p; packets = v.packets ++ p ∷ [] }) self.new) }
        ensures sets { OnOk result (SameSets self.old self.new) }
        ensures count { OnOk result (SameCount self.old self.new) }
        ensures delivery { OnOk result (self.new.delivery ≡ self.old.delivery) }
    {
        self.note_first(alloc, packet.from, packet.inc)?;
        self.note_last(&packet);
        self.packets.push(packet)?;
        Ok(())
    }

    // A packet is sent.
    fn send(&mut self, alloc: Global, packet: Packet, body: &Body) -> Result<(), AllocError>
        ensures kept { OnOk result ((v : View) (p : Sent) → Keeps v self.old → IsMade self.old packet.id → packet ≡ packet_of p → body.now ≡ p.body
            → Keeps (sent v p) self.new) }
        ensures block { OnOk result ((v : View) (p : Sent) (o : Option Undo) → Keeps v self.old → IsMade self.old packet.id → packet ≡ packet_of p
            → body.now ≡ p.body
            → IsDelivered self.old self.old.delivery o → IsDelivered self.new self.new.delivery (option_map (undo_each (only p.id (said_spot v p p.body))) o)) }
        ensures due { OnOk result (due_of self.new.delivery ≡ due_of self.old.delivery) }
        ensures count { OnOk result (SameCount self.old self.new) }
    {
        let change = self.change_of(&packet, body);
        self.change(alloc, packet.id, change)?;
        self.keep_packet(alloc, packet)?;
        Ok(())
    }

    // A call ran at a host.
    fn keep_run(
        &mut self,
        alloc: Global,
        host: HostId,
        id: CallId,
        response: &[u8],
    ) -> Result<(), AllocError>
        ensures kept { OnOk result ((v : View) → Keeps v self.old → is_server_of v id host ≡ true
            → Keeps (record v { runs = record { host = host; life = life v host; id = id; response = response.now } ∷ v.runs }) self.new) }
        ensures sets { OnOk result (SameSets self.old self.new) }
        ensures count { OnOk result (SameCount self.old self.new) }
        ensures delivery { OnOk result (self.new.delivery ≡ self.old.delivery) }
    {
        let life = self.life(host);
        match self.find(id) {
            Some(at) => {
                let response = own_bytes(alloc, &self.calls[at].request, response)?;
                let runs = &mut self.calls[at].runs;
                runs.reserve_exact(1)?;
                runs.insert(0, Run { life, response })?;
                Ok(())
            }
            None => Ok(()),
        }
    }

    // A service was called.
    fn run(
        &mut self,
        alloc: Global,
        host: HostId,
        id: CallId,
        response: &[u8],
    ) -> Result<(), AllocError>
        ensures taken { OnOk result ((v : View) (o : Option Undo) (service : ℕ) (request : List ℕ) (hold : ℕ) → Ready v o self.old
            → is_server_of v id host ≡ true → Takes v o (PlainRun host id service request response.now hold) self.new) }
        ensures numbers { OnOk result (SameNumbers self.old self.new) }
    {
        self.keep_run(alloc, host, id, response)?;
        self.here.runs = self.here.runs.with(id);
        Ok(())
    }

    // A call is done.
    fn done(&mut self, alloc: Global, id: CallId) -> Result<(), AllocError>
        ensures taken { OnOk result ((v : View) (o : Option Undo) (bytes : List ℕ) → Ready v o self.old → IsMade self.old id
            → Takes v o (PlainDone id bytes) self.new) }
        ensures numbers { OnOk result (SameNumbers self.old self.new) }
    {
        self.change(alloc, id, Change::Finished)?;
        self.here.dones = self.here.dones.with(id);
        Ok(())
    }

    // A call fails.
    fn fail(&mut self, alloc: Global, id: CallId, why: Why) -> Result<(), AllocError>
        ensures taken { OnOk result ((v : View) (o : Option Undo) → Ready v o self.old → IsMade self.old id → Takes v o (PlainFail id why) self.new) }
        ensures numbers { OnOk result (SameNumbers self.old self.new) }
    {
        self.change(alloc, id, Change::Finished)?;
        match why {
            Why::Timeout => Ok(()),
            Why::Forgotten => {
                self.here.forgotten = self.here.forgotten.with(id);
                Ok(())
            }
        }
    }

    // A host gives a call's request up.
    fn give_up(&mut self, alloc: Global, host: HostId, id: CallId) -> Result<(), AllocError>
        ensures taken { OnOk result ((v : View) (o : Option Undo) → Ready v o self.old → IsMade self.old id → Takes v o (PlainDrop host id) self.new) }
        ensures numbers { OnOk result (SameNumbers self.old self.new) }
    {
        let change = self.change_of_drop(host, id);
        self.change(alloc, id, change)?;
        Ok(())
    }

    // What it does to a call that a host gives its request up.
    fn change_of_drop(&self, host: HostId, id: CallId) -> Change
        ensures { IfSome (call_at self.now id) (λ c. result ≡ (if is_host c.server host then Dropped else Nothing)) }
    {
        match self.call(id) {
            Some(call) => change_if(is_same_host(call.server, host), Change::Dropped),
            None => Change::Nothing,
        }
    }

    // Of a call, if it was made, this is kept again.
    fn take_back(&mut self, alloc: Global, id: CallId, kept: Spot) -> Result<(), AllocError>
        ensures kept { OnOk result ((v w : View) (f : ASpot → ASpot) → Keeps v self.old → Changes v w id f
            → StandsOr (beside_at self.old id) kept (f (spot v.now id)) → Keeps w self.new) }
        ensures sets { OnOk result (SameSets self.old self.new) }
        ensures rest { OnOk result (SameRest self.old self.new) }
    {
        match self.find(id) {
            Some(at) => self.keep(alloc, at, id, kept),
            None => Ok(()),
        }
    }

    // The bytes of the block's delivery, which is this, aren't admitted.
    fn refuse_this(&mut self, alloc: Global, delivery: Delivery) -> Result<(), AllocError>
        requires { self.old.delivery ≡ Some delivery }
        ensures kept { OnOk result ((v : View) (u : Undo) → Keeps v self.old → IsUndo v (Some u) → IsUndoOf self.old delivery u
            → Keeps (record v { now = v.if_refused }) self.new) }
        ensures delivered { OnOk result ((u : Undo) → IsUndoOf self.old delivery u → IsDelivered self.new self.new.delivery (Some u)) }
        ensures due { OnOk result (due_of self.new.delivery ≡ ends_of delivery.packet.id false false delivery.forgotten) }
        ensures count { OnOk result (SameCount self.old self.new) }
    {
        self.delivery = Some(delivery.without_bytes());
        self.take_back(alloc, delivery.packet.id, delivery.refused)?;
        Ok(())
    }

    // The block's delivery, if it is of this call to this host, is taken back: its bytes aren't admitted.
    fn refuse(&mut self, alloc: Global, host: HostId, id: CallId) -> Result<(), AllocError>
        ensures kept { OnOk result ((v : View) (o : Option Undo) → Ready v o self.old → Keeps (seen.refused v host id) self.new) }
        ensures delivered { OnOk result ((v : View) (o : Option Undo) → Ready v o self.old → IsDelivered self.new self.new.delivery o) }
        ensures due { OnOk result ((v : View) (o : Option Undo) → Ready v o self.old → (seen.refused v host id).now.due ≡ due_of self.new.delivery) }
        ensures count { OnOk result (SameCount self.old self.new) }
    {
        match self.delivery {
            Some(delivery) => {
                if delivery.is_to(host, id) {
                    return self.refuse_this(alloc, delivery);
                }
                Ok(())
            }
            None => Ok(()),
        }
    }

    // The block's delivery, which is this, is taken back: nothing was delivered.
    fn forget_this(&mut self, alloc: Global, delivery: Delivery) -> Result<(), AllocError>
        ensures kept { OnOk result ((v : View) (u : Undo) → Keeps v self.old → IsUndo v (Some u) → IsUndoOf self.old delivery u
            → Keeps (seen.stale v) self.new) }
        ensures delivery { OnOk result (self.new.delivery ≡ None) }
        ensures count { OnOk result (SameCount self.old self.new) }
    {
        self.delivery = None;
        self.take_back(alloc, delivery.packet.id, delivery.stale)?;
        Ok(())
    }

    // The block's delivery is taken back: nothing was delivered.
    fn forget(&mut self, alloc: Global) -> Result<(), AllocError>
        ensures kept { OnOk result ((v : View) (o : Option Undo) → Ready v o self.old → Keeps (seen.stale v) self.new) }
        ensures delivery { OnOk result (self.new.delivery ≡ None) }
        ensures count { OnOk result (SameCount self.old self.new) }
    {
        match self.delivery {
            Some(delivery) => self.forget_this(alloc, delivery),
            None => Ok(()),
        }
    }
}

impl Trace {
    // The line of an event is taken, where a block begins.
    fn take_event(&mut self, alloc: Global, line: &Entry<'_>) -> Result<(), AllocError>
        requires begun { self.old.delivery ≡ None }
        requires here { self.old.here ≡ record { runs = Nobody; dones = Nobody; forgotten = Nobody } }
        requires event { lines.is_event (plain line.now) ≡ true }
        ensures taken { OnOk result ((v : View) (o : Option Undo) → Keeps v self.old → v.place ≡ self.old.place → has_shape v (plain line.now) ≡ true
            → IsUndo v o → Takes v o (plain line.now) self.new) }
        ensures numbers { OnOk result (SameNumbers self.old self.new) }
    {
        match line {
            Entry::Call {
                id,
                server,
                service,
                bytes,
            } => Ok(self.start(alloc, *id, *server, *service, bytes)?),
            Entry::Deliver { packet } => {
                let packet = self.packet(*packet);
                Ok(self.deliver_some(alloc, packet)?)
            }
            Entry::Recv { host, from, bytes } => {
                let packet = received(*host, *from, bytes, self.settings.wire);
                Ok(self.deliver_some(alloc, packet)?)
            }
            Entry::Clock { tick } => {
                self.tick = *tick;
                Ok(())
            }
            Entry::Restart { host, inc } => Ok(self.restart(alloc, *host, *inc)?),
            Entry::Shift { host, n } => Ok(self.shift(alloc, *host, *n)?),
            _ => Ok(()),
        }
    }

    // A line within a block is taken.
    fn take_inner(&mut self, alloc: Global, line: &Entry<'_>) -> Result<(), AllocError>
        requires { lines.is_event (plain line.now) ≡ false }
        ensures taken { OnOk result ((v : View) (o : Option Undo) → Ready v o self.old → IsOther (plain line.now) → has_shape v (plain line.now) ≡ true
            → runs_once v (plain line.now) ≡ true → Takes v o (plain line.now) self.new) }
        ensures numbers { OnOk result (SameNumbers self.old self.new) }
    {
        match line {
            Entry::Send {
                from,
                to,
                inc,
                role,
                id,
                body,
                payload,
                ..
            } => {
                let packet = Packet {
                    from: *from,
                    to: *to,
                    inc: *inc,
                    role: *role,
                    id: *id,
                    piece: Piece::of(body, payload.len() as u64),
                };
                Ok(self.send(alloc, packet, body)?)
            }
            Entry::Run {
                host,
                id,
                response,
                ..
            } => Ok(self.run(alloc, *host, *id, response)?),
            Entry::Done { id, .. } => Ok(self.done(alloc, *id)?),
            Entry::Fail { id, why } => Ok(self.fail(alloc, *id, *why)?),
            Entry::Drop { host, id } => Ok(self.give_up(alloc, *host, *id)?),
            Entry::Stale { .. } => Ok(self.forget(alloc)?),
            Entry::Gaps { host, id } => Ok(self.refuse(alloc, *host, *id)?),
            Entry::FullRows { host, id, .. } => Ok(self.refuse(alloc, *host, *id)?),
            Entry::FullPages { host, id, .. } => Ok(self.refuse(alloc, *host, *id)?),
            _ => Ok(()),
        }
    }

    // Where the call of the packet with this number stands, if it was sent.
    fn find_packet(&self, number: u64) -> Option<usize> {
        self.find(self.packet(number)?.id)
    }

    /// Notes where the call of a packet stands, whose sending or delivery a line tells: the next look-ups are of it.
    #[tactic(auto, using(crate::proofs::TakenLaws::looked_up))]
    pub fn look_up(&mut self, line: &Entry<'_>)
        ensures kept { (v : View) → Follows v self.old → Follows v self.new }
        ensures same { self.new ≡ record self.old { recent = self.new.recent } }
    {
        let found = match line {
            Entry::Send { id, .. } => self.find(*id),
            Entry::Deliver { packet } => self.find_packet(*packet),
            _ => None,
        };
        if let Some(at) = found {
            self.recent = at;
        }
    }

    /// The call whose messages are to be tested behind a line, if any.
    pub fn to_test(&self, line: &Entry<'_>) -> Option<CallId>
        ensures { result ≡ tested self.now.delivery (plain line.now) }
    {
        match line {
            Entry::Send { id, .. } => Some(*id),
            Entry::Deliver { .. }
            | Entry::Recv { .. }
            | Entry::Stale { .. }
            | Entry::Gaps { .. }
            | Entry::FullRows { .. }
            | Entry::FullPages { .. } => self.delivery.map(|delivery| delivery.packet.id),
            _ => None,
        }
    }

    /// The messages of a call, if there is one, are within their windows.
    pub fn is_within(&self, id: Option<CallId>) -> bool
        ensures { (v : View) → Keeps v self.now → result ≡ keeps_window v id }
    {
        match id {
            Some(id) => match self.call(id) {
                Some(call) => call
                    .spot_in(self.lives(id, call.server))
                    .is_within(self.settings.window),
                None => true,
            },
            None => true,
        }
    }

    // A line behind the first one is taken; how many lines there were stays.
    fn take_other(&mut self, alloc: Global, line: &Entry<'_>) -> Result<(), AllocError>
        ensures taken { OnOk result ((v : View) (o : Option Undo) → Ready v o self.old → v.place ≡ self.old.place → IsOther (plain line.now)
            → has_shape v (plain line.now) ≡ true → runs_once v (plain line.now) ≡ true → Takes v o (plain line.now) self.new) }
        ensures numbers { OnOk result (SameNumbers self.old self.new) }
    {
        if is_event(line) {
            self.begin();
            return self.take_event(alloc, line);
        }
        self.take_inner(alloc, line)
    }

    // A line is taken; how many lines there were stays.
    fn take_line(&mut self, alloc: Global, line: &Entry<'_>) -> Result<(), AllocError>
        ensures taken { OnOk result ((v : View) (o : Option Undo) → Ready v o self.old → v.place ≡ self.old.place → (v.place ≡ 0 → v ≡ nothing_seen)
            → has_shape v (plain line.now) ≡ true → runs_once v (plain line.now) ≡ true → Takes v o (plain line.now) self.new) }
        ensures numbers { OnOk result (SameNumbers self.old self.new) }
    {
        match line {
            Entry::Settings(settings) => {
                self.settings = *settings;
                Ok(())
            }
            _ => self.take_other(alloc, line),
        }
    }

    /// A line that has its shape is taken, and of `run` lines one that runs its call once.
    pub fn take(&mut self, alloc: Global, line: &Entry<'_>) -> Result<(), AllocError>
        ensures { OnOk result ((v : View) → Follows v self.old → v.place < 2 ^ 64 - 1 → has_shape v (plain line.now) ≡ true
            → runs_once v (plain line.now) ≡ true → IsTaken v self.old (plain line.now) self.new) }
    {
        self.take_line(alloc, line)?;
        self.place = self.place.saturating_add(1);
        self.ended = is_ended(self.ended, line);
        Ok(())
    }
}
