// A net in memory, whose faults are planned.
ghost use Rattle.std.specs.Prelude.{◌≡◌, ◌≤◌, ◌<◌, ◌+◌, ◌⊎◌, ◌||◌, false, true, Some, None, [], ◌∷◌, ◌++◌, length, map};
ghost use Rattle.std.specs.Prelude.{vec_capacity, OnOk, OnErr, IfOk, IfSome, if◌then◌else◌, refl};
ghost use Rattle.homa_plain.specs.declared.id.HostId.{HostId as Host};
ghost use Rattle.homa_plain.specs.Calls.{is_host};
ghost use Rattle.node_io.specs.Hosts.{set_has};
ghost use Rattle.node_io.specs.Net.{arrival_of, receive_of, IfFrom, is_welcome, next_arrival, left_queued, if_queued, added, datagram_of};
ghost use Rattle.node_io.specs.Given.{received, act_of};
ghost use Rattle.node_io.specs.Called.{CountsErrors, HasLearned};
ghost use Rattle.node_runs.specs.Acts.{Bound, Routed, Sent, Received};

use crate::faults::Calls;
use crate::hosts::HostSet;
use crate::{Got, Net, NetFailed, NoMemory};
use homa_plain::{Frame, HostId};
use std::alloc::Global;

// A frame of these bytes.
fn frame_of(bytes: &[u8]) -> Frame
    requires { length bytes.now ≤ 1500 }
    ensures { result ≡ bytes.now }
{
    let mut frame = Frame::empty();
    frame.set(bytes);
    frame
}

// Puts a datagram behind others, for which room was reserved.
fn put(list: &mut Vec<(HostId, HostId, Frame)>, from: HostId, to: HostId, bytes: &[u8])
    requires fits { length bytes.now ≤ 1500 }
    requires room { length list.old.items < vec_capacity list.old }
    ensures items { map datagram_of list.new.items ≡ map datagram_of list.old.items ++ record { from = from; to = to; bytes = bytes.now } ∷ [] }
    ensures len { length list.new.items ≡ length list.old.items + 1 }
    ensures capacity { vec_capacity list.old ≤ vec_capacity list.new }
{
    // No memory is taken here, and this can't fail.
    list.push((from, to, frame_of(bytes))).unwrap();
}

// The same, or nothing.
fn put_if(
    is_put: bool,
    list: &mut Vec<(HostId, HostId, Frame)>,
    from: HostId,
    to: HostId,
    bytes: &[u8],
)
    requires fits { length bytes.now ≤ 1500 }
    requires room { length list.old.items < vec_capacity list.old }
    ensures items { map datagram_of list.new.items
        ≡ (if is_put then map datagram_of list.old.items ++ record { from = from; to = to; bytes = bytes.now } ∷ [] else map datagram_of list.old.items) }
    ensures len { length list.new.items ≤ length list.old.items + 1 }
    ensures capacity { vec_capacity list.old ≤ vec_capacity list.new }
{
    if is_put {
        put(list, from, to, bytes);
    }
}

// Takes the oldest datagram for a host from another one that is known, and those for this host before it.
fn take_next(
    queued: &mut Vec<(HostId, HostId, Frame)>,
    known: &HostSet,
    host: HostId,
    frame: &mut Frame,
) -> Got
    ensures from { IfFrom result (λ from. is_welcome (set_has known.now) host from ≡ true) }
    ensures oldest { arrival_of result frame.new ≡ next_arrival (set_has known.now) host (map datagram_of queued.old.items) }
    ensures left { map datagram_of queued.new.items ≡ left_queued (set_has known.now) host (map datagram_of queued.old.items) }
    ensures len { length queued.new.items ≤ length queued.old.items }
    ensures capacity { vec_capacity queued.new ≡ vec_capacity queued.old }
{
    let mut at = 0;
    while at < queued.len() {
        if queued[at].1 != host {
            at += 1;
            continue;
        }
        let (from, _, datagram) = queued.remove(at);
        if known.contains(from) && from != host {
            frame.set(datagram.bytes());
            return Got::Frame { from };
        }
    }
    Got::Nothing
}

// What a receive gave, to be kept.
fn given(got: Got, frame: &Frame) -> Option<(HostId, Frame)>
    ensures { (host : Host) → received (host, result) ≡ receive_of host got frame.now }
{
    match got {
        Got::Frame { from } => Some((from, frame_of(frame.bytes()))),
        Got::Nothing => None,
    }
}

// A call that didn't fail, as it is kept.
#[derive(Drop)]
pub(crate) enum Kept {
    Bound(HostId, u16),
    Routed(HostId, u16),
    Sent(HostId, HostId, Frame),
    Received(HostId, Option<(HostId, Frame)>),
}

// Keeps a call behind others, for which room was reserved.
fn keep(list: &mut Vec<Kept>, kept: Kept)
    requires room { length list.old.items < vec_capacity list.old }
    ensures items { map act_of list.new.items ≡ map act_of list.old.items ++ act_of kept ∷ [] }
    ensures len { length list.new.items ≡ length list.old.items + 1 }
    ensures capacity { vec_capacity list.old ≤ vec_capacity list.new }
{
    // No memory is taken here, and this can't fail.
    list.push(kept).unwrap();
}

/// For how many hosts that are bound or routed there is room: twice the most that settings allow.
const MOST_PLACES: u32 = 64;

/// A net in memory, with room for so many sends and as many receives, and for 64 hosts that are bound or routed, of which chosen
/// calls fail. A datagram that is sent to a host that was bound is queued for that host. A call fails where its number is among
/// those that are to fail, or where there is no room for it; a send also where the datagram has more than 1,500 bytes.
#[derive(Drop)]
pub struct MemNet {
    queued: Vec<(HostId, HostId, Frame)>,
    acts: Vec<Kept>,
    bound: HostSet,
    known: HostSet,
    // for how many calls of each kind there is still room
    places: u32,
    sends: u32,
    receives: u32,
    calls: Calls,
    ghost acts_reserved: { length acts.items + (places + (sends + receives)) ≤ vec_capacity acts },
    ghost queued_reserved: { length queued.items + sends ≤ vec_capacity queued },
}

impl MemNet {
    ghost use Rattle.node_io.specs.Memory.{net_bound, net_known, net_queue, net_sent, net_gave, net_acts};
    ghost use Rattle.node_io.specs.Memory.{net_faults, net_fails, net_calls, net_sends, net_receives, net_places};

    /// A net that knows no host. `queued` has sender, receiver and datagram of what is queued, the oldest first. It has
    /// room for `room` sends and as many receives, whose memory is taken here. `fails` has the numbers, from 0, of the
    /// calls that are to fail.
    pub fn new(
        alloc: Global,
        queued: Vec<(HostId, HostId, Frame)>,
        room: u32,
        fails: Vec<u64>,
    ) -> Result<MemNet, NoMemory>
        ensures known { IfOk result (λ net. (h : Host) → net_known net h ≡ false) }
        ensures bound { IfOk result (λ net. (h : Host) → net_bound net h ≡ false) }
        ensures queued { IfOk result (λ net. net_queue net ≡ map datagram_of queued.items) }
        ensures acts { IfOk result (λ net. net_acts net ≡ Some []) }
        ensures sent { IfOk result (λ net. net_sent net ≡ Some []) }
        ensures gave { IfOk result (λ net. net_gave net ≡ Some []) }
        ensures faults { IfOk result (λ net. net_faults net ≡ 0) }
        ensures fails { IfOk result (λ net. net_fails net ≡ fails.items) }
        ensures calls { IfOk result (λ net. net_calls net ≡ 0) }
        ensures sends { IfOk result (λ net. net_sends net ≡ room) }
        ensures receives { IfOk result (λ net. net_receives net ≡ room) }
        ensures places { IfOk result (λ net. net_places net ≡ 64) }
    {
        let mut queued = queued;
        queued.reserve(room as usize)?;
        Ok(MemNet {
            queued,
            acts: Vec::with_capacity(
                alloc,
                MOST_PLACES as usize + (room as usize + room as usize),
            )?,
            bound: HostSet::new(),
            known: HostSet::new(),
            places: MOST_PLACES,
            sends: room,
            receives: room,
            calls: Calls::new(fails),
        })
    }
}

impl Net for MemNet {
    ghost use Rattle.node_io.specs.Memory.{net_bound, net_known, net_queue, net_queued, queue_with, net_sent, net_gave, net_faults};
    ghost use Rattle.node_io.specs.Memory.{net_sends, net_receives, net_places, net_acts, IsPlanned, TakesRoom};

    ghost known = { net_known };

    ghost queued = { net_queued };

    ghost acts = { net_acts };

    ghost sent = { net_sent };

    ghost gave = { net_gave };

    ghost faults = { net_faults };

    fn bind(&mut self, host: HostId, port: u16) -> Result<(), NetFailed>
        ensures learned { HasLearned net_known net_queued net_acts net_sent net_gave net_faults result
            self.old self.new host (Bound host port) }

        // It fails exactly where the plan has its number or there is no room, and what is sent to the host is queued from now on.
        ensures bound { OnOk result ((h : Host) → net_bound self.new h ≡ (net_bound self.old h || is_host h host)) }
        ensures planned { IsPlanned result self.old self.new (net_places self.old ≡ 0) }
        ensures room { TakesRoom net_places net_sends net_receives result self.old self.new }
    {
        self.calls.begin(self.places > 0)?;
        self.places -= 1;
        keep(&mut self.acts, Kept::Bound(host, port));
        self.bound.insert(host);
        self.known.insert(host);
        Ok(())
    }

    fn route(&mut self, host: HostId, port: u16) -> Result<(), NetFailed>
        ensures learned { HasLearned net_known net_queued net_acts net_sent net_gave net_faults result
            self.old self.new host (Routed host port) }

        // It fails exactly where the plan has its number or there is no room.
        ensures bound { net_bound self.new ≡ net_bound self.old }
        ensures planned { IsPlanned result self.old self.new (net_places self.old ≡ 0) }
        ensures room { TakesRoom net_places net_sends net_receives result self.old self.new }
    {
        self.calls.begin(self.places > 0)?;
        self.places -= 1;
        keep(&mut self.acts, Kept::Routed(host, port));
        self.known.insert(host);
        Ok(())
    }

    fn send(&mut self, from: HostId, to: HostId, bytes: &[u8]) -> Result<(), NetFailed>
        ensures acts { OnOk result (net_acts self.new ≡ added (net_acts self.old) (Sent (record { from = from; to = to; bytes = bytes.now }))) }
        ensures err_acts { OnErr result (net_acts self.new ≡ net_acts self.old) }
        ensures sent { OnOk result (net_sent self.new ≡ added (net_sent self.old) (record { from = from; to = to; bytes = bytes.now })) }
        ensures err { OnErr result (net_sent self.new ≡ net_sent self.old) }
        ensures queued { OnErr result (net_queued self.new ≡ net_queued self.old) }
        ensures known { net_known self.new ≡ net_known self.old }
        ensures gave { net_gave self.new ≡ net_gave self.old }
        ensures counted { CountsErrors net_faults result self.old self.new }

        // It is queued for its receiver, where that was bound. It fails exactly where the plan has its number, there is
        // no room, or the datagram is too long.
        ensures queue { OnOk result (net_queue self.new ≡ queue_with self.old (record { from = from; to = to; bytes = bytes.now })) }
        ensures bound { net_bound self.new ≡ net_bound self.old }
        ensures planned { IsPlanned result self.old self.new ((net_sends self.old ≡ 0) ⊎ (1500 < length bytes.now)) }
        ensures room { TakesRoom net_sends net_receives net_places result self.old self.new }
    {
        let has_room = self.sends > 0 && bytes.len() <= 1500;
        self.calls.begin(has_room)?;
        let is_bound = self.bound.contains(to);
        self.sends -= 1;
        keep(&mut self.acts, Kept::Sent(from, to, frame_of(bytes)));
        put_if(is_bound, &mut self.queued, from, to, bytes);
        Ok(())
    }

    fn recv(&mut self, host: HostId, frame: &mut Frame) -> Result<Got, NetFailed>
        ensures from { IfOk result (λ got. IfFrom got (λ from. is_welcome (net_known self.old) host from ≡ true)) }
        ensures oldest { IfOk result (λ got. IfSome (net_queued self.old) (λ queue.
            arrival_of got frame.new ≡ next_arrival (net_known self.old) host queue)) }
        ensures passed { OnOk result (net_queued self.new ≡ if_queued (net_known self.old) host (net_queued self.old)) }
        ensures acts { IfOk result (λ got. net_acts self.new ≡ added (net_acts self.old) (Received (receive_of host got frame.new))) }
        ensures err_acts { OnErr result (net_acts self.new ≡ net_acts self.old) }
        ensures gave { IfOk result (λ got. net_gave self.new ≡ added (net_gave self.old) (receive_of host got frame.new)) }
        ensures err_queued { OnErr result (net_queued self.new ≡ net_queued self.old) }
        ensures err_gave { OnErr result (net_gave self.new ≡ net_gave self.old) }
        ensures known { net_known self.new ≡ net_known self.old }
        ensures sent { net_sent self.new ≡ net_sent self.old }
        ensures counted { CountsErrors net_faults result self.old self.new }

        // It fails exactly where the plan has its number or there is no room.
        ensures bound { net_bound self.new ≡ net_bound self.old }
        ensures planned { IsPlanned result self.old self.new (net_receives self.old ≡ 0) }
        ensures room { TakesRoom net_receives net_sends net_places result self.old self.new }
    {
        self.calls.begin(self.receives > 0)?;
        let got = take_next(&mut self.queued, &self.known, host, frame);
        self.receives -= 1;
        keep(&mut self.acts, Kept::Received(host, given(got, frame)));
        Ok(got)
    }

    ghost sent_is = { λ _. refl };

    ghost gave_is = { λ _. refl };
}
