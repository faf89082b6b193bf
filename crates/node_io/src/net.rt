// What datagrams are sent to and received from.
ghost use Rattle.std.specs.Prelude.{◌≡◌, ℕ, Bool, true, Option, List, OnOk, OnErr, IfOk, IfSome};
ghost use Rattle.homa_plain.specs.declared.id.HostId.{HostId as Host};
ghost use Rattle.node_runs.specs.Course.{Datagram, Receive};
ghost use Rattle.node_runs.specs.Acts.{Act, Bound, Routed, Sent, Received};
ghost use Rattle.node_io.specs.Called.{CountsErrors, HasLearned};
ghost use Rattle.node_io.specs.Net.{arrival_of, receive_of, IfFrom, is_welcome, next_arrival, if_queued, added, sent_in, given_in};

use homa_plain::{Frame, HostId};

/// A call of a net failed, and the net counted a fault. Of an observable net nothing was sent or given.
#[derive(Clone, Copy, Debug, PartialEq, Eq)]
pub struct NetFailed;

/// What a receive gave.
#[derive(Clone, Copy, Debug, PartialEq, Eq)]
pub enum Got {
    /// A datagram from this host, which the frame holds.
    Frame { from: HostId },
    /// No datagram.
    Nothing,
}

/// What datagrams go to and come from, between hosts. Its calls take no memory.
pub trait Net {
    /// The hosts that were bound or routed.
    ghost known: { Self → Host → Bool };

    /// The datagrams that are queued, the oldest first, where the net can tell.
    ghost queued: { Self → Option (List Datagram) };

    /// What it did, in order, where it can tell: each call that didn't fail.
    ghost acts: { Self → Option (List Act) };

    /// The datagrams that it took, in order, where it can tell.
    ghost sent: { Self → Option (List Datagram) };

    /// For which host each receive was that didn't fail, and what it gave, in order, where it can tell.
    ghost gave: { Self → Option (List Receive) };

    /// How many faults there were; the count stays at its last value, 2^64 - 1.
    ghost faults: { Self → ℕ };

    /// Makes a host one that sends and receives here, at this port. Only an error counts a fault.
    fn bind(&mut self, host: HostId, port: u16) -> Result<(), NetFailed>
        ensures learned { HasLearned known queued acts sent gave faults result
            self.old self.new host (Bound host port) };

    /// Says at which port a host is that isn't bound here. Only an error counts a fault.
    fn route(&mut self, host: HostId, port: u16) -> Result<(), NetFailed>
        ensures learned { HasLearned known queued acts sent gave faults result
            self.old self.new host (Routed host port) };

    /// Sends a datagram. Only an error counts a fault, and then nothing was taken.
    fn send(&mut self, from: HostId, to: HostId, bytes: &[u8]) -> Result<(), NetFailed>
        ensures acts { OnOk result (acts self.new ≡ added (acts self.old) (Sent (record { from = from; to = to; bytes = bytes.now }))) }
        ensures err_acts { OnErr result (acts self.new ≡ acts self.old) }
        ensures sent { OnOk result (sent self.new ≡ added (sent self.old) (record { from = from; to = to; bytes = bytes.now })) }
        ensures err { OnErr result (sent self.new ≡ sent self.old) }
        ensures queued { OnErr result (queued self.new ≡ queued self.old) }
        ensures known { known self.new ≡ known self.old }
        ensures gave { gave self.new ≡ gave self.old }
        ensures counted { CountsErrors faults result self.old self.new };

    /// Receives a datagram for a host from another host that was bound or routed: the oldest, where the net tells what is
    /// queued. What others sent is passed over. A receive gives at most 1,500 bytes. Only an error counts a fault, and then nothing was
    /// given.
    fn recv(&mut self, host: HostId, frame: &mut Frame) -> Result<Got, NetFailed>
        ensures from { IfOk result (λ got. IfFrom got (λ from. is_welcome (known self.old) host from ≡ true)) }
        ensures oldest { IfOk result (λ got. IfSome (queued self.old) (λ queue.
            arrival_of got frame.new ≡ next_arrival (known self.old) host queue)) }
        ensures passed { OnOk result (queued self.new ≡ if_queued (known self.old) host (queued self.old)) }
        ensures acts { IfOk result (λ got. acts self.new ≡ added (acts self.old) (Received (receive_of host got frame.new))) }
        ensures err_acts { OnErr result (acts self.new ≡ acts self.old) }
        ensures gave { IfOk result (λ got. gave self.new ≡ added (gave self.old) (receive_of host got frame.new)) }
        ensures err_queued { OnErr result (queued self.new ≡ queued self.old) }
        ensures err_gave { OnErr result (gave self.new ≡ gave self.old) }
        ensures known { known self.new ≡ known self.old }
        ensures sent { sent self.new ≡ sent self.old }
        ensures counted { CountsErrors faults result self.old self.new };

    /// What was sent is what it took among the things that it did.
    ghost sent_is: { (net : Self) → sent net ≡ sent_in (acts net) };

    /// And so is what it gave.
    ghost gave_is: { (net : Self) → gave net ≡ given_in (acts net) };
}
