// What receivers are told.
ghost use Rattle.std.specs.Prelude.{◌≡◌, nat_lt};

use homa_plain::HostId;
use packet_network::PacketNetwork;
use run_gauges::SENDERS;

/// Whether receivers know this host.
pub(crate) fn is_known(host: HostId) -> bool
    ensures { result ≡ nat_lt host.0 32 }
{
    usize::from(host.0) < SENDERS
}

/// The first piece of a sender's message came to a receiver, which didn't grant all of it if it is short.
pub(crate) fn begins(packets: &mut PacketNetwork, receiver: HostId, sender: HostId, is_short: bool)
    ensures network { packets.new.state ≡ packets.old.state }
    ensures agenda { packets.new.agenda ≡ packets.old.agenda }
{
    if !is_known(receiver) || !is_known(sender) {
        return;
    }
    packets.begins(receiver, sender);
    if is_short {
        packets.opens(receiver);
    }
}

/// A receiver granted all of a message.
pub(crate) fn closes(packets: &mut PacketNetwork, receiver: HostId)
    ensures network { packets.new.state ≡ packets.old.state }
    ensures agenda { packets.new.agenda ≡ packets.old.agenda }
{
    if is_known(receiver) {
        packets.closes(receiver);
    }
}

/// A message of which a piece came is whole or given up.
pub(crate) fn completes(
    packets: &mut PacketNetwork,
    receiver: HostId,
    sender: HostId,
    is_short: bool,
)
    ensures network { packets.new.state ≡ packets.old.state }
    ensures agenda { packets.new.agenda ≡ packets.old.agenda }
{
    if !is_known(receiver) || !is_known(sender) {
        return;
    }
    packets.completes(receiver, sender);
    if is_short {
        packets.closes(receiver);
    }
}
