// What is drawn of a packet on its way to the switch.
ghost use Rattle.std.specs.Prelude.{◌≡◌, ◌≤◌, false};
ghost use Rattle.packet_network.specs.Chances.{drawn};

use experiment::{Draws, Network, PacketName};

/// Whether a packet is lost, whether it comes twice, and how much longer it takes to the switch.
#[derive(Clone, Copy, Debug, PartialEq, Eq)]
pub(crate) struct Chance {
    pub(crate) is_lost: bool,
    pub(crate) is_repeated: bool,
    pub(crate) late: u64,
}

// Jitter is drawn in nanoseconds.
const NANO: u64 = 1000;

/// What is drawn of the packet of this name, in the run of this seed: by its name alone.
pub(crate) fn chance_of(seed: u64, name: PacketName, network: &Network) -> Chance
    ensures drawn { result ≡ drawn seed name network.now.loss network.now.repeat network.now.jitter }
    ensures none_lost { network.now.loss ≡ 0 → result.is_lost ≡ false }
    ensures none_repeated { network.now.repeat ≡ 0 → result.is_repeated ≡ false }
    ensures late { result.late ≤ network.now.jitter }
{
    let mut draws = Draws::named(seed, name);
    let is_lost = draws.is_in(network.loss);
    let is_repeated = draws.is_in(network.repeat);
    let late = u64::from(draws.below((network.jitter / NANO) as u32 + 1)) * NANO;
    Chance {
        is_lost,
        is_repeated,
        late,
    }
}
