// The simulated network, as what surrounds a world.
ghost use Rattle.std.specs.Prelude.{◌≡◌};
ghost use Rattle.simulation.specs.Network.{datagram_of};

use crate::HostNetwork;
use homa_plain::Entry;
use homa_world::Passing;
use simulated_network::{NetworkStop, RunStep, SentDatagram, SimulatedNetwork};

// What is known of a packet's datagram.
fn datagram_of(passing: Option<Passing>) -> Option<SentDatagram>
    ensures { result ≡ datagram_of passing }
{
    let passing = passing?;
    Some(SentDatagram {
        len: passing.len,
        tick: passing.tick,
    })
}

impl HostNetwork for SimulatedNetwork<'_> {
    ghost use Rattle.simulated_network.specs.Troubles.{one_left_out};
    ghost use Rattle.simulation.specs.Network.{Gives, Heeds};

    ghost gives = { λ a tick given b. Gives a given b };

    ghost heeds = { λ a e passing b. Heeds a e passing b };

    ghost leaves = { λ a b. b ≡ record a { trouble = one_left_out a.trouble } };

    ghost moment = { λ a. a.network.moment };

    ghost count = { λ a. a.drawn };

    fn next(&mut self, tick: u64) -> Result<RunStep, NetworkStop> {
        SimulatedNetwork::next(self, tick)
    }

    fn leave_out(&mut self) {
        self.leaves_out();
    }

    fn heed(&mut self, entry: &Entry<'_>, passing: Option<Passing>) -> Result<(), NetworkStop> {
        SimulatedNetwork::heed(self, entry, datagram_of(passing))
    }

    fn now(&self) -> u64 {
        SimulatedNetwork::now(self)
    }

    fn drawn(&self) -> u32 {
        SimulatedNetwork::drawn(self)
    }
}
