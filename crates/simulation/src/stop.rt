// Why a run stops.
use homa_io::WriteFailed;
use homa_plain::WorldFault;
use simulated_network::NetworkStop;
use std::alloc::AllocError;

/// Why a run stops before its end.
#[derive(Clone, Copy, Debug, PartialEq, Eq)]
pub enum SimStop {
    /// There is no memory.
    NoMemory,
    /// The sink gave a fault.
    Write,
    /// The world refused an event.
    Refused(WorldFault),
    /// A moment or a number of steps is above what a run may have.
    TooLong,
    /// As many events happened as the experiment allows.
    Events,
}

impl From<AllocError> for SimStop {
    ghost use Rattle.std.specs.Prelude.{◌≡◌};
    ghost use Rattle.simulation.specs.declared.stop.SimStop.TheVariants.{NoMemory};

    ghost from_gives = { λ _ stop. stop ≡ NoMemory };

    fn from(_: AllocError) -> SimStop {
        SimStop::NoMemory
    }
}

impl From<WriteFailed> for SimStop {
    ghost use Rattle.std.specs.Prelude.{◌≡◌};
    ghost use Rattle.simulation.specs.declared.stop.SimStop.TheVariants.{Write};

    ghost from_gives = { λ _ stop. stop ≡ Write };

    fn from(_: WriteFailed) -> SimStop {
        SimStop::Write
    }
}

impl From<NetworkStop> for SimStop {
    ghost use Rattle.std.specs.Prelude.{◌≡◌};
    ghost use Rattle.simulation.specs.Stops.{stop_of};

    ghost from_gives = { λ fault stop. stop ≡ stop_of fault };

    fn from(fault: NetworkStop) -> SimStop {
        match fault {
            NetworkStop::NoMemory => SimStop::NoMemory,
            NetworkStop::TooLong => SimStop::TooLong,
        }
    }
}
