// Why a command stops before its end.
use homa_io::{ReadFailed, WriteFailed};
use std::alloc::AllocError;

/// Why a command stops before its end. What was written by then is a front of its text.
#[derive(Clone, Copy, Debug, PartialEq, Eq)]
pub enum Stop {
    /// The source gave a fault.
    Read,
    /// The sink gave a fault.
    Write,
    /// There is no memory.
    NoMemory,
}

impl From<ReadFailed> for Stop {
    ghost use Rattle.std.specs.Prelude.{◌≡◌};
    ghost use Rattle.homa_replay.specs.declared.stop.Stop.TheVariants.{Read};

    ghost from_gives = { λ _ stop. stop ≡ Read };

    fn from(_: ReadFailed) -> Self {
        Stop::Read
    }
}

impl From<WriteFailed> for Stop {
    ghost use Rattle.std.specs.Prelude.{◌≡◌};
    ghost use Rattle.homa_replay.specs.declared.stop.Stop.TheVariants.{Write};

    ghost from_gives = { λ _ stop. stop ≡ Write };

    fn from(_: WriteFailed) -> Self {
        Stop::Write
    }
}

impl From<AllocError> for Stop {
    ghost use Rattle.std.specs.Prelude.{◌≡◌};
    ghost use Rattle.homa_replay.specs.declared.stop.Stop.TheVariants.{NoMemory};

    ghost from_gives = { λ _ stop. stop ≡ NoMemory };

    fn from(_: AllocError) -> Self {
        Stop::NoMemory
    }
}
