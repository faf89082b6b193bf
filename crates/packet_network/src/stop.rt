// Why a network stops.
use std::alloc::AllocError;

/// Why a network stops: memory ran out, or the run is longer than its moments and numbers reach.
#[derive(Clone, Copy, Debug, PartialEq, Eq)]
pub enum NetworkStop {
    NoMemory,
    TooLong,
}

impl From<AllocError> for NetworkStop {
    fn from(_error: AllocError) -> NetworkStop {
        NetworkStop::NoMemory
    }
}
