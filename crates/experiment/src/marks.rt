// What happens at moments that lines say. A moment is picoseconds.
ghost use Rattle.std.specs.Prelude.{◌≡◌};
ghost use Rattle.experiment.specs.Marks.{last_at};

use homa_plain::HostId;

/// A host that restarts at a moment, and the line that says so.
#[derive(Clone, Copy, Debug, PartialEq, Eq)]
pub struct Restarting {
    pub host: HostId,
    pub at: u64,
    pub line: u64,
}

/// A call of a list: who calls whom with how many bytes, when, and the line that says so.
#[derive(Clone, Copy, Debug, PartialEq, Eq)]
pub struct ListedCall {
    pub client: HostId,
    pub server: HostId,
    pub bytes: u32,
    pub at: u64,
    pub line: u64,
}

/// A datagram of so many counting bytes that comes to a host at a moment, and the line that says so.
#[derive(Clone, Copy, Debug, PartialEq, Eq)]
pub struct Injection {
    pub host: HostId,
    pub bytes: u32,
    pub at: u64,
    pub line: u64,
}

/// A host's clock is set so many ticks ahead at a moment, and the line that says so. Clocks begin `skew` ticks ahead.
#[derive(Clone, Copy, Debug, PartialEq, Eq)]
pub struct Shifting {
    pub host: HostId,
    pub ticks: u32,
    pub at: u64,
    pub line: u64,
}

/// The moment of the last call, or 0.
pub(crate) fn last_at(calls: &[ListedCall]) -> u64
    ensures { result ≡ last_at calls.now }
{
    if calls.is_empty() {
        0
    } else {
        calls[calls.len() - 1].at
    }
}
