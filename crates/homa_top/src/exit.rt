// How the program ends.
ghost use Rattle.std.specs.Prelude.{◌≡◌};
ghost use Rattle.homa_top.specs.Exits.{code};

/// How a command ended; the program exits with its code.
#[derive(Clone, Copy, Debug, PartialEq, Eq)]
pub enum ExitStatus {
    /// 0: the command came to its end. If it reads an input, it read all of it.
    Done,
    /// 1: the words are no command.
    NoCommand,
    /// 2: a line is refused, or the verdict is no.
    Refused,
    /// 3: the source counted a fault.
    ReadFailed,
    /// 4: the sink counted a fault.
    WriteFailed,
    /// 5: there is no memory. It may come at any time: no clause says when.
    NoMemory,
    /// 6: the net counted a fault.
    NetFailed,
    /// 7: a node took its last loop turn before the clock reached the end.
    Stalled,
    /// 8: at a recorded node a packet arrived that its sender hadn't sent to this host in this run, in the last `life` ticks.
    Stranger,
}

impl ExitStatus {
    /// The code, from 0 to 8.
    pub fn code(self) -> u8
        ensures { result ≡ code self }
    {
        match self {
            ExitStatus::Done => 0,
            ExitStatus::NoCommand => 1,
            ExitStatus::Refused => 2,
            ExitStatus::ReadFailed => 3,
            ExitStatus::WriteFailed => 4,
            ExitStatus::NoMemory => 5,
            ExitStatus::NetFailed => 6,
            ExitStatus::Stalled => 7,
            ExitStatus::Stranger => 8,
        }
    }
}
