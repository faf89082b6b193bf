// Why a call, an event or a line is refused.
use crate::SettingFault;

/// Why a call can't start, in the order in which the causes are tested.
#[derive(Clone, Copy, Debug, PartialEq, Eq)]
pub enum StartFault {
    /// The request has no bytes.
    Empty,
    /// The request has more than 1,000,000 bytes.
    TooLong,
    /// The server is the client itself.
    SelfCall,
    /// The client has as many live calls as the settings allow.
    CallsFull,
    /// The client's sequence numbers are used up.
    SeqSpent,
}

/// Why a world refuses an event. It is then as before.
#[derive(Clone, Copy, Debug, PartialEq, Eq)]
pub enum WorldFault {
    /// A host's number is not below `hosts`.
    NoSuchHost,
    /// No packet with this number was sent.
    NoSuchPacket,
    /// The packet was sent at tick `sent`, and may no longer be delivered at tick `now`.
    Late { sent: u64, now: u64 },
    /// The call can't start.
    Start(StartFault),
    /// No spare service is left for the host that restarts.
    NoSpare,
    /// The clock stands at its last tick.
    ClockEnd,
    /// The datagram that is to be injected is a packet.
    Decodes,
    /// The program is out of memory.
    NoMemory,
    /// A lead of `n` ticks is above `most`.
    OutOfBand { n: u32, most: u32 },
    /// The host's own clock would go back from `last` to `now`.
    Back { last: u64, now: u64 },
}

/// Why a line is none that may stand in its place.
#[derive(Clone, Copy, Debug, PartialEq, Eq)]
pub enum ScriptFault {
    /// The line is longer than any may be.
    LongLine,
    /// The line isn't UTF-8.
    NotUtf8,
    /// The first word is none that may stand here.
    UnknownWord,
    /// An operand isn't a number, or not one in its range.
    BadNumber,
    /// An operand doesn't spell bytes.
    BadHex,
    /// A word follows the last operand.
    Extra,
    /// An operand is missing, or, at `go` of a node script, a part of the setup.
    Missing,
    /// The settings aren't valid.
    Setting(SettingFault),
    /// `go` is missing, before this event or at the end of the input.
    NoGo,
    /// The input is longer than any may be.
    InputTooLong,
}

/// Why a line is refused: by what it says, or by the world. No line is refused for want of memory.
#[derive(Clone, Copy, Debug, PartialEq, Eq)]
pub enum LineFault {
    Script(ScriptFault),
    World(WorldFault),
}
