// What the exports answer, and the kinds of entries.
ghost use Rattle.std.specs.Prelude.{◌≡◌};
ghost use Rattle.homa_c.specs.Results.{fault_code, heard_code, settled_code};

use driven_host::StepFault;
use late_host::{Answered, Heard};

/// It was done.
pub(crate) const OK: u32 = 0;

/// An answer is wanted.
pub(crate) const ASKS: u32 = 1;

/// There is no memory, and nothing happened.
pub(crate) const NO_MEMORY: u32 = 3;

/// As many calls are live as the settings allow; or there is no room to keep what asks.
pub(crate) const FULL: u32 = 4;

/// Not in this life of the host: its numbers, its steps or its clock are at their end.
pub(crate) const SPENT: u32 = 5;

/// It asks for a call that is kept, and is kept in place of the datagram before.
pub(crate) const AT_WORK: u32 = 6;

/// The kept datagram is too old for a step, and the answer is kept.
pub(crate) const LATER: u32 = 7;

/// No call of this id waits for an answer.
pub(crate) const GONE: u32 = 8;

/// No turn that may begin does anything before the next call or datagram.
pub(crate) const NEVER: u32 = 9;

// From here on a program made a mistake.

/// The handle isn't open.
pub(crate) const NOT_OPEN: u32 = 16;

/// The handle is open.
pub(crate) const IS_OPEN: u32 = 17;

/// A setting isn't valid.
pub(crate) const BAD_SETTING: u32 = 18;

/// There is no such host, or no other one of this number.
pub(crate) const BAD_HOST: u32 = 19;

/// The incarnation is 0.
pub(crate) const BAD_INCARNATION: u32 = 20;

/// The clock would begin past its last tick, or fall.
pub(crate) const BAD_TICK: u32 = 21;

/// The request has no bytes.
pub(crate) const NO_BYTES: u32 = 22;

/// The message or the datagram has too many bytes.
pub(crate) const TOO_LONG: u32 = 23;

/// The message takes more pages than a host has.
pub(crate) const TOO_MANY_PAGES: u32 = 24;

/// There is no such frame or entry.
pub(crate) const NOT_THERE: u32 = 25;

/// The room is too small.
pub(crate) const NO_ROOM: u32 = 26;

// Kinds of entries.

pub(crate) const OTHER: u32 = 0;

pub(crate) const RAN: u32 = 1;

pub(crate) const DONE: u32 = 2;

pub(crate) const TIMEOUT: u32 = 3;

pub(crate) const FORGOTTEN: u32 = 4;

pub(crate) const JUNK: u32 = 5;

pub(crate) const STALE: u32 = 6;

pub(crate) const NO_ROW: u32 = 7;

pub(crate) const NO_PAGES: u32 = 8;

pub(crate) const GAPS: u32 = 9;

pub(crate) const DROPPED: u32 = 10;

pub(crate) const BURIED: u32 = 11;

pub(crate) const FREED: u32 = 12;

pub(crate) const CALLED: u32 = 13;

pub(crate) const SENT: u32 = 14;

pub(crate) const BALANCED: u32 = 15;

/// The peer of an entry that has none.
pub(crate) const NO_PEER: u16 = 65_535;

// What C is told where no step begins.
pub(crate) fn code_of(fault: StepFault) -> u32
    ensures { result ≡ fault_code fault }
{
    match fault {
        StepFault::NoHost => BAD_HOST,
        StepFault::Spent => SPENT,
        StepFault::Back => BAD_TICK,
        StepFault::Empty => NO_BYTES,
        StepFault::TooLong => TOO_LONG,
        StepFault::TooManyPages => TOO_MANY_PAGES,
        StepFault::CallsFull => FULL,
    }
}

// What C is told of a datagram that a host hears which keeps what asks.
pub(crate) fn code_of_heard(heard: Heard) -> u32
    ensures { result ≡ heard_code heard }
{
    match heard {
        Heard::Taken | Heard::Ran(_) => OK,
        Heard::Asks(_) => ASKS,
        Heard::AtWork(_) => AT_WORK,
        Heard::Full(_) => FULL,
        Heard::NoMemory => NO_MEMORY,
        Heard::Refused(fault) => code_of(fault),
    }
}

// What C is told of an answer.
pub(crate) fn code_of_settled(answered: Answered) -> u32
    ensures { result ≡ settled_code answered }
{
    match answered {
        Answered::Ran | Answered::Held => OK,
        Answered::Later => LATER,
        Answered::Gone => GONE,
        Answered::NoMemory => NO_MEMORY,
        Answered::Refused(fault) => code_of(fault),
    }
}
