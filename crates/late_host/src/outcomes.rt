// What comes of a datagram, and of an answer.
use driven_host::StepFault;
use homa_host::Asked;
use homa_plain::CallId;

/// What came of a datagram.
#[derive(Clone, Copy, Debug, PartialEq, Eq)]
pub enum Heard {
    /// The host took its step without an answer. No call ran.
    Taken,
    /// It asks for this call, whose answer was kept. The host took its step with that answer, and ran the call, which isn't kept
    /// any more.
    Ran(CallId),
    /// It asks for this call, which is kept from now on, and wants an answer. Nothing happened to the host.
    Asks(Asked),
    /// It asks for this call, which is kept already. It takes the place of the datagram that asked before. Nothing happened to
    /// the host.
    AtWork(CallId),
    /// It asks for this call, and there is no room to keep it. Nothing happened.
    Full(CallId),
    /// It asks for a call, and there is no memory. Nothing happened.
    NoMemory,
    /// No step begins, for this cause. Nothing happened.
    Refused(StepFault),
}

/// What came of an answer.
#[derive(Clone, Copy, Debug, PartialEq, Eq)]
pub enum Answered {
    /// The host took the step of the kept datagram, and ran the call with this answer. The call isn't kept any more.
    Ran,
    /// The host took the step of the kept datagram, which didn't run the call. The answer is kept for its next datagram.
    Held,
    /// The kept datagram is too old, and no step was taken. The answer is kept for the next one.
    Later,
    /// No call of this id waits for an answer. Nothing happened.
    Gone,
    /// There is no memory. Nothing happened, and the call waits on.
    NoMemory,
    /// The answer can't be given, for this cause. Nothing happened, and the call waits on.
    Refused(StepFault),
}
