// What a reader answers.
use homa_plain::Event;

/// What comes next of a schedule.
#[derive(Clone, Copy, Debug, PartialEq, Eq)]
pub enum Next {
    /// An event. `Reader::bytes` gives the bytes of a call or of an injection.
    Event(Event),
    /// So many ticks: 1 to 100,000.
    Ticks(u32),
    /// The input ended.
    End,
}
