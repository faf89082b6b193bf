// What a rule for a row has its host say and do.
ghost use Rattle.std.specs.Prelude.{◌≡◌, None, false};

use homa_plain::Body;
use host_view::Mark;

/// What is said: an entry, a packet of the row's call, or nothing.
#[derive(Debug, PartialEq, Eq, Drop)]
pub enum Said {
    Nothing,
    Tell(Mark),
    Post(Body),
}

/// What follows from a rule beside the row.
#[derive(Debug, PartialEq, Eq, Drop)]
pub struct Outcome {
    /// How many bytes a message has that was opened.
    pub opened: Option<u32>,
    /// The cutoffs' version in a message's first piece, where it was taken up.
    pub version: Option<u16>,
    pub said: Said,
    /// Whether the call is done at its client.
    pub finished: bool,
}

impl Outcome {
    /// Nothing comes of it.
    pub fn none() -> Outcome
        ensures { result ≡ record { opened = None; version = None; said = Said.Nothing; finished = false } }
    {
        Outcome {
            opened: None,
            version: None,
            said: Said::Nothing,
            finished: false,
        }
    }

    /// Something is said, and no more.
    pub fn of(said: Said) -> Outcome
        ensures { result ≡ record { opened = None; version = None; said = said; finished = false } }
    {
        Outcome {
            said,
            ..Outcome::none()
        }
    }
}
