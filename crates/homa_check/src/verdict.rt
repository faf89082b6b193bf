// What a check returns.
use homa_io::ReadFailed;
use std::alloc::AllocError;

/// What a line breaks.
#[derive(Clone, Copy, Debug, PartialEq, Eq)]
pub enum Clause {
    /// It isn't a line that may stand there.
    Shape,
    /// A call runs at most once in each incarnation of its server, on its request.
    Once,
    /// A call that is done returns the response of its run.
    Returned,
    /// In the block that the line closes, exactly the call whose message the delivery made whole runs or is done.
    HandedUp,
    /// A call times out only if it is unanswered; in the block that the line closes exactly the forgotten call fails.
    Fails,
    /// A GRANT is one that its host may send, and no message is granted beyond its window.
    Granting,
}

impl Clause {
    ghost use Rattle.std.specs.Prelude.{◌≡◌};
    ghost use Rattle.homa_check.specs.Checks.{clause_word};
    ghost use Rattle.homa_check.specs.Clauses.{clause_of};

    /// Returns the word of this clause in a verdict's line.
    pub fn word(self) -> &'static [u8]
        ensures { result.now ≡ clause_word (clause_of self) }
    {
        match self {
            Clause::Shape => b"shape",
            Clause::Once => b"once",
            Clause::Returned => b"returned",
            Clause::HandedUp => b"handedup",
            Clause::Fails => b"fails",
            Clause::Granting => b"granting",
        }
    }
}

/// Whether a text is a trace that obeys all laws.
#[derive(Clone, Copy, Debug, PartialEq, Eq)]
pub enum Verdict {
    /// It is: the text has so many lines.
    Yes { lines: u64 },
    /// It isn't: this line, counted from 1, is the first that breaks a law, and this clause is the first that it breaks.
    No { line: u64, clause: Clause },
}

/// Why a check stops without a verdict.
#[derive(Clone, Copy, Debug, PartialEq, Eq)]
pub enum CheckStop {
    /// The source counted a fault.
    Read(ReadFailed),
    /// Memory ran out.
    NoMemory,
}

impl From<ReadFailed> for CheckStop {
    ghost use Rattle.std.specs.Prelude.{◌≡◌};
    ghost use Rattle.homa_check.specs.declared.verdict.CheckStop.TheVariants.{Read};

    ghost from_gives = { λ failed stop. stop ≡ Read failed };

    fn from(failed: ReadFailed) -> Self {
        CheckStop::Read(failed)
    }
}

impl From<AllocError> for CheckStop {
    ghost use Rattle.std.specs.Prelude.{◌≡◌};
    ghost use Rattle.homa_check.specs.declared.verdict.CheckStop.TheVariants.{NoMemory};

    ghost from_gives = { λ _ stop. stop ≡ NoMemory };

    fn from(_failed: AllocError) -> Self {
        CheckStop::NoMemory
    }
}
