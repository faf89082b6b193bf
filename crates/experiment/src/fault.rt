// Why a text is no experiment.
ghost use Rattle.std.specs.Prelude.{◌≡◌, Err};
ghost use Rattle.experiment.specs.declared.fault.LineStop.TheVariants.{Refused};

use crate::amounts::Amount;
use homa_plain::{Name, ScriptFault};
use std::alloc::AllocError;

/// What is wrong with a line or a word.
#[derive(Clone, Copy, Debug, PartialEq, Eq)]
pub enum Wrong {
    /// The line can't be read: it is too long, isn't UTF-8, or the text is too long.
    Unreadable(ScriptFault),
    /// The first word names nothing.
    UnknownName,
    /// A word is missing here.
    Missing,
    /// A word stands behind the last one.
    Extra,
    /// The word isn't a number from the first of these to the second.
    Outside(u64, u64),
    /// The setting of the hosts can't have this number.
    Setting(Name),
    /// The number may not stand with what other lines say of this amount.
    Against(Amount),
    /// The number may not stand with what other lines say of this setting of the hosts.
    AgainstSetting(Name),
    /// `unsched` is above `window`.
    UnschedOverWindow,
    /// `rate` is below `seg`.
    RateUnderSeg,
    /// A byte takes no whole number of picoseconds at this rate: 8,000,000 isn't a multiple of it.
    Uneven,
    /// The card is `fifo`, `levels` or `srpt`.
    Card,
    /// The number must be above that of the line before.
    NotAbove,
    /// The moment is before that of the line before.
    Before,
    /// The host's number isn't below `hosts`.
    Host,
    /// There are more steps than 4,000.
    Steps,
    /// No line says anything.
    Nothing,
    /// A host doesn't call itself.
    SelfCall,
    /// There are more such lines than so many.
    TooMany(u64),
}

/// What is wrong in a line, and in which of its words, counted from 1.
#[derive(Clone, Copy, Debug, PartialEq, Eq)]
pub(crate) struct Refusal {
    pub(crate) word: u32,
    pub(crate) wrong: Wrong,
}

/// Why a text is no experiment.
#[derive(Clone, Copy, Debug, PartialEq, Eq)]
pub enum ExperimentFault {
    /// The source can't be read.
    Read,
    /// There is no memory.
    NoMemory,
    /// What is wrong, and where: the line, and the word in it, both counted from 1.
    Said { line: u64, word: u32, wrong: Wrong },
}

impl From<AllocError> for ExperimentFault {
    ghost use Rattle.std.specs.Prelude.{◌≡◌};
    ghost use Rattle.experiment.specs.declared.fault.ExperimentFault.TheVariants.{NoMemory};

    ghost from_gives = { λ _ fault. fault ≡ NoMemory };

    fn from(_: AllocError) -> Self {
        ExperimentFault::NoMemory
    }
}

impl Refusal {
    ghost use Rattle.std.specs.Prelude.{◌≡◌};
    ghost use Rattle.experiment.specs.declared.fault.ExperimentFault.TheVariants.{Said};

    /// The fault, in a line of this number.
    pub(crate) fn at(self, line: u64) -> ExperimentFault
        ensures { result ≡ Said line self.word self.wrong }
    {
        ExperimentFault::Said {
            line,
            word: self.word,
            wrong: self.wrong,
        }
    }
}

/// Why a line isn't taken.
#[derive(Clone, Copy, Debug, PartialEq, Eq)]
pub(crate) enum LineStop {
    /// There is no memory.
    NoMemory,
    /// The line may not stand where it stands.
    Refused(Refusal),
}

impl From<AllocError> for LineStop {
    ghost use Rattle.std.specs.Prelude.{◌≡◌};
    ghost use Rattle.experiment.specs.declared.fault.LineStop.TheVariants.{NoMemory};

    ghost from_gives = { λ _ stop. stop ≡ NoMemory };

    fn from(_: AllocError) -> Self {
        LineStop::NoMemory
    }
}

/// This word of its line is wrong.
pub(crate) fn refused<T>(word: u32, wrong: Wrong) -> Result<T, LineStop>
    ensures { result ≡ Err (Refused (record { word = word; wrong = wrong })) }
{
    Err(LineStop::Refused(Refusal { word, wrong }))
}
