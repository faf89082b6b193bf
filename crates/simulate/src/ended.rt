// How the program ends.
ghost use Rattle.std.specs.Prelude.{◌≡◌};
ghost use Rattle.simulate.specs.Ends.{status_of};

use crate::words::WordFault;
use experiment::ExperimentFault;
use simulation::SimStop;

/// How a command line ended.
#[derive(Clone, Copy)]
pub(crate) enum Ended {
    /// All was printed.
    Printed,
    /// Only how the program is called was asked.
    Helped,
    /// The words ask for nothing that there is.
    Words(WordFault),
    /// What was read is no experiment.
    Unread(ExperimentFault),
    /// A run stopped, or what it came to isn't printed whole.
    Stopped(SimStop),
}

impl Ended {
    /// The program's status: 0 where all was printed, 1 for words, 2 for an experiment, 3 for a run that stopped, and 4 where
    /// standard output took no more.
    pub(crate) fn status(self) -> u8
        ensures { result ≡ status_of self }
    {
        match self {
            Ended::Printed | Ended::Helped => 0,
            Ended::Words(_) => 1,
            Ended::Unread(ExperimentFault::NoMemory) => 3,
            Ended::Unread(_) => 2,
            Ended::Stopped(SimStop::Write) => 4,
            Ended::Stopped(_) => 3,
        }
    }
}
