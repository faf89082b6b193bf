// What is wrong, in words.
use crate::ended::Ended;
use crate::values::setting_word;
use crate::words::WordFault;
use experiment::{ExperimentFault, Wrong};
use simulation::SimStop;
use std::fmt;

// What is wrong with a line or a word of an experiment, in words.
#[derive(Drop)]
struct InWords(Wrong);

impl fmt::Display for InWords {
    fn fmt<W: fmt::Write>(&self, f: &mut fmt::Formatter<W>) -> fmt::Result {
        match self.0 {
            Wrong::Unreadable(_) => f.write_str("the line is too long, or isn't UTF-8"),
            Wrong::UnknownName => f.write_str("it names nothing that an experiment may say"),
            Wrong::Missing => f.write_str("a word is missing here"),
            Wrong::Extra => f.write_str("no further word may stand here"),
            Wrong::Outside(least, most) => write!(f, "it must be a number from {least} to {most}"),
            Wrong::Setting(name) => {
                let word = setting_word(name);
                write!(f, "`{word}` can't have this number")
            }
            Wrong::Against(amount) => {
                let word = amount.word();
                write!(f, "it doesn't fit what `{word}` says")
            }
            Wrong::AgainstSetting(name) => {
                let word = setting_word(name);
                write!(f, "it doesn't fit what `{word}` says")
            }
            Wrong::UnschedOverWindow => f.write_str("`unsched` is above `window`"),
            Wrong::RateUnderSeg => f.write_str("`rate` is below `seg`"),
            Wrong::Uneven => f.write_str("8,000,000 must be a multiple of it"),
            Wrong::Card => f.write_str("a card is `fifo`, `levels` or `srpt`"),
            Wrong::NotAbove => f.write_str("it must be above that of the line before"),
            Wrong::Before => f.write_str("the moment is before that of the line before"),
            Wrong::Host => f.write_str("there is no such host: it must be below `hosts`"),
            Wrong::Steps => f.write_str("a table has at most 4000 steps"),
            Wrong::Nothing => f.write_str("no line says anything"),
            Wrong::SelfCall => f.write_str("a host doesn't call itself"),
            Wrong::TooMany(most) => write!(f, "there may be at most {most} such lines"),
        }
    }
}

/// EndReason the program ended, in words; with the words of its command line.
#[derive(Drop)]
pub(crate) struct EndReason<'a> {
    pub(crate) ended: Ended,
    pub(crate) words: &'a [&'a str],
}

// EndReason a run stopped, in words.
fn stop_words(stop: SimStop) -> &'static str {
    match stop {
        SimStop::NoMemory => "there is no memory",
        SimStop::Write => "standard output took no more",
        SimStop::Refused(_) => "the world refused an event, which is a fault of this program",
        SimStop::TooLong => "the run goes on for longer than one may",
        SimStop::Events => "the run has as many events as `events` allows",
    }
}

impl EndReason<'_> {
    // The word of the command line at this place.
    fn word(&self, at: usize) -> &str {
        match self.words.get(at) {
            Some(word) => word,
            None => "",
        }
    }
}

impl fmt::Display for EndReason<'_> {
    fn fmt<W: fmt::Write>(&self, f: &mut fmt::Formatter<W>) -> fmt::Result {
        match self.ended {
            Ended::Printed | Ended::Helped => f.write_str("all is printed"),
            Ended::Words(WordFault::Missing) => {
                f.write_str("a word that says what is printed is missing; --help lists them")
            }
            Ended::Words(WordFault::Unknown(at)) => {
                let word = self.word(at);
                write!(f, "`{word}` is no word that there is; --help lists them")
            }
            Ended::Words(WordFault::Twice(at)) => {
                let word = self.word(at);
                write!(f, "`{word}` is one word too many; --help lists them")
            }
            Ended::Words(WordFault::NoColumns) => {
                f.write_str("`summary` and `schedule` have no columns, so no `--json`")
            }
            Ended::Unread(ExperimentFault::Read) => f.write_str("standard input can't be read"),
            Ended::Unread(ExperimentFault::NoMemory) => f.write_str("there is no memory"),
            Ended::Unread(ExperimentFault::Said { line, word, wrong }) => {
                let wrong = InWords(wrong);
                write!(f, "line {line}, word {word}: {wrong}")
            }
            Ended::Stopped(stop) => f.write_str(stop_words(stop)),
        }
    }
}
