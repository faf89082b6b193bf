// All values of an experiment, as its lines.
use crate::warnings::Warning;
use crate::words::Format;
use experiment::{Amount, Card, Experiment, ListedCall, Step};
use homa_plain::Name;
use std::alloc::{AllocError, Global};
use std::fmt::Write;

// The word of a setting of the hosts.
pub(crate) fn setting_word(name: Name) -> &'static str {
    match name {
        Name::Hosts => "hosts",
        Name::Seg => "seg",
        Name::Window => "window",
        Name::Unsched => "unsched",
        Name::Overcommit => "overcommit",
        Name::Rate => "rate",
        Name::Resend => "resend",
        Name::Tries => "tries",
        Name::Life => "life",
        Name::Pages => "pages",
        Name::Calls => "calls",
        Name::Served => "served",
        Name::Rebalance => "rebalance",
        Name::Skew => "skew",
        Name::Wire => "wire",
    }
}

// The word of a card.
fn card_word(card: Card) -> &'static str {
    match card {
        Card::Fifo => "fifo",
        Card::Levels => "levels",
        Card::Srpt => "srpt",
    }
}

// The lines of an experiment, as comments of CSV or as texts of JSON.
#[derive(Drop)]
struct ValueLines {
    text: String,
    format: Format,
    is_first: bool,
}

impl ValueLines {
    // What stands before a line.
    fn begin(&mut self) -> Result<(), AllocError> {
        match (self.format, self.is_first) {
            (Format::Csv, _) => self.text.push_str("# "),
            (Format::Json, true) => self.text.push_str("\""),
            (Format::Json, false) => self.text.push_str(",\""),
        }
    }

    // What stands behind a line.
    fn end(&mut self) -> Result<(), AllocError> {
        self.is_first = false;
        match self.format {
            Format::Csv => self.text.push_str("\n"),
            Format::Json => self.text.push_str("\""),
        }
    }

    // A line of a word and a number.
    fn number(&mut self, word: &str, n: u64) -> Result<(), AllocError> {
        self.begin()?;
        write!(self.text, "{word} {n}")?;
        self.end()
    }

    // A line of a word and two numbers.
    fn two(&mut self, word: &str, a: u64, b: u64) -> Result<(), AllocError> {
        self.begin()?;
        write!(self.text, "{word} {a} {b}")?;
        self.end()
    }

    // A line of a word and three numbers.
    fn three(&mut self, word: &str, a: u64, b: u64, c: u64) -> Result<(), AllocError> {
        self.begin()?;
        write!(self.text, "{word} {a} {b} {c}")?;
        self.end()
    }

    // The settings of the hosts.
    fn settings(&mut self, experiment: &Experiment) -> Result<(), AllocError> {
        for name in &Name::ALL {
            let n = experiment.settings.get(*name);
            self.number(setting_word(*name), u64::from(n))?;
        }
        Ok(())
    }

    // The amounts of network and load.
    fn amounts(&mut self, experiment: &Experiment) -> Result<(), AllocError> {
        for amount in &Amount::ALL {
            let n = amount.value(&experiment.network, &experiment.load);
            self.number(amount.word(), n)?;
        }
        Ok(())
    }

    // The card, and the server to which more calls go.
    fn words(&mut self, experiment: &Experiment) -> Result<(), AllocError> {
        self.begin()?;
        let card = card_word(experiment.network.card);
        write!(self.text, "card {card}")?;
        self.end()?;
        match experiment.load.hot {
            Some(hot) => self.two("hot", u64::from(hot.host.0), u64::from(hot.share)),
            None => Ok(()),
        }
    }

    // A step of a table of one's own. Where the one before ends at another length, this one has one length.
    fn step(&mut self, step: &Step, above: u32) -> Result<(), AllocError> {
        let word = if step.above == above {
            "size"
        } else {
            "length"
        };
        self.two(word, u64::from(step.upto), u64::from(step.share))
    }

    // The lengths.
    fn lengths(&mut self, experiment: &Experiment) -> Result<(), AllocError> {
        if let Some(number) = experiment.numbered {
            return self.number("workload", u64::from(number));
        }
        let mut above = 0;
        for step in experiment.workload.steps() {
            self.step(step, above)?;
            above = step.upto;
        }
        Ok(())
    }

    // A call of a list.
    fn call(&mut self, call: &ListedCall) -> Result<(), AllocError> {
        let (client, server) = (call.client.0, call.server.0);
        let (bytes, at) = (call.bytes, call.at / 1000);
        self.begin()?;
        write!(self.text, "call {client} {server} {bytes} {at}")?;
        self.end()
    }

    // The calls of a list.
    fn listed(&mut self, experiment: &Experiment) -> Result<(), AllocError> {
        for call in &experiment.listed {
            self.call(call)?;
        }
        Ok(())
    }

    // The restarts.
    fn restarts(&mut self, experiment: &Experiment) -> Result<(), AllocError> {
        for restart in &experiment.restarts {
            self.two("restart", u64::from(restart.host.0), restart.at / 1000)?;
        }
        Ok(())
    }

    // The datagrams that come from nowhere.
    fn injections(&mut self, experiment: &Experiment) -> Result<(), AllocError> {
        for it in &experiment.injections {
            let (host, bytes) = (u64::from(it.host.0), u64::from(it.bytes));
            self.three("inject", host, bytes, it.at / 1000)?;
        }
        Ok(())
    }

    // The clocks that are set.
    fn shifts(&mut self, experiment: &Experiment) -> Result<(), AllocError> {
        for it in &experiment.shifts {
            let (host, ticks) = (u64::from(it.host.0), u64::from(it.ticks));
            self.three("shift", host, ticks, it.at / 1000)?;
        }
        Ok(())
    }

    // All lines.
    fn all(&mut self, experiment: &Experiment) -> Result<(), AllocError> {
        self.settings(experiment)?;
        self.amounts(experiment)?;
        self.words(experiment)?;
        self.lengths(experiment)?;
        self.restarts(experiment)?;
        self.listed(experiment)?;
        self.injections(experiment)?;
        self.shifts(experiment)
    }
}

// Adds the lines behind which notes stand.
fn lines_of(alloc: Global, format: Format, experiment: &Experiment) -> Result<String, AllocError> {
    let mut lines = ValueLines {
        text: String::new(alloc),
        format,
        is_first: true,
    };
    lines.all(experiment)?;
    let ValueLines { text, .. } = lines;
    Ok(text)
}

/// All values of an experiment, with a note if there is one. In CSV each line of the experiment's text stands behind `# `, and the
/// note behind `## `. In JSON this is one object, with an array of the lines and one of notes.
pub(crate) fn values(
    alloc: Global,
    format: Format,
    experiment: &Experiment,
    note: Option<Warning>,
) -> Result<String, AllocError> {
    let lines = lines_of(alloc, format, experiment)?;
    let lines = lines.as_str();
    match (format, note) {
        (Format::Csv, None) => format!(in alloc; "{lines}"),
        (Format::Csv, Some(note)) => format!(in alloc; "{lines}## {note}\n"),
        (Format::Json, None) => format!(in alloc; "{{\"experiment\":[{lines}],\"notes\":[]}}\n"),
        (Format::Json, Some(note)) => {
            format!(in alloc; "{{\"experiment\":[{lines}],\"notes\":[\"{note}\"]}}\n")
        }
    }
}
