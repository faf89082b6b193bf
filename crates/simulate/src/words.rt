// The words of a command line.
ghost use Rattle.std.specs.Prelude.{◌≡◌};
ghost use Rattle.simulate.specs.Words.{meaning_of, has_columns, form_of, asked_for, answer_to, step, command_line};

/// What is printed of the runs.
#[derive(Clone, Copy)]
pub(crate) enum Report {
    /// A page for people.
    Summary,
    /// Slowdowns by length.
    Figures,
    /// What was counted, a line for each seed.
    Totals,
    /// A line for each call.
    Calls,
    /// The events of the first seed.
    Schedule,
}

/// The form of lines with columns.
#[derive(Clone, Copy)]
pub(crate) enum Format {
    Csv,
    Json,
}

/// What is asked of the program.
#[derive(Clone, Copy)]
pub(crate) struct Wanted {
    pub(crate) report: Report,
    pub(crate) format: Format,
    /// Whether standard error tells how far a run has come.
    pub(crate) tells_progress: bool,
}

/// Why words ask for nothing that there is.
#[derive(Clone, Copy)]
pub(crate) enum WordFault {
    /// No word says what is printed.
    Missing,
    /// A word is none of those that there are; so many stand before it.
    Unknown(usize),
    /// A second word says what is printed, or an option stands twice.
    Twice(usize),
    /// `summary` and `schedule` have no columns.
    NoColumns,
}

/// What a command line says.
#[derive(Clone, Copy)]
pub(crate) enum CommandLine {
    /// Only how the program is called.
    Help,
    Ask(Wanted),
    Wrong(WordFault),
}

// What the words so far say.
#[derive(Clone, Copy)]
struct WordsSoFar {
    report: Option<Report>,
    is_json: bool,
    tells_progress: bool,
}

// What a word says.
#[derive(Clone, Copy)]
enum Meaning {
    Print(Report),
    Json,
    Progress,
    Help,
}

// What a word says, if it is one of those that there are.
fn meaning_of(word: &str) -> Option<Meaning>
    ensures { result ≡ meaning_of word.now }
{
    match word {
        "summary" => Some(Meaning::Print(Report::Summary)),
        "figures" => Some(Meaning::Print(Report::Figures)),
        "totals" => Some(Meaning::Print(Report::Totals)),
        "calls" => Some(Meaning::Print(Report::Calls)),
        "schedule" => Some(Meaning::Print(Report::Schedule)),
        "--json" => Some(Meaning::Json),
        "--progress" => Some(Meaning::Progress),
        "--help" => Some(Meaning::Help),
        _ => None,
    }
}

// Whether a report has columns.
fn has_columns(report: Report) -> bool
    ensures { result ≡ has_columns report }
{
    match report {
        Report::Summary | Report::Schedule => false,
        Report::Figures | Report::Totals | Report::Calls => true,
    }
}

// The form of lines.
fn form_of(is_json: bool) -> Format
    ensures { result ≡ form_of is_json }
{
    if is_json { Format::Json } else { Format::Csv }
}

// What is asked where this report was said.
fn asked_for(said: WordsSoFar, report: Report) -> CommandLine
    ensures { result ≡ asked_for said report }
{
    if said.is_json && !has_columns(report) {
        return CommandLine::Wrong(WordFault::NoColumns);
    }
    CommandLine::Ask(Wanted {
        report,
        format: form_of(said.is_json),
        tells_progress: said.tells_progress,
    })
}

// What is asked where this was said.
fn answer_to(said: WordsSoFar) -> CommandLine
    ensures { result ≡ answer_to said }
{
    match said.report {
        None => CommandLine::Wrong(WordFault::Missing),
        Some(report) => asked_for(said, report),
    }
}

// What is said with one word more, behind so many others; or what the command line says, if the word ends it.
fn step(said: WordsSoFar, at: usize, word: Option<Meaning>) -> Result<WordsSoFar, CommandLine>
    ensures { result ≡ step said at word }
{
    let mut next = said;
    match word {
        None => return Err(CommandLine::Wrong(WordFault::Unknown(at))),
        Some(Meaning::Help) => return Err(CommandLine::Help),
        Some(Meaning::Json) if !said.is_json => next.is_json = true,
        Some(Meaning::Progress) if !said.tells_progress => next.tells_progress = true,
        Some(Meaning::Print(report)) if said.report.is_none() => next.report = Some(report),
        Some(_) => return Err(CommandLine::Wrong(WordFault::Twice(at))),
    }
    Ok(next)
}

/// What the words of a command line say, which stand behind the program's name.
pub(crate) fn read_words(words: &[&str]) -> CommandLine
    ensures { result ≡ command_line words.now }
{
    let mut said = WordsSoFar {
        report: None,
        is_json: false,
        tells_progress: false,
    };
    for (at, word) in words.iter().enumerate() {
        match step(said, at, meaning_of(word)) {
            Ok(next) => said = next,
            Err(answer) => return answer,
        }
    }
    answer_to(said)
}
