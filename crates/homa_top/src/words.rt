// The words of a command line.
ghost use Rattle.std.specs.Prelude.{◌≡◌, ℕ, [], ◌∷◌};
ghost use Rattle.std.specs.Option.{option_map};
ghost use Rattle.homa_top.specs.declared.words.Command.{Command};
ghost use Rattle.homa_top.specs.Words.{number_within, seeded, sized, numbered, command_of, said};

use homa_plain::LONGEST_MESSAGE;
use text_lines::read_number;

/// A command, with the numbers of its words.
#[derive(Clone, Copy, Debug, PartialEq, Eq)]
pub enum Command {
    /// The replay of a schedule.
    Replay,
    /// The schedule of generated traffic: its seed, and how many calls, from 1 to 100,000.
    Make { seed: u64, calls: u32 },
    /// The summary of generated traffic: its seed, and how many calls, from 1 to 100,000.
    Gen { seed: u64, calls: u32 },
    /// The run of a node.
    Node,
    /// The recording of a node's run.
    Record,
    /// The verdict on a trace.
    Check,
    /// The rounds of a quiet call: the bytes of its request and of its response, each from 1 to 1,000,000.
    Quiet { request: u32, response: u32 },
}

// The most calls of generated traffic, and the most bytes of a quiet call's messages.
const MOST_CALLS: u32 = 100_000;

// The number of a word, if it is one from 1 to `most`.
fn number_within(word: &str, most: u32) -> Option<u32>
    ensures { result ≡ number_within most word.now }
{
    let n = u32::try_from(read_number(word.as_bytes())?).ok()?;
    if 1 <= n && n <= most { Some(n) } else { None }
}

// The numbers of generated traffic.
fn seeded(seed: &str, calls: &str) -> Option<(u64, u32)>
    ensures { (make : ℕ → ℕ → Command) → seeded make seed.now calls.now ≡ option_map (λ x. make x.0 x.1) result }
{
    let seed = read_number(seed.as_bytes())?;
    let calls = number_within(calls, MOST_CALLS)?;
    Some((seed, calls))
}

// The lengths of a quiet call's messages.
fn sized(request: &str, response: &str) -> Option<(u32, u32)>
    ensures { (make : ℕ → ℕ → Command) → sized make request.now response.now ≡ option_map (λ x. make x.0 x.1) result }
{
    let request = number_within(request, LONGEST_MESSAGE)?;
    let response = number_within(response, LONGEST_MESSAGE)?;
    Some((request, response))
}

// The command of a word with two more after it.
fn numbered(word: &str, first: &str, second: &str) -> Option<Command>
    ensures { result ≡ numbered word.now first.now second.now }
{
    match word {
        "make" => {
            let (seed, calls) = seeded(first, second)?;
            Some(Command::Make { seed, calls })
        }
        "gen" => {
            let (seed, calls) = seeded(first, second)?;
            Some(Command::Gen { seed, calls })
        }
        "quiet" => {
            let (request, response) = sized(first, second)?;
            Some(Command::Quiet { request, response })
        }
        _ => None,
    }
}

// The command of a word alone.
fn single(word: &str) -> Option<Command>
    ensures { result ≡ command_of (word.now ∷ []) }
{
    match word {
        "replay" => Some(Command::Replay),
        "node" => Some(Command::Node),
        "record" => Some(Command::Record),
        "check" => Some(Command::Check),
        _ => None,
    }
}

/// Returns the command that these words spell, if they spell one.
pub(crate) fn read_words(words: &[&str]) -> Option<Command>
    ensures { result ≡ said words.now }
{
    match words {
        [word] => single(word),
        [word, first, second] => numbered(word, first, second),
        _ => None,
    }
}
