// The setting that a word names, how many settings are told, and the words of refused starts.
ghost use Rattle.std.specs.Prelude.{◌≡◌, ◌≤◌};
ghost use Rattle.std.specs.Str.{bytes_eq};
ghost use Rattle.homa_plain.specs.Text.{name_word, start_word, told_numbers};
ghost use Rattle.homa_plain.specs.Script.{names, name_in};

use homa_plain::{Name, Settings, StartFault};

// Tells whether a word names this setting.
fn is_named(word: &[u8], name: Name) -> bool
    ensures { result ≡ bytes_eq word.now (name_word name) }
{
    word == name.word()
}

/// The setting that a word names.
pub fn read_name(word: &[u8]) -> Option<Name>
    ensures { result ≡ name_in names word.now }
{
    Name::ALL.iter().copied().find(|name| is_named(word, *name))
}

/// How many settings a trace tells, from the first on: 13 to 15, since the last two have their usual values in many runs.
pub fn told_settings(settings: &Settings) -> usize
    ensures value { result ≡ told_numbers settings.now }
    ensures fits { result ≤ 15 }
{
    if settings.wire != 1 {
        return 15;
    }
    if settings.skew == 0 { 13 } else { 14 }
}

/// The word that says why a call can't start.
pub fn start_bytes(fault: StartFault) -> &'static [u8]
    ensures { result.now ≡ start_word fault }
{
    match fault {
        StartFault::Empty => b"Empty",
        StartFault::TooLong => b"TooLong",
        StartFault::SelfCall => b"SelfCall",
        StartFault::CallsFull => b"CallsFull",
        StartFault::SeqSpent => b"SeqSpent",
    }
}
