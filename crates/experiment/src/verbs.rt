// The first words of lines that say neither a setting nor an amount.
ghost use Rattle.std.specs.Prelude.{◌≡◌};
ghost use Rattle.std.specs.Str.{bytes_eq};
ghost use Rattle.experiment.specs.Verbs.{verb_word, verbs, verb_in};

/// What such a line says.
#[derive(Clone, Copy, Debug, PartialEq, Eq)]
pub(crate) enum Verb {
    Workload,
    Size,
    Length,
    Cumulative,
    Card,
    Hot,
    Restart,
    Call,
    Inject,
    Shift,
}

impl Verb {
    const ALL: [Verb; 10] = [
        Verb::Workload,
        Verb::Size,
        Verb::Length,
        Verb::Cumulative,
        Verb::Card,
        Verb::Hot,
        Verb::Restart,
        Verb::Call,
        Verb::Inject,
        Verb::Shift,
    ];

    // The word that says it.
    fn word(self) -> &'static [u8]
        ensures { result.now ≡ verb_word self }
    {
        match self {
            Verb::Workload => b"workload",
            Verb::Size => b"size",
            Verb::Length => b"length",
            Verb::Cumulative => b"cumulative",
            Verb::Card => b"card",
            Verb::Hot => b"hot",
            Verb::Restart => b"restart",
            Verb::Call => b"call",
            Verb::Inject => b"inject",
            Verb::Shift => b"shift",
        }
    }
}

// Whether a word says this.
fn is_named(word: &[u8], verb: Verb) -> bool
    ensures { result ≡ bytes_eq word.now (verb_word verb) }
{
    word == verb.word()
}

/// What a word says.
pub(crate) fn read_verb(word: &[u8]) -> Option<Verb>
    ensures { result ≡ verb_in verbs word.now }
{
    Verb::ALL.iter().copied().find(|verb| is_named(word, *verb))
}
