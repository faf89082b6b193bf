//! Where services are `Suite`s, a replay is a function of its bytes, and a generated run of its seed and its number of calls: the
//! answers that it shows are the only ones that it may.
//!
//! The model: the replay of a schedule, or a generated run, whose `run` lines show the answers that it is given, each of which
//! the box of its host may give. No code stands here, only laws; each is the contract of a function that does nothing.
//! Main promise: `one_replay` and `one_generated_run`: two such lists of answers are one, so that the same bytes, and the same
//! seed and number of calls, have one text at each run.
#![tactic(auto)]

ghost use Rattle.std.specs.Prelude.{◌≡◌, ◌≤◌, ℕ, List, length};
ghost use Rattle.homa_plain.specs.Rules.{Answer};
ghost use Rattle.homa_plain.specs.Replay.{replay_text};
ghost use Rattle.generated_runs.specs.Generated.{generated, generated_settings, schedule_text, summary_text};
ghost use Rattle.answer_laws.specs.Answers.{MayAnswerSo, MayAnswerGenerated, suite_allows, any_answer};
ghost use Rattle.answer_laws.specs.Exactly.{SomeAnswers, SomeGenerated};
ghost use Rattle.answer_laws.specs.Repeated.{SuitesRepeat};

/// Two lists of answers of `Suite`s, each of which the replay of an input shows and its boxes may give, are one list, for 32
/// boxes and more. So the text of a replay is a function of the input.
pub fn one_replay()
    ensures answers { (boxes bytes : List ℕ) (these those : List Answer) → 32 ≤ length boxes → MayAnswerSo (λ n. n) suite_allows boxes bytes these
        → MayAnswerSo (λ n. n) suite_allows boxes bytes those → these ≡ those }
    ensures text { (boxes bytes : List ℕ) (these those : List Answer) → 32 ≤ length boxes → MayAnswerSo (λ n. n) suite_allows boxes bytes these
        → MayAnswerSo (λ n. n) suite_allows boxes bytes those → replay_text bytes these (length boxes) ≡ replay_text bytes those (length boxes) }
{}

/// Two lists of answers of `Suite`s, each of which the generated run of a seed and so many calls shows and its boxes may give, are
/// one list, for 32 boxes and more. So its schedule and its summary are functions of the seed and the number of calls.
pub fn one_generated_run()
    ensures answers { (boxes : List ℕ) (seed calls : ℕ) (these those : List Answer) → 32 ≤ length boxes
        → MayAnswerGenerated (λ n. n) suite_allows boxes seed calls these → MayAnswerGenerated (λ n. n) suite_allows boxes seed calls those
        → these ≡ those }
    ensures schedule { (boxes : List ℕ) (seed calls : ℕ) (these those : List Answer) → 32 ≤ length boxes
        → MayAnswerGenerated (λ n. n) suite_allows boxes seed calls these → MayAnswerGenerated (λ n. n) suite_allows boxes seed calls those
        → schedule_text generated_settings (generated seed calls (length boxes) these)
        ≡ schedule_text generated_settings (generated seed calls (length boxes) those) }
    ensures summary { (boxes : List ℕ) (seed calls : ℕ) (these those : List Answer) → 32 ≤ length boxes
        → MayAnswerGenerated (λ n. n) suite_allows boxes seed calls these → MayAnswerGenerated (λ n. n) suite_allows boxes seed calls those
        → summary_text (generated seed calls (length boxes) these).told ≡ summary_text (generated seed calls (length boxes) those).told }
{}

/// It isn't so of boxes that answer as they like: a schedule of a call and its delivery has two such lists, and so has a generated
/// run of one call.
pub fn boxes_may_choose()
    ensures replay { ((boxes bytes : List ℕ) (these those : List Answer) → 32 ≤ length boxes → MayAnswerSo (λ n. n) any_answer boxes bytes these
        → MayAnswerSo (λ n. n) any_answer boxes bytes those → these ≡ those) → ⊥ }
    ensures run { ((boxes : List ℕ) (seed calls : ℕ) (these those : List Answer) → 32 ≤ length boxes
        → MayAnswerGenerated (λ n. n) any_answer boxes seed calls these → MayAnswerGenerated (λ n. n) any_answer boxes seed calls those
        → these ≡ those) → ⊥ }
{}

/// `Suite`s answer each request: for 32 boxes and more there are answers which the replay of an input shows and its boxes may
/// give. So, by `one_replay`, each input has exactly one text.
pub fn some_replay()
    ensures { (boxes bytes : List ℕ) → 32 ≤ length boxes → SomeAnswers (λ n. n) suite_allows boxes bytes }
{}

/// And so there are for the generated run of each seed and number of calls: it is exactly one, by `one_generated_run`.
pub fn some_generated_run()
    ensures { (boxes : List ℕ) (seed calls : ℕ) → 32 ≤ length boxes → SomeGenerated (λ n. n) suite_allows boxes seed calls }
{}

/// Where the services are `Suite`s, the replay of a node's recording with status 0 tells the run again, whatever answers it
/// shows that its boxes may give: they are the run's own.
pub fn suites_repeat()
    ensures { SuitesRepeat }
{}
