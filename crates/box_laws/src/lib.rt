//! What the boxes of hosts may answer, and the lines that show it.
//!
//! The model: a box is a host's service as a caller handed it in; with it goes the number of its answers before. Box h is at
//! host h first, and a host that restarts takes the last spare (`specs/Boxes`, `specs/First`). No code stands here, only laws.
//! Main promise: a step that asks no service shows no answer, and lines without an answer every box allows (`specs/Unasked`).
#![tactic(auto)]

ghost use Rattle.std.specs.Prelude.{◌≡◌, ℕ, false, List, []};
ghost use Rattle.homa_plain.specs.Host.{Told, entries_from};
ghost use Rattle.homa_plain.specs.Steps.{has_run};
ghost use Rattle.homa_plain.specs.Answers.{shown};

/// Where a step asked no service, its lines show no answer.
pub fn answers_are_shown()
    ensures none { (n : ℕ) (told : List Told) → has_run told ≡ false → shown (entries_from n told) ≡ [] }
{}
