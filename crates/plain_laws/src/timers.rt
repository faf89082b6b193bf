// The law of the rows that act in a turn.
ghost use Rattle.std.specs.Prelude.{◌≡◌, ◌⊎◌, ℕ, ◌<◌, ◌≤◌, List, length};
ghost use Rattle.std.specs.Prelude.{Contains};
ghost use Rattle.std.specs.List.{AllByRecursion};
ghost use Rattle.plain_sets.specs.Ordered.{KeysDiffer};
ghost use Rattle.homa_plain.specs.Grants.{IsBefore};
ghost use Rattle.homa_plain.specs.Timers.{due};

/// Which rows act in a turn: at most 32 that are due. A row that is due and doesn't act has 32 before it.
pub fn due_rows<X>()
    ensures few { (key : X → ℕ × ℕ) (now : ℕ) (xs : List X) → length (due key now xs) ≤ 32 }
    ensures come { (key : X → ℕ × ℕ) (now : ℕ) (xs : List X) (x : X) → Contains (due key now xs) x
        → Contains xs x × ((key x).0 ≤ now) }
    ensures left_out { (key : X → ℕ × ℕ) (now : ℕ) (xs : List X) → KeysDiffer key xs → (x : X) → Contains xs x
        → (key x).0 ≤ now → Contains (due key now xs) x
        ⊎ ((length (due key now xs) ≡ 32) × AllByRecursion (λ y. IsBefore key y x) (due key now xs)) }
{}
