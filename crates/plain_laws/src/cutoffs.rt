// Laws of computed cutoffs and of the level of a length.
ghost use Rattle.std.specs.Prelude.{◌≡◌, ◌⊎◌, ◌==◌, Bool, true, ℕ, ◌+◌, ◌-◌, ◌<◌, ◌≤◌, List, [], ◌∷◌, ◌++◌, length};
ghost use Rattle.std.specs.Prelude.{slice_index};
ghost use Rattle.std.specs.List.{AllByRecursion, list_any};
ghost use Rattle.homa_plain.specs.declared.packet.Cutoffs.{Cutoffs};
ghost use Rattle.homa_plain.specs.Cutoffs.{noted, level_of, has_share, balanced, IsLeastNumber, IsLevel};

use homa_plain::LONGEST_MESSAGE;

/// Which lengths are remembered: the last 256.
pub fn recent_lengths()
    ensures few { (lengths : List ℕ) (n : ℕ) → length (noted lengths n) ≤ 256 }
    ensures room { (lengths : List ℕ) (n : ℕ) → length lengths < 256 → noted lengths n ≡ lengths ++ n ∷ [] }
    ensures full { (first : ℕ) (lengths : List ℕ) (n : ℕ) → length lengths ≡ 255
        → noted (first ∷ lengths) n ≡ lengths ++ n ∷ [] }
{}

/// The bounds of computed cutoffs: each above level k is the least number with its share of the weight, level k
/// takes every length, and the levels below it take none. From level k on they fall.
pub fn cutoff_bounds()
    ensures least { (k unsched version : ℕ) (lengths : List ℕ) (j : ℕ) → j + k < 7
        → IsLeastNumber (has_share (8 - k) unsched lengths j) (slice_index (balanced k unsched version lengths).upto (7 - j)) }
    ensures listed { (k unsched version : ℕ) (lengths : List ℕ) (j : ℕ) → j + k < 7
        → let b = slice_index (balanced k unsched version lengths).upto (7 - j) in
        (b ≡ 0) ⊎ (list_any (λ n. b == n) lengths ≡ true) }
    ensures only { (test : ℕ → Bool) (a b : ℕ) → IsLeastNumber test a → IsLeastNumber test b → a ≡ b }
    ensures top { (k unsched version : ℕ) (lengths : List ℕ) → k ≤ 7
        → slice_index (balanced k unsched version lengths).upto k ≡ LONGEST_MESSAGE }
    ensures low { (k unsched version : ℕ) (lengths : List ℕ) (i : ℕ) → i < k → k ≤ 7
        → slice_index (balanced k unsched version lengths).upto i ≡ 0 }
    ensures eight { (k unsched version : ℕ) (lengths : List ℕ)
        → length (balanced k unsched version lengths).upto ≡ 8 }
    ensures high { (k unsched version : ℕ) (lengths : List ℕ) → AllByRecursion (λ n. n ≤ LONGEST_MESSAGE) lengths
        → (i : ℕ) → i ≤ 7 → slice_index (balanced k unsched version lengths).upto i ≤ LONGEST_MESSAGE }
    ensures falling { (k unsched version : ℕ) (lengths : List ℕ) → AllByRecursion (λ n. n ≤ LONGEST_MESSAGE) lengths
        → (i : ℕ) → k ≤ i → i < 7 → slice_index (balanced k unsched version lengths).upto (i + 1)
        ≤ slice_index (balanced k unsched version lengths).upto i }
{}

/// The level of a length is the greatest level whose bound is at least the length.
pub fn message_levels()
    ensures greatest { (k : ℕ) (c : Cutoffs) (n : ℕ) → k ≤ 7 → IsLevel k c.upto n (level_of k c n) }
    ensures only { (k : ℕ) (upto : List ℕ) (n i j : ℕ) → IsLevel k upto n i → IsLevel k upto n j → i ≡ j }
{}
