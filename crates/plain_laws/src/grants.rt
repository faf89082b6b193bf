// Laws of the choice of messages to grant to.
ghost use Rattle.std.specs.Prelude.{◌≡◌, ◌⊎◌, ℕ, ◌-◌, ◌<◌, ◌≤◌, Some, List, length, map, slice_get};
ghost use Rattle.std.specs.Prelude.{Contains, IsPermutation};
ghost use Rattle.std.specs.List.{AllByRecursion};
ghost use Rattle.plain_sets.specs.Ordered.{KeysDiffer, SendersDiffer};
ghost use Rattle.homa_plain.specs.Grants.{Message, sender, choice_key, new_end, Granted, chosen_by, chosen, grants, IsBefore, HasAhead, IsGrant};

/// Which messages are granted to: at most k of different senders. For each message that is left out, either a chosen
/// one of its sender is before it, or k chosen ones are.
pub fn choices<X, Y>()
    ensures few { (message : X → Message) (k : ℕ) (xs : List X) → length (chosen message k xs) ≤ k }
    ensures differ { (message : X → Message) (k : ℕ) (xs : List X)
        → SendersDiffer (λ x. sender (message x)) (chosen message k xs) }
    ensures some { (message : X → Message) (k : ℕ) (xs : List X) (x : X) → Contains (chosen message k xs) x
        → Contains xs x }
    ensures left_out { (message : X → Message) (k : ℕ) (xs : List X)
        → KeysDiffer (λ x. choice_key (message x)) xs → (x : X) → Contains xs x → let cs = chosen message k xs in
        Contains cs x ⊎ (HasAhead (λ y. sender (message y)) (λ y. choice_key (message y)) cs x
        ⊎ ((length cs ≡ k) × AllByRecursion (λ y. IsBefore (λ z. choice_key (message z)) y x) cs)) }
    ensures any_order { (message : X → Message) (k : ℕ) (xs ys : List X) → IsPermutation xs ys
        → KeysDiffer (λ x. choice_key (message x)) xs → chosen message k xs ≡ chosen message k ys }
    ensures mapped { (from : X → ℕ) (from' : Y → ℕ) (key : X → ℕ × ℕ) (key' : Y → ℕ × ℕ) (f : X → Y)
        → ((x : X) → from' (f x) ≡ from x) → ((x : X) → key' (f x) ≡ key x) → (k : ℕ) (xs : List X)
        → chosen_by from' key' k (map f xs) ≡ map f (chosen_by from key k xs) }
{}

/// Each GRANT of a step is to a chosen message, up to its new end; each chosen message gets one exactly if its new end
/// exceeds its granted end.
pub fn grants_made<X>()
    ensures only { (message : X → Message) (k window : ℕ) (xs : List X) (g : Granted X)
        → Contains (grants message k window xs) g → IsGrant message window (chosen message k xs) g }
    ensures all { (message : X → Message) (k window : ℕ) (xs : List X) (r : ℕ) (x : X)
        → slice_get (chosen message k xs) r ≡ Some x → (message x).granted < new_end window (message x)
        → Contains (grants message k window xs) (record { to = x; offset = new_end window (message x); prio = length (chosen message k xs) - 1 - r }) }
    ensures few { (message : X → Message) (k window : ℕ) (xs : List X) → length (grants message k window xs) ≤ k }
{}
