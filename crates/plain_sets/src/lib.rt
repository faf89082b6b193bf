//! Finite maps, sets of numbers, ranges and lists in order, as plain values for contracts.
//!
//! The definitions are in `specs/`. `Maps`: a map is its entries in order of key, and has a code, so that it can be a
//! model's value. `Numbers`: sets of numbers, and what is missing of them below a length. `Ranges`: their maximal
//! ranges. `Ordered`: things in order of two numbers, and the first of each sender. All of them compute, so that an
//! example holds by `refl`.
//!
//! There is no code here that does anything: each function below states laws of the definitions, of
//! all maps, sets and lists, and its body is empty. `worked` states examples that were worked out by
//! hand. The lemmas are in `proofs/`, under the names of what they are about.
#![tactic(auto)]

ghost use Rattle.std.specs.Prelude.{◌≡◌, ◌≢◌, ◌↔◌, ℕ, ◌+◌, ◌-◌, ◌<◌, ◌≤◌, ◌==◌, Bool, true, false, not, ◌&&◌, ◌||◌, nat_lt, if◌then◌else◌};
ghost use Rattle.std.specs.Prelude.{Some, None, List, [], ◌∷◌, ◌++◌, length, map, filter, take, Contains, IsPermutation};
ghost use Rattle.std.specs.Prelude.{MatchOption, IfSome};
ghost use Rattle.std.specs.List.{slice_get, slice_range};
ghost use Rattle.std.specs.Ordering.{eq_by_cmp, nat_cmp};
ghost use Rattle.std.specs.FinMap.{IsAntisymmetric, find};
ghost use Rattle.plain_sets.specs.Maps.{Map, entries, empty, get, contains_key, insert, insert_all, remove, len, keys, values, key_set, from_entries};
ghost use Rattle.plain_sets.specs.Maps.{AreDistinct, IsPartOf};
ghost use Rattle.plain_sets.specs.Ranges.{Range, range, is_between, in_ranges, AreApart, width_of, joined, parted, NoneIn, IsFirstIn};
ghost use Rattle.plain_sets.specs.Numbers.{Numbers, has, with_number, without_number, with_range, without_range, within, set_of_range, with_all};
ghost use Rattle.plain_sets.specs.Numbers.{union, IsSubset, is_subset, IsBelow, ranges, set_of_ranges, first_in, first_below, missing, gaps};
ghost use Rattle.plain_sets.specs.Ordered.{placed, ordered, IsInOrder, IsLeast, KeysDiffer, first_of, firsts, has_sender, SendersDiffer};

/// What a look-up returns, at keys of any order.
pub fn look_ups<K: Ord, X>()
    ensures none { (q : K) → get (empty {X = X} {R = K.cmp}) q ≡ None }
    ensures inserted { (m : Map K.cmp X) (k : K) (v : X) (q : K)
        → get (insert m k v) q ≡ (if eq_by_cmp K.cmp q k then Some v else get m q) }
    ensures removed { (m : Map K.cmp X) (k q : K)
        → get (remove m k) q ≡ (if eq_by_cmp K.cmp q k then None else get m q) }
    ensures listed { (es : List (K × X)) (q : K) → get (from_entries {R = K.cmp} es) q ≡ find K.cmp q es }
{}

/// How many keys have a value.
pub fn sizes<K: Ord, X>()
    ensures none { len (empty {X = X} {R = K.cmp}) ≡ 0 }
    ensures inserted { (m : Map K.cmp X) (k : K) (v : X)
        → len (insert m k v) ≡ (if contains_key m k then len m else len m + 1) }
    ensures removed { (m : Map K.cmp X) (k : K)
        → len (remove m k) ≡ (if contains_key m k then len m - 1 else len m) }
{}

/// The entries and the keys are those that a look-up finds, if only equal keys compare as equal.
pub fn members<K: Ord, X>()
    ensures entry { IsAntisymmetric K.cmp → (m : Map K.cmp X) (k : K) (v : X)
        → Contains (entries m) (k, v) ↔ (get m k ≡ Some v) }
    ensures key { IsAntisymmetric K.cmp → (m : Map K.cmp X) (k : K)
        → Contains (keys m) k ↔ (contains_key m k ≡ true) }
    ensures listed { IsAntisymmetric K.cmp → (es : List (K × X)) → AreDistinct K.cmp es
        → IsPermutation es (entries (from_entries {R = K.cmp} es)) }
{}

/// Two maps that return the same at each key are one, if only equal keys compare as equal.
pub fn one_map<K: Ord, X>()
    ensures { IsAntisymmetric K.cmp → (m n : Map K.cmp X) → ((q : K) → get m q ≡ get n q) → m ≡ n }
{}

/// Changes that change nothing, that undo each other, or that may come in either order.
pub fn changes<K: Ord, X>()
    ensures same { IsAntisymmetric K.cmp → (m : Map K.cmp X) (k : K) (v : X) → get m k ≡ Some v
        → insert m k v ≡ m }
    ensures absent { IsAntisymmetric K.cmp → (m : Map K.cmp X) (k : K) → get m k ≡ None → remove m k ≡ m }
    ensures again { IsAntisymmetric K.cmp → (m : Map K.cmp X) (k : K) (v w : X)
        → insert (insert m k v) k w ≡ insert m k w }
    ensures undone { IsAntisymmetric K.cmp → (m : Map K.cmp X) (k : K) (v : X) → get m k ≡ None
        → remove (insert m k v) k ≡ m }
    ensures swapped { IsAntisymmetric K.cmp → (m : Map K.cmp X) (j k : K) (v w : X) → j ≢ k
        → insert (insert m j v) k w ≡ insert (insert m k w) j v }
    ensures values { IsAntisymmetric K.cmp → (m : Map K.cmp X) (k : K) (v : X) → get m k ≡ None
        → IsPermutation (v ∷ values m) (values (insert m k v)) }
{}

/// A map whose values at the numbers from one on are those of a list, and the set of its keys.
pub fn spread<X>()
    ensures got { (m : Map nat_cmp X) (a : ℕ) (xs : List X) (q : ℕ)
        → get (insert_all m a xs) q ≡ (if is_between a (a + length xs) q then slice_get xs (q - a) else get m q) }
    ensures keys { (m : Map nat_cmp X) (a : ℕ) (xs : List X)
        → key_set (insert_all m a xs) ≡ with_range (key_set m) a (a + length xs) }
    ensures set { (m : Map nat_cmp X) (q : ℕ) → has (key_set m) q ≡ contains_key m q }
    ensures part { (m : Map nat_cmp X) (xs : List X) (a b : ℕ) → IsPartOf m xs
        → IsPartOf (insert_all m a (slice_range xs a b)) xs }
    ensures whole { (m : Map nat_cmp X) (xs : List X) → IsPartOf m xs → len m ≡ length xs → values m ≡ xs }
{}

/// Which numbers a set has after each change, and that it is nothing but these.
pub fn numbers()
    ensures none { (q : ℕ) → has empty q ≡ false }
    ensures with_one { (s : Numbers) (x q : ℕ) → has (with_number s x) q ≡ ((q == x) || has s q) }
    ensures without_one { (s : Numbers) (x q : ℕ) → has (without_number s x) q ≡ (not (q == x) && has s q) }
    ensures with_range { (s : Numbers) (a b q : ℕ) → has (with_range s a b) q ≡ (is_between a b q || has s q) }
    ensures without_range { (s : Numbers) (a b q : ℕ)
        → has (without_range s a b) q ≡ (not (is_between a b q) && has s q) }
    ensures within { (s : Numbers) (a b q : ℕ) → has (within s a b) q ≡ (is_between a b q && has s q) }
    ensures union { (s t : Numbers) (q : ℕ) → has (union s t) q ≡ (has s q || has t q) }
    ensures missing { (s : Numbers) (length q : ℕ)
        → has (missing s length) q ≡ (nat_lt q length && not (has s q)) }
    ensures subset { (s t : Numbers) → (is_subset s t ≡ true) ↔ IsSubset s t }
    ensures same { (s t : Numbers) → ((q : ℕ) → has s q ≡ has t q) → s ≡ t }
{}

/// A set determines its maximal ranges, and they determine it.
pub fn maximal_ranges()
    ensures apart { (s : Numbers) → AreApart 0 (ranges s) }
    ensures members { (s : Numbers) (q : ℕ) → in_ranges (ranges s) q ≡ has s q }
    ensures from_set { (s : Numbers) → set_of_ranges (ranges s) ≡ s }
    ensures from_ranges { (rs : List Range) → AreApart 0 rs → ranges (set_of_ranges rs) ≡ rs }
    ensures none { (s : Numbers) → ((q : ℕ) → has s q ≡ false) → ranges s ≡ [] }
    ensures least { (s : Numbers)
        → IfSome (first_of (ranges s)) (λ r. (x : ℕ) → has s x ≡ true → r.from ≤ x) }
{}

/// The first range of the members from a to b - 1; none exactly where no member is there.
pub fn first_ranges()
    ensures { (s : Numbers) (a b : ℕ)
        → MatchOption (first_in s a b) (NoneIn (has s) a b) (IsFirstIn (has s) a b) }
{}

/// What a range more, or a range less, does to the ranges and the gaps.
pub fn changed_ranges()
    ensures added { (s : Numbers) (a b : ℕ) → a < b → ranges (with_range s a b) ≡ joined a b (ranges s) }
    ensures taken { (s : Numbers) (a b : ℕ) → a < b → ranges (without_range s a b) ≡ parted a b (ranges s) }
    ensures one_more { (s : Numbers) (a b : ℕ) → length (ranges (with_range s a b)) ≤ length (ranges s) + 1 }
    ensures one_less { (s : Numbers) (a b : ℕ)
        → length (ranges (without_range s a b)) ≤ length (ranges s) + 1 }
    ensures gaps { (s : Numbers) (a b length_of_all : ℕ)
        → length (gaps (with_range s a b) length_of_all) ≤ length (gaps s length_of_all) + 1 }
    ensures first_gaps { (a b length_of_all : ℕ) → length (gaps (set_of_range a b) length_of_all) ≤ 2 }
{}

/// How many members there are.
pub fn counts()
    ensures added { (s : Numbers) (a b : ℕ)
        → len (with_range s a b) + len (within s a b) ≡ len s + (b - a) }
    ensures taken { (s : Numbers) (a b : ℕ) → len (without_range s a b) + len (within s a b) ≡ len s }
    ensures below { (s : Numbers) (n : ℕ) → IsBelow s n → len s ≤ n }
    ensures missing { (s : Numbers) (n : ℕ) → IsBelow s n → len s + len (missing s n) ≡ n }
    ensures full { (s : Numbers) (n : ℕ) → IsBelow s n → (len s ≡ n) ↔ ((x : ℕ) → x < n → has s x ≡ true) }
    ensures subset { (s t : Numbers) → IsSubset s t → len s ≤ len t }
    ensures width { (s : Numbers) → len s ≡ width_of (ranges s) }
{}

/// Things in order: the same things, none below one before it, in whatever order they came.
pub fn in_order<X, Y>()
    ensures same { (key : X → ℕ × ℕ) (xs : List X) → IsPermutation xs (ordered key xs) }
    ensures sorted { (key : X → ℕ × ℕ) (xs : List X) → IsInOrder key (ordered key xs) }
    ensures first { (key : X → ℕ × ℕ) (xs : List X)
        → MatchOption (first_of (ordered key xs)) (xs ≡ []) (IsLeast key xs) }
    ensures swapped { (key : X → ℕ × ℕ) (x y : X) (xs : List X) → key x ≢ key y
        → placed key x (placed key y xs) ≡ placed key y (placed key x xs) }
    ensures any_order { (key : X → ℕ × ℕ) (xs ys : List X) → IsPermutation xs ys → KeysDiffer key xs
        → ordered key xs ≡ ordered key ys }
    ensures mapped { (key : X → ℕ × ℕ) (key' : Y → ℕ × ℕ) (f : X → Y) → ((x : X) → key' (f x) ≡ key x)
        → (xs : List X) → ordered key' (map f xs) ≡ map f (ordered key xs) }
    ensures filtered { (key : X → ℕ × ℕ) (p : X → Bool) (xs : List X)
        → ordered key (filter p xs) ≡ filter p (ordered key xs) }
{}

/// The first of each sender: a thing is kept exactly if no thing before it is of its sender.
pub fn first_of_each<X>()
    ensures none { (sender : X → ℕ) → firsts sender [] ≡ [] }
    ensures one_more { (sender : X → ℕ) (xs : List X) (x : X)
        → firsts sender (xs ++ x ∷ []) ≡ (if has_sender sender xs (sender x) then firsts sender xs else firsts sender xs ++ x ∷ []) }
    ensures differ { (sender : X → ℕ) (xs : List X) → SendersDiffer sender (firsts sender xs) }
    ensures senders { (sender : X → ℕ) (xs : List X) (s : ℕ)
        → has_sender sender (firsts sender xs) s ≡ has_sender sender xs s }
    ensures sorted { (sender : X → ℕ) (key : X → ℕ × ℕ) (xs : List X) → IsInOrder key xs
        → IsInOrder key (firsts sender xs) }
    ensures few { (sender : X → ℕ) (xs : List X) (k : ℕ)
        → SendersDiffer sender (take k (firsts sender xs)) }
{}

/// Examples that were worked out by hand, each definition once.
pub fn worked()
    ensures map_keys { keys (remove (insert (insert (insert (empty {X = ℕ} {R = nat_cmp}) 5 1) 2 7) 9 3) 2)
        ≡ 5 ∷ 9 ∷ [] }
    ensures map_values { values (insert (insert (insert (empty {X = ℕ} {R = nat_cmp}) 5 1) 2 7) 5 3)
        ≡ 7 ∷ 3 ∷ [] }
    ensures map_bytes { values (insert_all (insert_all (empty {X = ℕ}) 0 (10 ∷ 11 ∷ 12 ∷ [])) 1 (20 ∷ 21 ∷ 22 ∷ []))
        ≡ 10 ∷ 20 ∷ 21 ∷ 22 ∷ [] }
    ensures two_ranges { ranges (with_all (3 ∷ 8 ∷ 1 ∷ 7 ∷ 2 ∷ []) empty) ≡ range 1 4 ∷ range 7 9 ∷ [] }
    ensures joined_ranges { ranges (with_range (with_range (with_range empty 0 2) 5 8) 2 5) ≡ range 0 8 ∷ [] }
    ensures parted_range { ranges (without_range (set_of_range 0 8) 2 5) ≡ range 0 2 ∷ range 5 8 ∷ [] }
    ensures count { len (without_range (set_of_range 0 8) 2 5) ≡ 5 }
    ensures two_gaps { gaps (set_of_range 2 4) 6 ≡ range 0 2 ∷ range 4 6 ∷ [] }
    ensures below_three { first_below (set_of_ranges (range 1 4 ∷ range 7 9 ∷ [])) 3 ≡ Some (range 1 3) }
    ensures from_two { first_in (set_of_ranges (range 1 4 ∷ range 7 9 ∷ [])) 4 8 ≡ Some (range 7 8) }
    ensures in_no_range { first_in (set_of_ranges (range 1 4 ∷ range 7 9 ∷ [])) 4 7 ≡ None }
    ensures three_in_order { ordered (λ p. p) ((4, 2) ∷ (7, 1) ∷ (4, 1) ∷ []) ≡ (4, 1) ∷ (4, 2) ∷ (7, 1) ∷ [] }
    ensures behind_its_own { placed (λ (p : ℕ × ℕ). (p.0, 0)) (4, 9) ((4, 2) ∷ (7, 1) ∷ [])
        ≡ (4, 2) ∷ (4, 9) ∷ (7, 1) ∷ [] }
    ensures two_senders { firsts (λ (p : ℕ × ℕ). p.0) ((0, 5) ∷ (0, 6) ∷ (1, 7) ∷ []) ≡ (0, 5) ∷ (1, 7) ∷ [] }
{}
