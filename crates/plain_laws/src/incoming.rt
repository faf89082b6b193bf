// Laws of incoming messages.
ghost use Rattle.std.specs.Prelude.{◌≡◌, ◌↔◌, [], ℕ, ◌+◌, ◌-◌, ◌≤◌, true, false, if◌then◌else◌, Some, None, List, length, MatchOption};
ghost use Rattle.std.specs.List.{slice_get, slice_range};
ghost use Rattle.plain_sets.specs.Maps.{get, len, IsPartOf};
ghost use Rattle.plain_sets.specs.Ranges.{is_between, width_of, NoneIn, IsFirstIn};
ghost use Rattle.plain_sets.specs.Numbers.{with_range, without_range, IsBelow, missing};
ghost use Rattle.homa_plain.specs.declared.id.HostId.{HostId};
ghost use Rattle.homa_plain.specs.Incoming.{Incoming, opened, arrived, remaining, missing_ranges, is_missing, first_gap, with_bytes, new_bytes};
ghost use Rattle.homa_plain.specs.Incoming.{leaves_too_many_gaps, is_whole, message, granted_to, IsSound};

/// What a piece that arrives does: bytes that had arrived keep their values, and exactly the others that it
/// brings are new.
pub fn arrivals()
    ensures kept { (p : Incoming) (offset : ℕ) (piece : List ℕ) (q x : ℕ) → get p.bytes q ≡ Some x
        → get (with_bytes p offset piece).bytes q ≡ Some x }
    ensures taken { (p : Incoming) (offset : ℕ) (piece : List ℕ) (q : ℕ) → get p.bytes q ≡ None
        → get (with_bytes p offset piece).bytes q
        ≡ (if is_between offset (offset + length piece) q then slice_get piece (q - offset) else None) }
    ensures arrived { (p : Incoming) (offset : ℕ) (piece : List ℕ)
        → arrived (with_bytes p offset piece) ≡ with_range (arrived p) offset (offset + length piece) }
    ensures below { (p : Incoming) (offset : ℕ) (piece : List ℕ) → IsBelow (arrived p) p.length
        → offset + length piece ≤ p.length → IsBelow (arrived (with_bytes p offset piece)) p.length }
    ensures missing { (p : Incoming) (offset : ℕ) (piece : List ℕ) (n : ℕ)
        → missing (arrived (with_bytes p offset piece)) n
        ≡ without_range (missing (arrived p) n) offset (offset + length piece) }
    ensures grows { (p : Incoming) (offset : ℕ) (piece : List ℕ)
        → len p.bytes ≤ len (with_bytes p offset piece).bytes }
    ensures fewer { (p : Incoming) (offset : ℕ) (piece : List ℕ) → IsBelow (arrived p) p.length
        → offset + length piece ≤ p.length
        → remaining p ≡ remaining (with_bytes p offset piece) + new_bytes p offset piece }
{}

/// What holds of each incoming message: it has at most 64 gaps, and nothing beyond its end.
pub fn incoming_messages()
    ensures opened { (peer : HostId) (n order unsched : ℕ) → IsSound (opened peer n order unsched) }
    ensures taken { (p : Incoming) (offset : ℕ) (piece : List ℕ) → IsSound p → offset + length piece ≤ p.length
        → leaves_too_many_gaps p offset piece ≡ false → IsSound (with_bytes p offset piece) }
    ensures granted { (p : Incoming) (offset : ℕ) → IsSound p → offset ≤ p.length
        → IsSound (granted_to p offset) }
    ensures remaining { (p : Incoming) → IsSound p → remaining p ≡ width_of (missing_ranges p) }
    ensures whole { (p : Incoming) → IsSound p → (is_whole p ≡ true) ↔ (missing_ranges p ≡ []) }
{}

/// Pieces of one message, in any order and however often they come, make that message.
pub fn whole_messages()
    ensures none { (peer : HostId) (n order unsched : ℕ) (xs : List ℕ)
        → IsPartOf (opened peer n order unsched).bytes xs }
    ensures more { (p : Incoming) (xs : List ℕ) (a b : ℕ) → IsPartOf p.bytes xs
        → IsPartOf (with_bytes p a (slice_range xs a b)).bytes xs }
    ensures whole { (p : Incoming) (xs : List ℕ) → IsPartOf p.bytes xs → p.length ≡ length xs
        → is_whole p ≡ true → message p ≡ xs }
{}

/// The gaps of a message: the first piece leaves two at most, and so never too many.
pub fn message_gaps()
    ensures first { (p : Incoming)
        → MatchOption (first_gap p) (NoneIn (is_missing p) 0 p.granted) (IsFirstIn (is_missing p) 0 p.granted) }
    ensures two { (peer : HostId) (n order unsched offset : ℕ) (piece : List ℕ)
        → length (missing_ranges (with_bytes (opened peer n order unsched) offset piece)) ≤ 2 }
    ensures taken { (peer : HostId) (n order unsched offset : ℕ) (piece : List ℕ)
        → leaves_too_many_gaps (opened peer n order unsched) offset piece ≡ false }
{}
