//! Laws on which a checker of one trace rests: what it has to keep of the lines before.
//!
//! The model: the lines before are a `View` of `trace_rules`, and a [`Spot`](specs/Spots.antt) is what it says of one
//! call. No code stands here, only laws; each is the contract of a function that does nothing.
//! Main promise: a line changes the spots of one call alone, but for a restart. What a block's delivery is taken back
//! to is one record beside the spots. A message can leave its window only at the call that a line changed.

ghost use Rattle.std.specs.Prelude.{◌≡◌, ◌∷◌, ℕ, List, Option, take, filter, map, false};
ghost use Rattle.std.specs.List.{list_any};
ghost use Rattle.plain_sets.specs.Maps.{contains_key};
ghost use Rattle.plain_sets.specs.Ordered.{ordered, firsts};
ghost use Rattle.homa_plain.specs.declared.id.CallId.{CallId};
ghost use Rattle.homa_plain.specs.declared.id.HostId.{HostId};
ghost use Rattle.homa_plain.specs.Entries.{PlainEntry};
ghost use Rattle.homa_plain.specs.Grants.{Message, sender, choice_key};
ghost use Rattle.trace_rules.specs.View.{View, Sent, has_run, life, has_last};
ghost use Rattle.trace_rules.specs.Seen.{seen};
ghost use Rattle.trace_rules.specs.Laws.{answers};
ghost use Rattle.trace_rules.specs.Granting.{IsWithin};
ghost use Rattle.check_call.specs.Spots.{Spot, Undo, spot, delivered_spot, due_spot, IsUndo};
ghost use Rattle.check_call.specs.Steps.{line_at, undo_after};
ghost use Rattle.check_call.specs.Tested.{IsWithinSpot, to_test, AtCall, IsOther};
ghost use Rattle.check_call.specs.Entered.{entered};
ghost use Rattle.check_call.specs.LeftOut.{lean, runs_of, is_here, is_in, AreMade};

/// What a line does to each call, and to what the block's delivery may be taken back to.
pub fn lines_change_spots()
    ensures spots { (v : View) (o : Option Undo) (line : PlainEntry) (q : CallId) → IsUndo v o → spot (seen v line).now q ≡ line_at v o line q (spot v.now q) }
    ensures undo { (v : View) (o : Option Undo) (line : PlainEntry) → IsUndo v o → IsUndo (seen v line) (undo_after v o line) }
{}

/// Behind a line other than that of the settings every message is within its window, where it was so before, and those
/// of the call that the line changed are.
pub fn windows_at_one_call()
    ensures { (v : View) (o : Option Undo) (line : PlainEntry) → IsUndo v o → IsOther line → IsWithin v
        → AtCall (λ id. IsWithinSpot v.settings.window (spot (seen v line).now id)) (to_test v o line) → IsWithin (seen v line) }
{}

/// Of a packet the payload's length is enough; of runs those of the call; and whether the last byte of a call's request
/// was sent can be noted at the call, since none was when the call was made.
pub fn little_is_kept()
    ensures delivered { (v : View) (p : Sent) (s : Spot) → delivered_spot v (lean p) s ≡ delivered_spot v p s }
    ensures due { (v : View) (p : Sent) (s : Spot) → due_spot v (lean p) s ≡ due_spot v p s }
    ensures ran { (v : View) (host : HostId) (id : CallId) → has_run v host id ≡ list_any (is_here host (life v host)) (runs_of v id) }
    ensures answers { (v : View) (id : CallId) (inc : ℕ) → answers v id inc ≡ map (λ r. r.response) (filter (is_in v id inc) (runs_of v id)) }
    ensures sent { (v : View) (id : CallId) (n : ℕ) → contains_key v.calls id ≡ false → AreMade v → list_any (λ p. has_last id n p p.body) v.packets ≡ false }
{}

/// The messages that are granted to are found by letting one message after the other enter a list of at most k.
pub fn choice_by_entering()
    ensures { (k : ℕ) (m : Message) (ms : List Message)
        → take k (firsts sender (ordered choice_key (m ∷ ms))) ≡ take k (entered sender choice_key m (take k (firsts sender (ordered choice_key ms)))) }
{}
