// Laws of judging a trace line by line. No function here does anything: each states laws, and its body is empty.
ghost use Rattle.std.specs.Prelude.{◌≡◌, ◌↔◌, ℕ, Some, None, List};
ghost use Rattle.homa_plain.specs.Entries.{PlainEntry};
ghost use Rattle.trace_rules.specs.View.{View, nothing_seen};
ghost use Rattle.trace_rules.specs.Shape.{Shape};
ghost use Rattle.trace_rules.specs.Laws.{Holds, Once, Returned, HandedUp, Fails};
ghost use Rattle.trace_rules.specs.Granting.{Granting};
ghost use Rattle.trace_rules.specs.Judge.{Clause, Obeys, first_broken, IsFirstBroken};

/// Judging line by line finds nothing exactly where all lines obey all laws; else it finds the first line that
/// breaks one, and the first clause that fails there. All lines obey all laws exactly where each law holds at
/// all lines.
pub fn judges()
    ensures none { (lines : List PlainEntry) → (first_broken lines ≡ None) ↔ Holds Obeys nothing_seen lines }
    ensures some { (lines : List PlainEntry) (k : ℕ) (clause : Clause)
        → (first_broken lines ≡ Some (k, clause)) ↔ IsFirstBroken lines k clause }
    ensures each { (v : View) (lines : List PlainEntry)
        → Holds Obeys v lines ↔ (Holds Shape v lines × Holds Once v lines × Holds Returned v lines
        × Holds HandedUp v lines × Holds Fails v lines × Holds Granting v lines) }
{}
