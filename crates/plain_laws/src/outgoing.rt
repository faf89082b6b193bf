// Laws of outgoing messages.
ghost use Rattle.std.specs.Prelude.{◌≡◌, false, ◌↔◌, ℕ, ◌<◌, ◌≤◌, ◌||◌, min, max, None, List, length, MatchOption, IfSome};
ghost use Rattle.plain_sets.specs.Ranges.{is_between};
ghost use Rattle.plain_sets.specs.Numbers.{has, without_range, ranges};
ghost use Rattle.homa_plain.specs.Outgoing.{Outgoing, opened, grant, has_waiting, next, IsSound};
ghost use Rattle.homa_plain.specs.OutgoingChanges.{Change, changed, changed_by};
ghost use Rattle.homa_plain.specs.Outgoing.{IsFront, IsIdle};

/// What holds of each outgoing message after any changes: nothing waits above the granted end, and at most 64
/// ranges wait.
pub fn outgoing_messages()
    ensures opened { (n unsched : ℕ) → IsSound (opened n unsched) }
    ensures changed { (p : Outgoing) (c : Change) → IsSound p → IsSound (changed p c) }
    ensures always { (n unsched : ℕ) (cs : List Change) → IsSound (changed_by (opened n unsched) cs) }
    ensures few { (n unsched : ℕ) (cs : List Change)
        → length (ranges (changed_by (opened n unsched) cs).waiting) ≤ 64 }
    ensures top { (p : Outgoing) (c : Change) → p.top ≤ (changed p c).top }
{}

/// A grant never lowers the granted end, and adds the bytes between.
pub fn grants_received()
    ensures granted { (p : Outgoing) (offset prio : ℕ) → p.granted ≤ (grant p offset prio).granted }
    ensures waiting { (p : Outgoing) (offset prio x : ℕ)
        → has (grant p offset prio).waiting x ≡ (is_between p.granted (min offset p.length) x || has p.waiting x) }
{}

/// What is sent next: the first part of the first waiting range, and nothing exactly if nothing waits.
pub fn sends()
    ensures front { (p : Outgoing) (seg : ℕ) → 0 < seg → IsSound p
        → MatchOption (next p seg).range (IsIdle p) (IsFront p seg) }
    ensures waiting { (p : Outgoing) → (has_waiting p ≡ false) ↔ IsIdle p }
    ensures taken { (p : Outgoing) (seg : ℕ) → IfSome (next p seg).range (λ r. (next p seg).part
        ≡ record p { waiting = without_range p.waiting r.from r.to; top = max p.top r.to }) }
    ensures idle { (p : Outgoing) (seg : ℕ) → (next p seg).range ≡ None → (next p seg).part ≡ p }
{}
