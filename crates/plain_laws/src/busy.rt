// The law of the answer to a RESEND.
ghost use Rattle.std.specs.Prelude.{◌≡◌, ◌⊎◌, ◌↔◌, ℕ, ◌<◌, ◌≤◌, min, max, length};
ghost use Rattle.plain_sets.specs.Numbers.{with_range, ranges};
ghost use Rattle.homa_plain.specs.Outgoing.{Outgoing};
ghost use Rattle.homa_plain.specs.Busy.{Busy, Queued, resend};
ghost use Rattle.homa_plain.specs.Outgoing.{AllWait};

/// A RESEND is answered Busy exactly where there are no such bytes, all of them wait, or more than 63 ranges
/// would wait; then nothing changes.
pub fn resends()
    ensures busy { (p : Outgoing) (a b prio : ℕ) → let end = min b p.length in
        ((resend p a b prio).answer ≡ Busy)
        ↔ ((end ≤ a) ⊎ (AllWait p a end ⊎ (63 < length (ranges (with_range p.waiting a end))))) }
    ensures unchanged { (p : Outgoing) (a b prio : ℕ) → (resend p a b prio).answer ≡ Busy
        → (resend p a b prio).part ≡ p }
    ensures queued { (p : Outgoing) (a b prio : ℕ) → let end = min b p.length in
        (resend p a b prio).answer ≡ Queued → (resend p a b prio).part
        ≡ record p { waiting = with_range p.waiting a end; granted = max p.granted end; prio = prio } }
{}
