//! The verdict on a text that is to be a trace, from its bytes.
//!
//! The model: a text is its lines; each stands for the entry whose line it is, or for nothing; the entries are judged
//! one after the other. The definitions are in `specs/`, and compute. No code stands here, only theorems; each is a
//! clause of a function that does nothing.
//! Main promise: the verdict is yes exactly where each line is that of an entry and obeys the shape and all laws, and
//! else no with the first line that isn't or doesn't, and the first clause that fails there.
#![tactic(auto)]

ghost use Rattle.std.specs.Prelude.{◌≡◌, ◌↔◌, ℕ, List};
ghost use Rattle.trace_rules.specs.Judge.{Clause, ShapeClause, OnceClause, ReturnedClause, HandedUpClause, FailsClause, GrantingClause};
ghost use Rattle.check_verdict.specs.Verdict.{verdict_of, Yes, No};
ghost use Rattle.check_verdict.specs.Rows.{nothing, one_call, no_settings, run_twice, another_answer, done_is_missing, grant_too_far, timeout_too_early};
ghost use Rattle.check_verdict.specs.Rows.{late_packet, burial_to_its_end, server_restarts, server_is_full, node, stale_packet};
ghost use Rattle.check_verdict.specs.Text.{IsTrace, IsNoTrace};

/// The verdict says what the laws say.
pub fn verdicts()
    ensures yes { (bytes : List ℕ) (n : ℕ) → (verdict_of bytes ≡ Yes n) ↔ IsTrace bytes n }
    ensures no { (bytes : List ℕ) (k : ℕ) (clause : Clause) → verdict_of bytes ≡ No k clause → IsNoTrace bytes k clause }
{}

/// The verdicts on texts that were worked out by hand.
pub fn worked()
    ensures nothing { verdict_of nothing ≡ No 1 ShapeClause }
    ensures one_call { verdict_of one_call ≡ Yes 9 }
    ensures no_settings { verdict_of no_settings ≡ No 1 ShapeClause }
    ensures run_twice { verdict_of run_twice ≡ No 6 OnceClause }
    ensures another_answer { verdict_of another_answer ≡ No 8 ReturnedClause }
    ensures done_is_missing { verdict_of done_is_missing ≡ No 8 HandedUpClause }
    ensures grant_too_far { verdict_of grant_too_far ≡ No 12 GrantingClause }
    ensures timeout_too_early { verdict_of timeout_too_early ≡ No 32 FailsClause }
    ensures late_packet { verdict_of late_packet ≡ Yes 24 }
    ensures burial_to_its_end { verdict_of burial_to_its_end ≡ Yes 41 }
    ensures server_restarts { verdict_of server_restarts ≡ Yes 30 }
    ensures server_is_full { verdict_of server_is_full ≡ Yes 36 }
    ensures node { verdict_of node ≡ Yes 12 }
    ensures stale_packet { verdict_of stale_packet ≡ Yes 8 }
{}
