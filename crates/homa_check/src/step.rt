// A line that is judged and taken.
ghost use Rattle.std.specs.Prelude.{Some, None, ◌≡◌, ◌-◌, ◌^◌, ◌<◌, ◌&&◌, IfOk};
ghost use Rattle.std.specs.Option.{option_map};
ghost use Rattle.homa_check.specs.Clauses.{clause_of};
ghost use Rattle.homa_check.specs.Judging.{judged_before};
ghost use Rattle.homa_plain.specs.Entries.{plain};
ghost use Rattle.trace_rules.specs.Judge.{judged};
ghost use Rattle.trace_rules.specs.Seen.{seen as seen_with};
ghost use Rattle.trace_rules.specs.View.{View};
ghost use Rattle.check_lines.specs.Sends.{keeps_window};
ghost use Rattle.check_lines.specs.Traces.{Follows, Keeps};

use crate::judge::judge;
use crate::verdict::Clause;
use check_lines::Trace;
use homa_plain::{CallId, Entry};
use std::alloc::{AllocError, Global};

// Whether the messages of two calls are within their windows.
fn are_within(trace: &Trace, a: Option<CallId>, b: Option<CallId>) -> bool
    ensures { (v : View) → Keeps v trace.now → result ≡ (keeps_window v a && keeps_window v b) }
{
    trace.is_within(a) && trace.is_within(b)
}

// Takes a line at which no clause fails, windows aside.
fn take_judged(
    alloc: Global,
    trace: &mut Trace,
    line: &Entry<'_>,
) -> Result<Option<Clause>, AllocError>
    ensures judged { IfOk result (λ r. (v : View) → Follows v trace.old → v.place < 2 ^ 64 - 1 → judged_before v (plain line.now) ≡ None
        → option_map clause_of r ≡ judged v (plain line.now)) }
    ensures next { IfOk result (λ r. (v : View) → Follows v trace.old → v.place < 2 ^ 64 - 1 → judged_before v (plain line.now) ≡ None → r ≡ None
        → Follows (seen_with v (plain line.now)) trace.new) }
{
    let before = trace.to_test(line);
    trace.take(alloc, line)?;
    if are_within(trace, before, trace.to_test(line)) {
        return Ok(None);
    }
    Ok(Some(Clause::Granting))
}

/// Judges a line, and takes it if no clause fails.
pub(crate) fn step_entry(
    alloc: Global,
    trace: &mut Trace,
    line: &Entry<'_>,
) -> Result<Option<Clause>, AllocError>
    ensures judged { IfOk result (λ r. (v : View) → Follows v trace.old → v.place < 2 ^ 64 - 1 → option_map clause_of r ≡ judged v (plain line.now)) }
    ensures next { IfOk result (λ r. (v : View) → Follows v trace.old → v.place < 2 ^ 64 - 1 → r ≡ None → Follows (seen_with v (plain line.now)) trace.new) }
{
    trace.look_up(line);
    match judge(alloc, trace, line)? {
        Some(clause) => Ok(Some(clause)),
        None => take_judged(alloc, trace, line),
    }
}
