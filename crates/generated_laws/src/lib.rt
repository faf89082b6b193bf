//! No event of a generated run is refused, where it makes at most 4,294,967,295 calls, a sequence number each.
//!
//! The model: the definitions of `generated_runs` over the plain world of `homa_plain`. No code stands here, only laws; each
//! is the contract of a function that does nothing.
//! Main promise: the schedule of a run, as it is printed and where it is no longer than an input may be, is replayed to its
//! end, and tells what the run told.
#![tactic(auto)]

ghost use Rattle.std.specs.Prelude.{◌≤◌, ℕ, List, length};
ghost use Rattle.std.specs.List.{AllByRecursion};
ghost use Rattle.homa_plain.specs.Rules.{Answer};
ghost use Rattle.homa_plain.specs.Script.{most_bytes};
ghost use Rattle.generated_runs.specs.Generated.{generated, generated_settings, schedule_text};
ghost use Rattle.generated_laws.specs.Unrefused.{first_world, IsUnrefused, IsRunLine, IsReplayed};

/// Whatever the services answer, each event of a generated run is carried out, where no more calls are made than there are
/// sequence numbers: its hosts and packets are there, no delivery is late, and each call may start.
pub fn no_event_is_refused()
    ensures { (seed calls boxes : ℕ) (answers : List Answer) → calls ≤ 4294967295
        → IsUnrefused generated_settings (first_world generated_settings boxes answers) (generated seed calls boxes answers) }
{}

/// The lines of a run's schedule are ticks, deliveries of packets that were sent, and calls with counting bytes between its hosts.
pub fn lines_are_of_three_kinds()
    ensures { (seed calls boxes : ℕ) (answers : List Answer) → calls ≤ 4294967295
        → let g = generated seed calls boxes answers in AllByRecursion (IsRunLine generated_settings.hosts (length g.world.packets)) g.lines }
{}

/// Where its text is no longer than an input may be, `replay` takes the schedule that is printed: it tells the settings and
/// what the run told, and comes to the schedule's end.
pub fn schedules_are_taken()
    ensures { (seed calls boxes : ℕ) (answers : List Answer) → calls ≤ 4294967295
        → length (schedule_text generated_settings (generated seed calls boxes answers)) ≤ most_bytes
        → IsReplayed answers boxes (generated seed calls boxes answers) }
{}
