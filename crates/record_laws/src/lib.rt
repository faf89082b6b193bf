//! Laws of schedules that are printed, and of recordings, proved.
//!
//! The model: the text of settings, events and a comment, as `homa_script` prints them; the definitions read it.
//! Main promise: such a text is read as just these settings and events (`schedules_read`), so its replay tells what the
//! events tell (`schedules_replayed`); and the replay of a recording tells what the node's run told (`texts_repeat`).
//! No code stands here; a law is the contract of a function that does nothing.
#![tactic(auto)]

ghost use Rattle.record_laws.specs.Printed.{SchedulesRead, SchedulesReplayed};
ghost use Rattle.record_laws.specs.Recordings.{TextsRepeat};

/// What is printed of settings and events is read as just these.
pub fn schedules_read()
    ensures { SchedulesRead }
{}

/// The replay of what is printed tells what the events tell.
pub fn schedules_replayed()
    ensures { SchedulesReplayed }
{}

/// Let all hosts of a node be local with incarnation 1, and let the text that a recorder prints with status 0 be no longer than
/// an input may be. Its replay with the same answers tells what the node told, the clock's lines, those of datagrams that come
/// and the last line aside.
pub fn texts_repeat()
    ensures { TextsRepeat }
{}
