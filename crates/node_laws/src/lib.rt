//! Laws of a node's runs, proved.
//!
//! The model: a node is a plain world of which only the local hosts act (`node_runs`), and a recording is the events that
//! stand for what was told of its run. No code stands here; a law is the contract of a function that does nothing.
//! Main promise: where all hosts of a node are local with incarnation 1, and nothing of its run is strange, the replay of
//! what a recorder tells of the run repeats it (`recordings_repeat`). Each packet of such a run is well formed, and so
//! its datagram gives it back.
#![tactic(auto)]

ghost use Rattle.node_runs.specs.Replayed.{RecordingsRepeat, SettingsFirst, EventsFit, TurnsFit};

/// Let all hosts of a node be local with incarnation 1, and nothing of its run be strange. Then the replay of what a
/// recorder tells of the run, with the same answers, gives the run's entries, but for those of the clock and of datagrams
/// that come.
pub fn recordings_repeat()
    ensures { RecordingsRepeat }
{}

/// The reports of such a run tell the settings first, and only there.
pub fn settings_first()
    ensures { SettingsFirst }
{}

/// Each event that is recorded of such a run has its numbers in range, where its net handed up bytes, and at most 1,500 of
/// them at once.
pub fn events_fit()
    ensures { EventsFit }
{}

/// A run that comes to its end has taken no more loop turns than its script allows, which are 1,000,000,000 at most.
pub fn turns_fit()
    ensures { TurnsFit }
{}
