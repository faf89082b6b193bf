// What a reader of a schedule gives at a call.
ghost use Rattle.std.specs.Prelude.{◌≡◌, ◌≤◌, ℕ, List, Option, Result, true, false, length, IfErr};
ghost use Rattle.homa_io.specs.Outside.{HasRisen};
ghost use Rattle.script_lines.specs.declared.stop.ScriptStop.{ScriptStop as Stopped};
ghost use Rattle.script_lines.specs.Stops.{is_read, has_failed_read};
ghost use Rattle.script_lines.specs.Taking.{TakesLines};
ghost use Rattle.homa_script.specs.Script.{Script, opened};
ghost use Rattle.homa_replay.specs.Part.{IsGoing, GivesSettings, GivesNext};

use homa_io::Source;
use homa_plain::Settings;
use homa_script::{Next, Reader, ScriptStop};

/// What a reader of a schedule gives at a call: its settings, or what comes next behind them.
pub(crate) trait Part: Drop {
    /// When a reader may be asked for it.
    ghost may_come: { Script → Type 0 };

    /// What the reader says by an answer, from what it and its source had before to what they have then.
    ghost gives: { Script → Script → Option (List ℕ) → Option (List ℕ) → Result Self Stopped → Type 0 };

    /// Reads it.
    fn read<S: Source>(reader: &mut Reader, source: &mut S) -> Result<Self, ScriptStop>
        requires { may_come reader.old }
        ensures gives { gives reader.old reader.new (S.left source.old) (S.left source.new) result }
        ensures started { reader.new.started ≡ true }
        ensures limit { reader.new.place.limit ≡ reader.old.place.limit }
        ensures took { has_failed_read result ≡ false → TakesLines reader.old.place reader.new.place (S.left source.old) (S.left source.new) }
        ensures pending { length reader.new.place.pending ≤ 65536 }
        ensures risen { IfErr result (λ stop. is_read stop ≡ true → HasRisen (S.faults source.old) (S.faults source.new)) }
        ensures quiet { has_failed_read result ≡ false → S.faults source.new ≡ S.faults source.old }
        ensures same { S.is_same source.old source.new };
}

impl Part for Settings {
    ghost may_come = { λ reader. reader ≡ opened reader.place.limit };

    ghost gives = { GivesSettings };

    fn read<S: Source>(reader: &mut Reader, source: &mut S) -> Result<Self, ScriptStop> {
        reader.settings(source)
    }
}

impl Part for Next {
    ghost may_come = { IsGoing };

    ghost gives = { GivesNext };

    fn read<S: Source>(reader: &mut Reader, source: &mut S) -> Result<Self, ScriptStop> {
        reader.next(source)
    }
}
