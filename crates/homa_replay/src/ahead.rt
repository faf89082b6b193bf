// A source that writes what is held before each read.
ghost use Rattle.std.specs.Prelude.{◌≡◌, ◌≤◌, ◌<◌, [], None, true, length, take, IfOk, OnErr, OnOk, IsErrOf};
ghost use Rattle.homa_io.specs.Outside.{unread, IsAtEnd};
ghost use Rattle.script_lines.specs.Taking.{TakesLines};
ghost use Rattle.homa_replay.specs.Faults.{LeavesBoth};
ghost use Rattle.homa_replay.specs.Part.{answer_of};

use crate::part::Part;
use crate::{FlushSink, Stop};
use homa_io::{ReadFailed, Source};
use homa_plain::ScriptFault;
use homa_script::{Reader, ScriptStop};

/// A source over another one. Before each read it writes what the sink holds, so that a fault of the source finds nothing
/// held. After the first fault of either it reads and writes nothing more.
#[derive(Drop)]
pub(crate) struct Ahead<'a, S, K> {
    source: &'a mut S,
    sink: &'a mut K,
    stop: Option<Stop>,
    faults: u64,
}

impl<'a, S: Source, K: FlushSink> Ahead<'a, S, K> {
    // Writes what is held, and reads.
    fn fetch(&mut self, buf: &mut [u8]) -> Result<usize, Stop>
        ensures fits { IfOk result (λ n. n ≤ length buf.new) }
        ensures read { IfOk result (λ n. S.left self.old.source.now ≡ unread (take n buf.new) (S.left self.new.source.now)) }
        ensures end { IfOk result (λ n. n ≡ 0 → 0 < length buf.old → IsAtEnd (S.left self.old.source.now)) }
        ensures err { OnErr result (S.left self.new.source.now ≡ S.left self.old.source.now) }
        ensures taken { K.taken self.new.sink.now ≡ K.taken self.old.sink.now }
        ensures none { OnOk result (K.held self.new.sink.now ≡ []) }
        ensures stop { self.new.stop ≡ self.old.stop }
        ensures faults { self.new.faults ≡ self.old.faults }
        ensures lent_source { self.new.source.ghost_name ≡ self.old.source.ghost_name }
        ensures lent_sink { self.new.sink.ghost_name ≡ self.old.sink.ghost_name }
        ensures left { LeavesBoth S.faults S.is_same K.faults K.is_same K.held self.old.source.now self.new.source.now self.old.sink.now
            self.new.sink.now result }
        ensures memory { IsErrOf result Stop.NoMemory → ⊥ }
    {
        self.sink.flush()?;
        let n = self.source.read(buf)?;
        Ok(n)
    }
}

impl<'a, S: Source, K: FlushSink> Source for Ahead<'a, S, K> {
    ghost use Rattle.homa_replay.specs.Ahead.{IsHeeded};
    ghost use Rattle.homa_replay.specs.Counting.{counts};
    ghost use Rattle.homa_replay.specs.FlushedReads.{heeded_self, heeded_on};
    ghost use Rattle.std.specs.Prelude.{refl};
    ghost use Rattle.std.proofs.Common.{◌∙◌};

    ghost left = { λ a. S.left a.source.now };

    ghost faults = { λ a. a.faults };

    // It refers to the same two. After the first fault nothing changes; a fault of the source finds nothing held.
    ghost is_same = { λ a b. (a.source.ghost_name ≡ b.source.ghost_name) × (a.sink.ghost_name ≡ b.sink.ghost_name) × S.is_same a.source.now b.source.now
        × K.is_same a.sink.now b.sink.now × (K.taken b.sink.now ≡ K.taken a.sink.now)
        × IsHeeded (counts a.stop a.faults (S.faults a.source.now) (K.faults a.sink.now) (K.held a.sink.now))
        (counts b.stop b.faults (S.faults b.source.now) (K.faults b.sink.now) (K.held b.sink.now)) a.stop };

    ghost same_self = { λ a. (
      refl,
      refl,
      S.same_self a.source.now,
      K.same_self a.sink.now,
      refl,
      heeded_self (counts a.stop a.faults (S.faults a.source.now) (K.faults a.sink.now) (K.held a.sink.now)),
    ) };

    ghost same_on = { λ a b c p q. (
      p.0 ∙ q.0,
      p.1 ∙ q.1,
      S.same_on a.source.now b.source.now c.source.now p.2 q.2,
      K.same_on a.sink.now b.sink.now c.sink.now p.3 q.3,
      q.4 ∙ p.4,
      heeded_on (counts a.stop a.faults (S.faults a.source.now) (K.faults a.sink.now) (K.held a.sink.now))
          (counts b.stop b.faults (S.faults b.source.now) (K.faults b.sink.now) (K.held b.sink.now))
          (counts c.stop c.faults (S.faults c.source.now) (K.faults c.sink.now) (K.held c.sink.now)) p.5 q.5,
    ) };

    fn read(&mut self, buf: &mut [u8]) -> Result<usize, ReadFailed> {
        if self.stop.is_some() {
            self.faults = self.faults.saturating_add(1);
            return Err(ReadFailed);
        }
        match self.fetch(buf) {
            Ok(n) => Ok(n),
            Err(stop) => {
                self.stop = Some(stop);
                self.faults = self.faults.saturating_add(1);
                Err(ReadFailed)
            }
        }
    }
}

/// Reads a part, or why its line is refused. Before the source is read what is held is written.
pub(crate) fn read_ahead<T: Part, S: Source, K: FlushSink>(
    reader: &mut Reader,
    source: &mut S,
    sink: &mut K,
) -> Result<Result<T, ScriptFault>, Stop>
    requires { T.may_come reader.old }
    ensures gives { T.gives reader.old reader.new (S.left source.old) (S.left source.new) (answer_of result) }
    ensures started { reader.new.started ≡ true }
    ensures limit { reader.new.place.limit ≡ reader.old.place.limit }
    ensures took { OnOk result (TakesLines reader.old.place reader.new.place (S.left source.old) (S.left source.new)) }
    ensures pending { length reader.new.place.pending ≤ 65536 }
    ensures taken { K.taken sink.new ≡ K.taken sink.old }
    ensures left { LeavesBoth S.faults S.is_same K.faults K.is_same K.held source.old source.new sink.old sink.new result }
    ensures memory { IsErrOf result Stop.NoMemory → ⊥ }
{
    let mut ahead = Ahead {
        source,
        sink,
        stop: None,
        faults: 0,
    };
    let answer = T::read(reader, &mut ahead);
    let Ahead {
        source: _,
        sink: _,
        stop,
        faults: _,
    } = ahead;
    if let Some(stop) = stop {
        return Err(stop);
    }
    match answer {
        Ok(part) => Ok(Ok(part)),
        Err(ScriptStop::Fault(fault)) => Ok(Err(fault)),
        Err(ScriptStop::Read(_)) => unreachable!(),
    }
}
