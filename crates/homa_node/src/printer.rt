// An observer that prints the entries of a run.
ghost use Rattle.std.specs.Prelude.{◌≡◌, IsOk};
ghost use Rattle.node_runs.specs.Recorder.{no_notes};

use homa_io::Sink;
use homa_plain::{Entry, HostId};
use homa_text::put_entry;
use node_io::{Observer, SeenFault};

/// Prints each entry as its line. It keeps no notes, and nothing is strange to it.
#[derive(Drop)]
pub struct Printer<K: Sink> {
    sink: K,
}

impl<K: Sink> Printer<K> {
    ghost use Rattle.homa_node.specs.Printer.{sink_of};

    /// A printer to this sink.
    pub fn new(sink: K) -> Printer<K>
        ensures { sink_of result ≡ sink }
    {
        Printer { sink }
    }

    /// Gives the sink back.
    pub fn into_sink(self) -> K
        ensures { result ≡ sink_of self }
    {
        self.sink
    }
}

impl<K: Sink> Observer for Printer<K> {
    ghost use Rattle.node_runs.specs.Recorder.{no_notes};
    ghost use Rattle.node_runs.specs.Observed.{same_notes, never};
    ghost use Rattle.node_runs.specs.Texts.{printed};
    ghost use Rattle.homa_node.specs.Printer.{sink_of, never_comes};

    ghost taken = { λ p. K.taken (sink_of p) };

    ghost faults = { λ p. K.faults (sink_of p) };

    ghost is_same = { λ a b. K.is_same (sink_of a) (sink_of b) };

    ghost notes = { λ _. no_notes };

    ghost told = { λ _ report. printed report };

    ghost kept = { same_notes };

    ghost strange = { never };

    fn seen(&mut self, entry: &Entry<'_>) -> Result<(), SeenFault> {
        put_entry(&mut self.sink, entry).map_err(SeenFault::Write)
    }

    /// It prints nothing of a turning, and never fails there.
    fn turning(&mut self, _host: HostId) -> Result<(), SeenFault>
        ensures ok { IsOk result }
        ensures same { self.new ≡ self.old }
    {
        Ok(())
    }

    ghost same_self = { λ a. K.same_self (sink_of a) };

    ghost same_on = { λ a b c p q. K.same_on (sink_of a) (sink_of b) (sink_of c) p q };

    ghost strange_comes = { never_comes };
}
