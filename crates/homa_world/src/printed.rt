// The entries of an event are printed, each where it is made: an entry is large, so it isn't moved to the caller.
ghost use Rattle.std.specs.Prelude.{◌<◌, ◌+◌, ◌^◌, map, slice_get};
ghost use Rattle.std.specs.List.{flat_map};
ghost use Rattle.homa_io.specs.Writing.{IsWritten};
ghost use Rattle.homa_plain.specs.Text.{line_text};
ghost use Rattle.event_laws.specs.Named.{numbered};
ghost use Rattle.host_table.specs.Left.{entries_of, HasLeft};
ghost use Rattle.host_table.specs.Staged.{hosts_of};
ghost use Rattle.homa_world.specs.Standing.{first_told, told_of, IsKept};

use crate::parts::{First, Last, WorldParts};
use homa_io::WriteFailed;
use homa_plain::{Entry, HostId};
use homa_replay::FlushSink;
use homa_service::Service;
use host_table::number_on;

impl<S: Service> WorldParts<S> {
    /// Prints the entries of the last event.
    pub fn put_entries<K: FlushSink>(&self, sink: &mut K) -> Result<(), WriteFailed>
        requires kept { IsKept S.served self.now }
        ensures { IsWritten K.taken K.faults K.is_same result sink.old sink.new
            (flat_map line_text (told_of self.now)) }
    {
        match self.last {
            Last::Nothing => Ok(()),
            Last::Ticked => sink.put(&Entry::Clock { tick: self.clock }),
            Last::Restarted { host, inc } => sink.put(&Entry::Restart { host, inc }),
            Last::Shifted { host, n } => sink.put(&Entry::Shift { host, n }),
            Last::Stepped { host, first, base } => {
                self.put_first(sink, host, first)?;
                self.put_step(sink, host, base)
            }
        }
    }

    // Prints what stands before the entries of a host's step.
    fn put_first<K: FlushSink>(
        &self,
        sink: &mut K,
        host: HostId,
        first: First,
    ) -> Result<(), WriteFailed>
        ensures { IsWritten K.taken K.faults K.is_same result sink.old sink.new
            (flat_map line_text (first_told host first self.now.injected.items)) }
    {
        match first {
            First::Nothing => Ok(()),
            First::Delivered(packet) => sink.put(&Entry::Deliver { packet }),
            First::Injected => sink.put(&Entry::Inject {
                host,
                bytes: &self.injected,
            }),
        }
    }

    // Prints the entries of a host's step, whose packets have the numbers from `base` on.
    fn put_step<K: FlushSink>(
        &self,
        sink: &mut K,
        host: HostId,
        base: u64,
    ) -> Result<(), WriteFailed>
        requires base { base + 64 < 2 ^ 64 }
        requires left { HasLeft self.now.stage (slice_get (hosts_of self.now.stage) host.0) }
        ensures { IsWritten K.taken K.faults K.is_same result sink.old sink.new
            (flat_map line_text (map (numbered base)
            (entries_of self.now.stage (slice_get (hosts_of self.now.stage) host.0)))) }
    {
        let count = self.stage.entries(host);
        for i in 0..count {
            let mut entry = self.stage.entry(host, i);
            number_on(base, &mut entry);
            sink.put(&entry)?;
        }
        Ok(())
    }
}
