// The numbers that a step's packets have among all that were sent.
ghost use Rattle.std.specs.Prelude.{◌≡◌, ◌<◌, ◌+◌, ◌^◌};
ghost use Rattle.homa_plain.specs.Entries.{plain};
ghost use Rattle.homa_plain.specs.Told.{HasLine};
ghost use Rattle.event_laws.specs.Named.{numbered};
ghost use Rattle.host_table.specs.Left.{IsFew};

use homa_plain::Entry;

/// Gives a packet of a step the number that it has among all packets, of which `base` were sent before the step. Any other entry
/// stays as it is.
pub fn number_on(base: u64, entry: &mut Entry<'_>)
    requires few { IsFew (plain entry.old) }
    requires base { base + 64 < 2 ^ 64 }
    requires line { HasLine (plain entry.old) }
    ensures entry { plain entry.new ≡ numbered base (plain entry.old) }
    ensures line { HasLine (plain entry.new) }
{
    if let Entry::Send { number, .. } = entry {
        *number += base;
    }
}
