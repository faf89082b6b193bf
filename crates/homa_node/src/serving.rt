// The run of a node.
ghost use Rattle.std.specs.Prelude.{◌≡◌, ℕ, List, Some, false};
ghost use Rattle.homa_plain.specs.declared.id.HostId.{HostId as Host};
ghost use Rattle.node_runs.specs.Course.{node_run};
ghost use Rattle.node_turns.specs.Told.{SomeStrange};
ghost use Rattle.node_turns.specs.Acting.{OnStrange};
ghost use Rattle.homa_node.specs.Ends.{AreSameEnds};
ghost use Rattle.homa_node.specs.Served.{outside, HasServed};

use crate::opening::{Node, open_node};
use crate::{NextCall, OpenHosts, starts};
use homa_io::Source;
use node_io::{Clock, Net, Observer};
use node_turns::{NodeStop, clock_stands, hosts_act};
use std::alloc::Global;

/// Runs a node by its script, and answers how many loop turns it took. The input was then read to its end.
pub fn serve<B: Drop, H: OpenHosts<B> + Drop, S: Source, N: Net, C: Clock, O: Observer>(
    alloc: Global,
    source: &mut S,
    net: &mut N,
    clock: &mut C,
    boxes: B,
    observer: &mut O,
) -> Result<u64, NodeStop>
    requires ready { H.are_ready boxes }
    requires none_known { (h : Host) → N.known net.old h ≡ false }

    // The net is told where the hosts are, before anything else; and what was told, sent, read and received is that of the run of the script, in
    // order, up to its end or up to the stop.
    ensures answered { (bytes : List ℕ) → S.left source.old ≡ Some bytes
        → HasServed node_run O.told O.kept O.strange (H.are_allowed boxes) bytes (S.left source.new)
        (outside (O.taken observer.old) (O.notes observer.old) (N.acts net.old) (N.sent net.old) (N.gave net.old) (C.ticks clock.old))
        (outside (O.taken observer.new) (O.notes observer.new) (N.acts net.new) (N.sent net.new) (N.gave net.new) (C.ticks clock.new)) result }

    // A report is strange only to an observer that finds some report strange: never to a printer.
    ensures some_strange { OnStrange result (SomeStrange O.strange) }

    // A fault of reading, of the net or of writing comes only where that count rose, and then always.
    ensures ends { AreSameEnds S.faults N.faults O.faults S.is_same O.is_same source.old source.new net.old net.new
        observer.old observer.new result }
{
    let node: Node<H> = open_node(alloc, source, net, boxes, observer)?;
    let Node {
        setup,
        mut reader,
        mut hosts,
        locals,
    } = node;
    let mut ahead = NextCall::Unread;
    let mut now = 0;
    for done in 0..setup.turns {
        let n = done + 1;
        now = clock.now();
        clock_stands(&mut hosts, n, now, observer)?;
        starts(
            alloc,
            &mut reader,
            &setup,
            &mut ahead,
            &mut hosts,
            source,
            net,
            observer,
        )?;
        hosts_act(alloc, &mut hosts, &locals, net, observer)?;
        if setup.end <= now {
            return Ok(n);
        }
    }
    Err(NodeStop::Stalled {
        turns: setup.turns,
        now,
    })
}
