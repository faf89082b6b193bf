// A node is opened: its script is read up to `go`, the net learns where the hosts are, and the settings are told.
ghost use Rattle.std.specs.Prelude.{◌≡◌, ℕ, Option, List, Some, Err, false, nat_lt, length, IfOk, IfErr};
ghost use Rattle.homa_plain.specs.declared.id.HostId.{HostId as Host};
ghost use Rattle.node_runs.specs.Course.{loop_turns, node_run};
ghost use Rattle.node_runs.specs.Acts.{connects, opened_acts};
ghost use Rattle.node_runs.specs.Script.{opening};
ghost use Rattle.homa_plain.specs.Script.{most_bytes};
ghost use Rattle.node_turns.specs.Told.{listed};
ghost use Rattle.node_turns.specs.Acting.{OnStrange};
ghost use Rattle.node_turns.specs.Faults.{counts, AreFaults};
ghost use Rattle.script_lines.specs.Place.{first_place, IsCounted};
ghost use Rattle.node_script.specs.Heads.{IsSound, setup_seen};
ghost use Rattle.node_script.specs.Calls.{calls_left};
ghost use Rattle.homa_node.specs.Ends.{AreSameEnds};
ghost use Rattle.homa_node.specs.Served.{outside, HasServed};
ghost use Rattle.homa_node.specs.Progress.{IsAt};
ghost use Rattle.homa_node.specs.Opened.{HasOpened, StandsAtGo, opening_stop};

use crate::OpenHosts;
use crate::places::{connect, first_incs, locals};
use homa_io::Source;
use homa_plain::{Entry, HostId, LONGEST_INPUT};
use node_io::{Net, Observer};
use node_script::{Reader, Setup, SetupStop};
use node_turns::NodeStop;
use std::alloc::Global;

/// A node that was opened: what it is to do, the reader of its calls, its hosts, and which of them are its own.
#[derive(Drop)]
pub struct Node<H> {
    pub setup: Setup,
    pub reader: Reader,
    pub hosts: H,
    pub locals: Vec<HostId>,
}

// Why the lines up to `go` give no setup.
fn stop_at(line: u64, stop: SetupStop) -> NodeStop
    ensures { result ≡ opening_stop line stop }
{
    match stop {
        SetupStop::NoMemory => NodeStop::NoMemory,
        SetupStop::Read(_) => NodeStop::Read,
        SetupStop::Fault(fault) => NodeStop::Script { line, fault },
    }
}

/// Reads up to `go`.
pub fn read_setup<S: Source>(
    alloc: Global,
    reader: &mut Reader,
    source: &mut S,
) -> Result<Setup, NodeStop>
    requires counted { IsCounted reader.old.place }
    requires first { reader.old.place ≡ first_place reader.old.place.limit }
    ensures opened { (bytes : List ℕ) → S.left source.old ≡ Some bytes → HasOpened reader.old.place.limit reader.new.place bytes (S.left source.new) result }
    ensures never_strange { OnStrange result ⊥ }
    ensures sound { IfOk result IsSound }
    ensures counted { IfOk result (λ setup. IsCounted reader.new.place) }
    ensures limit { reader.new.place.limit ≡ reader.old.place.limit }
    ensures least { reader.new.least ≡ reader.old.least }
    ensures faults { AreFaults (counts (S.faults source.old) 0 0) (counts (S.faults source.new) 0 0) result }
    ensures same { S.is_same source.old source.new }
{
    match reader.setup(alloc, source) {
        Ok(setup) => Ok(setup),
        Err(stop) => Err(stop_at(reader.line(), stop)),
    }
}

/// Opens a node.
pub fn open_node<B: Drop, H: OpenHosts<B> + Drop, S: Source, N: Net, O: Observer>(
    alloc: Global,
    source: &mut S,
    net: &mut N,
    boxes: B,
    observer: &mut O,
) -> Result<Node<H>, NodeStop>
    requires ready { H.are_ready boxes }
    requires none_known { (h : Host) → N.known net.old h ≡ false }

    // The run goes on with its first loop turn, or has stopped.
    ensures opened { IfOk result (λ node. (bytes : List ℕ) (ticks : Option (List ℕ)) → S.left source.old ≡ Some bytes
        → IsAt node_run O.told O.kept O.strange (H.are_allowed boxes) bytes (S.left source.new)
        (outside (O.taken observer.old) (O.notes observer.old) (listed (N.acts net.old) (connects (setup_seen node.setup).places))
        (N.sent net.old) (N.gave net.old) ticks)
        (outside (O.taken observer.new) (O.notes observer.new) (N.acts net.new) (N.sent net.new) (N.gave net.new) ticks)
        (setup_seen node.setup) (H.stands node.hosts) (H.allows node.hosts) 0 (calls_left (setup_seen node.setup) node.reader.least node.reader.place)
        (loop_turns (setup_seen node.setup) 1)) }
    ensures stopped { IfErr result (λ stop. (bytes : List ℕ) (ticks : Option (List ℕ)) → S.left source.old ≡ Some bytes
        → HasServed node_run O.told O.kept O.strange (H.are_allowed boxes) bytes (S.left source.new)
        (outside (O.taken observer.old) (O.notes observer.old) (N.acts net.old) (N.sent net.old) (N.gave net.old) ticks)
        (outside (O.taken observer.new) (O.notes observer.new) (N.acts net.new) (N.sent net.new) (N.gave net.new) ticks) (Err stop)) }
    ensures opens { IfOk result (λ node. (bytes : List ℕ) → S.left source.old ≡ Some bytes
        → opened_acts (opening most_bytes bytes) ≡ connects (setup_seen node.setup).places) }

    ensures never_strange { OnStrange result ⊥ }
    ensures sound { IfOk result (λ node. IsSound node.setup) }
    ensures at_go { IfOk result (StandsAtGo H.settings H.clock H.steps) }
    ensures known { IfOk result (λ node. (h : Host) → N.known net.new h ≡ nat_lt h.0 (length node.setup.places.items)) }
    ensures ends { AreSameEnds S.faults N.faults O.faults S.is_same O.is_same source.old source.new net.old net.new
        observer.old observer.new result }
{
    let mut reader = Reader::open(alloc, LONGEST_INPUT)?;
    let setup = read_setup(alloc, &mut reader, source)?;
    connect(net, &setup.places)?;
    observer.seen(&Entry::Settings(setup.settings))?;
    let ids = locals(alloc, &setup.places)?;
    let incs = first_incs(alloc, &setup.places)?;
    let hosts = H::open_in(alloc, &setup.settings, &incs, boxes)?;
    Ok(Node {
        setup,
        reader,
        hosts,
        locals: ids,
    })
}
