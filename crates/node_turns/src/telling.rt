// What a step left goes out: its frames to the net, and then its entries to the observer.
ghost use Rattle.std.specs.Prelude.{◌≡◌, ◌≤◌, map, OnOk, OnErr};
ghost use Rattle.homa_io.specs.Outside.{HasRisen};
ghost use Rattle.node_io.specs.Observer.{OnWrite, UnlessWrite, OnStranger};
ghost use Rattle.node_runs.specs.Course.{Tells};
ghost use Rattle.node_turns.specs.Told.{listed, ListedFront, AreTold, AreFront};
ghost use Rattle.node_turns.specs.Acting.{frame_datagram, frame_act};

use crate::LoopHosts;
use node_io::{Net, NetFailed, Observer, SeenFault};

/// Sends the frames of the last step, in order.
pub fn send_frames<H: LoopHosts, N: Net>(hosts: &H, net: &mut N) -> Result<(), NetFailed>
    ensures ok { OnOk result (N.sent net.new ≡ listed (N.sent net.old) (map frame_datagram (H.frames hosts.now))) }
    ensures err { OnErr result (ListedFront (N.sent net.old) (N.sent net.new) (map frame_datagram (H.frames hosts.now))) }
    ensures acts { OnOk result (N.acts net.new ≡ listed (N.acts net.old) (map frame_act (H.frames hosts.now))) }
    ensures err_acts { OnErr result (ListedFront (N.acts net.old) (N.acts net.new) (map frame_act (H.frames hosts.now))) }
    ensures gave { N.gave net.new ≡ N.gave net.old }
    ensures known { N.known net.new ≡ N.known net.old }
    ensures risen { OnErr result (HasRisen (N.faults net.old) (N.faults net.new)) }
    ensures quiet { OnOk result (N.faults net.new ≡ N.faults net.old) }
    ensures never_falls { N.faults net.old ≤ N.faults net.new }
{
    let outbox = hosts.outbox();
    for i in 0..outbox.len() {
        net.send(outbox.sender(i), outbox.receiver(i), outbox.bytes(i))?;
    }
    Ok(())
}

/// Tells the entries of the last step, in order. None is strange.
pub fn tell_entries<H: LoopHosts, O: Observer>(hosts: &H, observer: &mut O) -> Result<(), SeenFault>
    ensures ok { OnOk result (AreTold O.told O.kept O.strange (O.taken observer.old) (O.notes observer.old) (O.taken observer.new) (O.notes observer.new)
        (map Tells (H.told hosts.now))) }
    ensures err { OnErr result (AreFront O.told O.kept O.strange (O.taken observer.old) (O.notes observer.old) (O.taken observer.new)
        (map Tells (H.told hosts.now))) }
    ensures stranger { OnStranger result ⊥ }
    ensures risen { OnWrite result (HasRisen (O.faults observer.old) (O.faults observer.new)) }
    ensures quiet { UnlessWrite result (O.faults observer.new ≡ O.faults observer.old) }
    ensures never_falls { O.faults observer.old ≤ O.faults observer.new }
    ensures same { O.is_same observer.old observer.new }
{
    for i in 0..hosts.entries() {
        observer.seen(&hosts.entry(i))?;
    }
    Ok(())
}
