// Services whose answers are known to be such as each service gives.
ghost use Rattle.std.specs.Prelude.{◌≡◌, map, IfOk};
ghost use Rattle.homa_plain.specs.Bytes.{IsBytes};

use crate::NodeHosts;
use homa_node::OpenHosts;
use homa_plain::Settings;
use homa_service::{Reply, Service};
use std::alloc::{AllocError, Global};

/// A service that allows what the one in it allows, where the answer has 1 to 1,000,000 bytes and is held back for at most
/// 1,000,000 ticks. It answers as that one, and has served what that one has.
#[derive(Drop)]
pub struct Fair<V: Service> {
    pub service: V,
}

impl<V: Service> Fair<V> {
    /// Each of these services as a fair one.
    pub fn each(alloc: Global, services: Vec<V>) -> Result<Vec<Fair<V>>, AllocError>
        ensures { IfOk result (λ fair. fair.items ≡ map (λ v. record { service = v }) services.items) }
    {
        let mut fair = Vec::with_capacity(alloc, services.len())?;
        for service in services {
            fair.push(Fair { service })?;
        }
        Ok(fair)
    }
}

// Whatever a service answered, each is below 256; the caller knows it then.
fn know_bytes(bytes: &[u8])
    ensures { IsBytes bytes.now }
{
    // For the proof: each byte is below 256.
    let _len = bytes.len();
}

impl<V: Service> Service for Fair<V> {
    ghost use Rattle.node_runs.specs.Replayed.{IsAnswer};

    ghost served = { λ fair. V.served fair.service };

    ghost allows = { λ fair count number q r hold.
        V.allows fair.service count number q r hold × IsAnswer (record { bytes = r; hold = hold }) };

    fn serve(&mut self, alloc: Global, number: u8, request: &[u8]) -> Result<Reply, AllocError> {
        let reply = self.service.serve(alloc, number, request)?;
        know_bytes(reply.bytes());
        Ok(reply)
    }
}

impl<V: Service> OpenHosts<Vec<V>> for NodeHosts<Fair<V>> {
    ghost use Rattle.box_laws.specs.First.{AreReady};
    ghost use Rattle.node_hosts.specs.Fair.{AreFairlyAllowed};
    ghost use Rattle.node_hosts.specs.Fair.{unasked_fair};

    ghost are_ready = { λ boxes. AreReady V.served boxes.items };

    ghost are_allowed = { λ boxes. AreFairlyAllowed V.served V.allows boxes.items };

    fn open_in(
        alloc: Global,
        s: &Settings,
        incs: &[u32],
        boxes: Vec<V>,
    ) -> Result<NodeHosts<Fair<V>>, AllocError> {
        let boxes = Fair::each(alloc, boxes)?;
        <NodeHosts<Fair<V>> as OpenHosts<Vec<Fair<V>>>>::open_in(alloc, s, incs, boxes)
    }

    ghost unasked = { λ boxes told none. unasked_fair V.served V.allows boxes.items told none };
}
