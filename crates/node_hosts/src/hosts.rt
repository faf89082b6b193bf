// The hosts of a node.
use crate::NodeParts;
use homa_node::OpenHosts;
use homa_plain::{Entry, HostId, Settings, StartFault};
use homa_service::Service;
use host_view::Outbox;
use node_turns::LoopHosts;
use std::alloc::{AllocError, Global};
use std::marker::Model;

/// The hosts of a node with their boxes.
#[derive(Drop)]
pub struct NodeHosts<S: Service> {
    parts: NodeParts<S>,
}

impl<S: Service> Model for NodeHosts<S> {
    ghost use Rattle.node_hosts.specs.declared.parts.NodeParts.{NodeParts};
    ghost use Rattle.node_hosts.specs.Standing.{IsKept};

    ghost Value = { NodeParts S };

    ghost view = { λ n. n.parts };

    ghost invariant = { λ n. IsKept S.served n.parts };
}

impl<S: Service> LoopHosts for NodeHosts<S> {
    ghost use Rattle.host_table.specs.Staged.{frames_of};
    ghost use Rattle.node_hosts.specs.Standing.{StandsFor, told_of, may_tell_of};
    ghost use Rattle.node_hosts.specs.Comings.{comes, turns};

    ghost stands = { λ n. StandsFor n };

    ghost settings = { λ n. n.settings };

    ghost clock = { λ n. n.clock };

    ghost steps = { λ n. n.steps };

    ghost told = { λ n. told_of n };

    ghost frames = { λ n. frames_of n.stage };

    ghost allows = { λ n. may_tell_of S.served S.allows n };

    fn now(&self) -> u64 {
        self.parts.clock
    }

    fn stand_at(&mut self, now: u64) {
        self.parts.stand_at(now);
    }

    #[tactic(auto, using(crate::proofs::StepLaws::own_told))]
    fn call(
        &mut self,
        alloc: Global,
        client: HostId,
        server: HostId,
        number: u8,
        request: &[u8],
    ) -> Result<Result<(), StartFault>, AllocError> {
        self.parts.call(alloc, client, server, number, request)
    }

    #[tactic(auto, using(crate::proofs::StepLaws::own_told))]
    fn hear(
        &mut self,
        alloc: Global,
        host: HostId,
        from: HostId,
        bytes: &[u8],
    ) -> Result<(), AllocError> {
        self.parts.hear(alloc, host, from, bytes)
    }

    #[tactic(auto, using(crate::proofs::StepLaws::own_told))]
    fn turn(&mut self, host: HostId) {
        self.parts.turn(host);
    }

    fn entries(&self) -> usize {
        self.parts.entries()
    }

    fn entry(&self, i: usize) -> Entry<'_> {
        self.parts.entry(i)
    }

    fn outbox(&self) -> &Outbox {
        self.parts.stage.outbox()
    }

    ghost allows_none = { λ n. tt };

    ghost allows_recv = { λ n host from bytes. (tt, tt) };

    ghost allows_clock = { λ n now told allowed. (tt, allowed) };

    ghost comes = { λ n w stood host a there later. comes n w stood host there later a };

    ghost turns = { λ n w stood host there later. turns n w stood host there later };
}

impl<S: Service> OpenHosts<Vec<S>> for NodeHosts<S> {
    ghost use Rattle.box_laws.specs.First.{AreAllowed, AreReady};
    ghost use Rattle.box_laws.specs.Unasked.{unasked_allowed};

    ghost are_ready = { λ boxes. AreReady S.served boxes.items };

    ghost are_allowed = { λ boxes. AreAllowed S.served S.allows boxes.items };

    fn open_in(
        alloc: Global,
        s: &Settings,
        incs: &[u32],
        boxes: Vec<S>,
    ) -> Result<NodeHosts<S>, AllocError> {
        Ok(NodeHosts {
            parts: NodeParts::open_in(alloc, s, incs, boxes)?,
        })
    }

    ghost unasked = { λ boxes told none. unasked_allowed S.served S.allows boxes.items told none };
}
