//! A network as its user sees it.
ghost use Rattle.std.specs.Prelude.{◌≡◌, ◌≤◌, ◌<◌, ◌+◌, replicate, IfOk, IfSome, OnOk, OnErr, slice_get};
ghost use Rattle.packet_network.specs.Censuses.{IsConserved, no_fates};
ghost use Rattle.packet_network.specs.Measures.{waits_of, level_of, bytes_at, taken_to, no_bytes};
ghost use Rattle.packet_network.specs.States.{arrived, at_receiver};
ghost use Rattle.run_gauges.specs.Receivers.{nothing_known, times_of, times_to, opens, closes, begins, completes};

use crate::event::{Begun, NetworkEvent, Reached, Task};
use crate::fates::Fates;
use crate::measure::{Down, Level, Waits};
use crate::outlets::{all_waits, level_of_all};
use crate::packet::SimPacket;
use crate::paths::PacketPaths;
use crate::stop::NetworkStop;
use experiment::Experiment;
use homa_plain::HostId;
use run_gauges::Spans;
use std::alloc::{AllocError, Global};
use std::marker::Model;

/// A network of up to 32 hosts: what is due, the queues and links of each host, what is known of each receiver, and what became of
/// packets.
#[derive(Drop)]
pub struct PacketNetwork {
    paths: PacketPaths,
}

impl Model for PacketNetwork {
    ghost use Rattle.packet_network.specs.States.{WholeNetwork};

    ghost Value = { WholeNetwork };

    ghost use Rattle.packet_network.specs.Networks.{whole_of};

    ghost view = { whole_of };
}

impl PacketNetwork {
    ghost use Rattle.packet_network.specs.States.{IsLossless, IsAsGiven};
    ghost use Rattle.packet_network.specs.Agendas.{IsEntered, IsInOrder, nothing_due};

    /// The network of an experiment, in the run of a seed: nothing is due, and nothing under way.
    pub fn open(
        alloc: Global,
        experiment: &Experiment,
        seed: u64,
    ) -> Result<PacketNetwork, AllocError>
        ensures moment { IfOk result (λ n. n.state.moment ≡ 0) }
        ensures fates { IfOk result (λ n. n.state.fates ≡ no_fates) }
        ensures under_way { IfOk result (λ n. n.state.under_way ≡ 0) }
        ensures loss { IfOk result (λ n. n.state.loss ≡ experiment.now.network.loss) }
        ensures repeat { IfOk result (λ n. n.state.repeat ≡ experiment.now.network.repeat) }
        ensures down { IfOk result (λ n. n.state.down ≡ no_bytes) }
        ensures agenda { IfOk result (λ n. n.agenda ≡ nothing_due) }
        ensures receivers { IfOk result (λ n. n.receivers ≡ replicate 32 (nothing_known experiment.now.settings.overcommit)) }
    {
        let paths = PacketPaths::open(alloc, experiment, seed)?;
        Ok(PacketNetwork { paths })
    }

    /// The moment of what came last.
    pub fn now(&self) -> u64
        ensures { result ≡ self.now.state.moment }
    {
        self.paths.flow.agenda.now()
    }

    /// A task is due at a moment, or now where that is over.
    pub fn enter(&mut self, at: u64, task: Task) -> Result<(), NetworkStop>
        ensures entered { OnOk result (IsEntered at task self.old.agenda self.new.agenda) }
        ensures refused { OnErr result (self.new.agenda ≡ self.old.agenda) }
        ensures state { self.new.state ≡ self.old.state }
        ensures receivers { self.new.receivers ≡ self.old.receivers }
    {
        self.paths.flow.enter(at, task)
    }

    /// A packet comes to its sender's card. If the card's link is free the next packet there begins, which is told. Where it fails
    /// the packet may have been sent, and a packet that began is lost.
    pub fn send(&mut self, packet: SimPacket) -> Result<Option<Begun>, NetworkStop>
        ensures sent { OnOk result (self.new.state.fates.sent ≡ self.old.state.fates.sent + 1) }
        ensures at_most_one { self.new.state.fates.sent ≤ self.old.state.fates.sent + 1 }
        ensures delivered { self.new.state.fates.delivered ≡ self.old.state.fates.delivered }
        ensures old { self.new.state.fates.old ≡ self.old.state.fates.old }
        ensures moment { self.new.state.moment ≡ self.old.state.moment }
        ensures lossless { OnOk result (IsLossless self.old.state self.new.state) }
        ensures given { IsAsGiven self.old.state self.new.state }
    {
        self.paths.send(packet)
    }

    /// What happens next, or none where nothing is due. Where memory runs out a packet that was to go on is lost.
    pub fn next(&mut self) -> Result<Option<Reached>, NetworkStop>
        ensures sent { self.new.state.fates.sent ≡ self.old.state.fates.sent }
        ensures arrived { IfOk result (λ r. self.new.state.fates.delivered ≡ self.old.state.fates.delivered + arrived r) }
        ensures old { self.new.state.fates.old ≡ self.old.state.fates.old }
        ensures in_order { IfOk result (λ r. IsInOrder r self.old.agenda self.new.agenda) }
        ensures forth { self.old.state.moment ≤ self.new.state.moment }
        ensures lossless { OnOk result (IsLossless self.old.state self.new.state) }
        ensures given { IsAsGiven self.old.state self.new.state }
    {
        self.paths.next()
    }

    /// The packet that was told last to be at its host was too old: it doesn't count as delivered.
    pub fn was_too_old(&mut self)
        ensures aged { 0 < self.old.state.fates.delivered → self.new.state.fates.old ≡ self.old.state.fates.old + 1 }
        ensures both { self.new.state.fates.delivered + self.new.state.fates.old ≡ self.old.state.fates.delivered + self.old.state.fates.old }
        ensures sent { self.new.state.fates.sent ≡ self.old.state.fates.sent }
        ensures under_way { self.new.state.under_way ≡ self.old.state.under_way }
        ensures moment { self.new.state.moment ≡ self.old.state.moment }
        ensures given { IsAsGiven self.old.state self.new.state }
        ensures agenda { self.new.agenda ≡ self.old.agenda }
        ensures receivers { self.new.receivers ≡ self.old.receivers }
    {
        self.paths.flow.age();
    }

    /// How many bytes wait at a host's card.
    pub fn card_bytes(&self, host: HostId) -> u64
        requires { host.0 < 32 }
        ensures { IfSome (slice_get self.now.state.cards host.0) (λ card. result ≡ bytes_at card) }
    {
        self.paths.cards[host.0 as usize].bytes()
    }

    /// What became of packets from the beginning on.
    pub fn fates(&self) -> Fates
        ensures value { result ≡ self.now.state.fates }
        ensures conserved { IsConserved result self.now.state.under_way }
    {
        self.paths.flow.census.fates
    }

    /// How many packets are under way.
    pub fn under_way(&self) -> u64
        ensures { result ≡ self.now.state.under_way }
    {
        self.paths.flow.census.under_way
    }

    /// One more message to a receiver has bytes that aren't granted.
    pub fn opens(&mut self, host: HostId)
        requires { host.0 < 32 }
        ensures state { self.new.state ≡ self.old.state }
        ensures agenda { self.new.agenda ≡ self.old.agenda }
        ensures receivers { self.new.receivers ≡ at_receiver host.0 (opens self.old.state.moment) self.old.receivers }
    {
        self.paths.flow.receivers[host.0 as usize].opens(self.paths.flow.agenda.now());
    }

    /// One message less has such bytes.
    pub fn closes(&mut self, host: HostId)
        requires { host.0 < 32 }
        ensures state { self.new.state ≡ self.old.state }
        ensures agenda { self.new.agenda ≡ self.old.agenda }
        ensures receivers { self.new.receivers ≡ at_receiver host.0 (closes self.old.state.moment) self.old.receivers }
    {
        self.paths.flow.receivers[host.0 as usize].closes(self.paths.flow.agenda.now());
    }

    /// The first piece of a sender's message came to a receiver.
    pub fn begins(&mut self, host: HostId, sender: HostId)
        requires host { host.0 < 32 }
        requires sender { sender.0 < 32 }
        ensures state { self.new.state ≡ self.old.state }
        ensures agenda { self.new.agenda ≡ self.old.agenda }
        ensures receivers { self.new.receivers ≡ at_receiver host.0 (begins self.old.state.moment sender.0) self.old.receivers }
    {
        self.paths.flow.receivers[host.0 as usize].begins(
            self.paths.flow.agenda.now(),
            sender.0 as usize,
        );
    }

    /// A sender's message of which a piece came is whole, or given up.
    pub fn completes(&mut self, host: HostId, sender: HostId)
        requires host { host.0 < 32 }
        requires sender { sender.0 < 32 }
        ensures state { self.new.state ≡ self.old.state }
        ensures agenda { self.new.agenda ≡ self.old.agenda }
        ensures receivers { self.new.receivers ≡ at_receiver host.0 (completes self.old.state.moment sender.0) self.old.receivers }
    {
        self.paths.flow.receivers[host.0 as usize].completes(
            self.paths.flow.agenda.now(),
            sender.0 as usize,
        );
    }

    /// How a receiver's link was used up to now, since counting began anew.
    pub fn spans(&self, host: HostId) -> Spans
        requires { host.0 < 32 }
        ensures times { IfSome (slice_get self.now.receivers host.0) (λ known. times_of result ≡ times_to self.now.state.moment known) }
        ensures later { self.now.state.moment ≤ result.since }
    {
        self.paths.flow.receivers[host.0 as usize].spans_at(self.paths.flow.agenda.now())
    }

    /// For how long the link of a host's card was taken up to now, since counting began anew.
    pub fn card_taken(&self, host: HostId) -> u64
        requires { host.0 < 32 }
        ensures value { IfSome (slice_get self.now.state.cards host.0) (λ card. result ≡ taken_to self.now.state.moment card) }
        ensures within { result ≤ self.now.state.moment }
    {
        self.paths.cards[host.0 as usize].taken(self.paths.flow.agenda.now())
    }

    /// How packets waited at cards up to now, since counting began anew.
    pub fn cards(&self) -> Waits
        ensures { result ≡ waits_of self.now.state.moment self.now.state.cards }
    {
        all_waits(self.paths.cards.as_slice(), self.paths.flow.agenda.now())
    }

    /// How packets waited at the switch's outputs up to now, since counting began anew.
    pub fn outputs(&self) -> Waits
        ensures { result ≡ waits_of self.now.state.moment self.now.state.outputs }
    {
        all_waits(self.paths.outputs.as_slice(), self.paths.flow.agenda.now())
    }

    /// What waited and passed at a level of the switch's outputs up to now, since counting began anew.
    pub fn level(&self, level: usize) -> Level
        requires { level < 8 }
        ensures { result ≡ level_of self.now.state.moment level self.now.state.outputs }
    {
        level_of_all(
            self.paths.outputs.as_slice(),
            level,
            self.paths.flow.agenda.now(),
        )
    }

    /// The bytes that outputs began to send since counting began anew, by why they were sent.
    pub fn down(&self) -> Down
        ensures { result ≡ self.now.state.down }
    {
        self.paths.down
    }

    /// Counting begins anew: from now on gauges, spans, waits and bytes are those of what comes. Fates go on.
    pub fn restart(&mut self)
        ensures moment { self.new.state.moment ≡ self.old.state.moment }
        ensures fates { self.new.state.fates ≡ self.old.state.fates }
        ensures under_way { self.new.state.under_way ≡ self.old.state.under_way }
        ensures down { self.new.state.down ≡ no_bytes }
        ensures given { IsAsGiven self.old.state self.new.state }
    {
        self.paths.restart();
    }
}
