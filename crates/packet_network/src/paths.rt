// Where packets are, and how they go on.
ghost use Rattle.std.specs.Prelude.{◌≡◌, ◌≤◌, ◌<◌, ◌+◌, ◌^◌, length, map, replicate, IfOk, OnOk};
ghost use Rattle.packet_network.specs.Standing.{in_agenda};
ghost use Rattle.packet_network.specs.Outlets.{waiting_at_all};
ghost use Rattle.packet_network.specs.Censuses.{IsStill, no_fates};
ghost use Rattle.packet_network.specs.Measures.{no_bytes};
ghost use Rattle.packet_network.specs.States.{arrived, arriving};
ghost use Rattle.run_gauges.specs.Receivers.{known_of, nothing_known};

use crate::chance::chance_of;
use crate::event::{Begun, NetworkEvent, Place, Reached};
use crate::fates::Census;
use crate::flow::Flow;
use crate::measure::Down;
use crate::outlet::Outlet;
use crate::outlets::{begin_at, enter_at, open_all, restart_all};
use crate::packet::SimPacket;
use crate::stop::NetworkStop;
use experiment::{Card, Experiment, Network};
use network_parts::Agenda;
use run_gauges::{Receiver, SENDERS};
use std::alloc::{AllocError, Global};

/// What is due, the queues and links of each host, and what was sent to hosts. Each packet that is under way has something due, or
/// waits at a card or an output.
#[derive(Drop)]
pub(crate) struct PacketPaths {
    pub(crate) flow: Flow,
    pub(crate) cards: Vec<Outlet>,
    pub(crate) outputs: Vec<Outlet>,
    pub(crate) down: Down,
    pub(crate) network: Network,
    pub(crate) seed: u64,
    ghost all_cards: { length cards.items ≡ 32 },
    ghost all_outputs: { length outputs.items ≡ 32 },
    ghost counted: { flow.census.under_way ≡ in_agenda flow.agenda.dues + (waiting_at_all cards.items + waiting_at_all outputs.items) },
}

// As many receivers, which grant to so many senders at a time.
#[tactic(auto, using(crate::proofs::ReceiverLaws::one_receiver_more))]
fn receivers(alloc: Global, overcommit: u32) -> Result<Vec<Receiver>, AllocError>
    ensures all { IfOk result (λ rs. length rs.items ≡ 32) }
    ensures known { IfOk result (λ rs. map known_of rs.items ≡ replicate 32 (nothing_known overcommit)) }
{
    let mut receivers = Vec::with_capacity(alloc, SENDERS)?;
    for _ in 0..SENDERS {
        receivers.push(Receiver::new(overcommit))?;
    }
    Ok(receivers)
}

// Spans are counted anew at all of these.
fn restart_spans(receivers: &mut [Receiver], now: u64) {
    for receiver in receivers.iter_mut() {
        receiver.restart(now);
    }
}

impl PacketPaths {
    ghost use Rattle.packet_network.specs.Paths.{IsAsGiven, IsLossless};
    ghost use Rattle.packet_network.specs.Agendas.{nothing_due, IsInOrder, IsNoTask};

    /// Nothing is due, and nothing under way.
    pub(crate) fn open(
        alloc: Global,
        experiment: &Experiment,
        seed: u64,
    ) -> Result<PacketPaths, AllocError>
        ensures moment { IfOk result (λ f. f.flow.agenda.moment ≡ 0) }
        ensures fates { IfOk result (λ f. f.flow.census.fates ≡ no_fates) }
        ensures under_way { IfOk result (λ f. f.flow.census.under_way ≡ 0) }
        ensures loss { IfOk result (λ f. f.network.loss ≡ experiment.now.network.loss) }
        ensures repeat { IfOk result (λ f. f.network.repeat ≡ experiment.now.network.repeat) }
        ensures agenda { IfOk result (λ f. f.flow.agenda ≡ nothing_due) }
        ensures receivers { IfOk result (λ f. map known_of f.flow.receivers.items ≡ replicate 32 (nothing_known experiment.now.settings.overcommit)) }
        ensures down { IfOk result (λ f. f.down ≡ no_bytes) }
    {
        let network = experiment.network;
        let flow = Flow {
            agenda: Agenda::new(alloc),
            receivers: receivers(alloc, experiment.settings.overcommit)?,
            census: Census::new(),
        };
        Ok(PacketPaths {
            flow,
            cards: open_all(alloc, &network, network.card, u64::MAX)?,
            outputs: open_all(alloc, &network, Card::Levels, u64::from(network.buffer))?,
            down: Down::new(),
            network,
            seed,
        })
    }

    /// A packet comes to its sender's card. If the card's link is free the next packet there begins, which is told.
    pub(crate) fn send(&mut self, packet: SimPacket) -> Result<Option<Begun>, NetworkStop>
        ensures sent { OnOk result (self.new.flow.census.fates.sent ≡ self.old.flow.census.fates.sent + 1) }
        ensures at_most_one { self.new.flow.census.fates.sent ≤ self.old.flow.census.fates.sent + 1 }
        ensures delivered { self.new.flow.census.fates.delivered ≡ self.old.flow.census.fates.delivered }
        ensures old { self.new.flow.census.fates.old ≡ self.old.flow.census.fates.old }
        ensures moment { self.new.flow.agenda.moment ≡ self.old.flow.agenda.moment }
        ensures lossless { OnOk result (IsLossless self.old self.new) }
        ensures given { IsAsGiven self.old self.new }
    {
        let now = self.flow.in_time()?;
        let place = packet.sender();
        let fits = enter_at(self.cards.as_mut_slice(), place, now, packet)?;
        self.flow.send(&packet);
        if fits {
            return self.begin_at_card(place);
        }
        self.flow.refuse(&packet);
        Ok(None)
    }

    // A card sends its next packet, if its link is free.
    fn begin_at_card(&mut self, place: Place) -> Result<Option<Begun>, NetworkStop>
        requires entered { self.old.flow.agenda.count < 2 ^ 62 }
        requires repeated { self.old.flow.census.fates.repeated < 2 ^ 62 }
        ensures still { IsStill self.old.flow.census.fates self.new.flow.census.fates }
        ensures moment { self.new.flow.agenda.moment ≡ self.old.flow.agenda.moment }
        ensures lossless { OnOk result (IsLossless self.old self.new) }
        ensures given { IsAsGiven self.old self.new }
    {
        let now = self.flow.agenda.now();
        let Some((packet, passage)) = begin_at(self.cards.as_mut_slice(), place, now) else {
            return Ok(None);
        };
        let chance = chance_of(self.seed, packet.name, &self.network);
        self.flow
            .leave_card(place, &packet, passage, &self.network, chance)?;
        Ok(Some(packet.begun(place, now)))
    }

    // An output sends its next packet, if its link is free.
    fn begin_at_output(&mut self, place: Place) -> Result<Reached, NetworkStop>
        requires { self.old.flow.agenda.count < 2 ^ 62 }
        ensures still { IsStill self.old.flow.census.fates self.new.flow.census.fates }
        ensures moment { self.new.flow.agenda.moment ≡ self.old.flow.agenda.moment }
        ensures lossless { OnOk result (IsLossless self.old self.new) }
        ensures given { IsAsGiven self.old self.new }
        ensures none { IfOk result (λ reached. arriving reached ≡ 0) }
        ensures no_task { IfOk result (λ reached. IsNoTask reached) }
    {
        let now = self.flow.agenda.now();
        let Some((packet, passage)) = begin_at(self.outputs.as_mut_slice(), place, now) else {
            if self.outputs[place.host as usize].is_free(now) {
                self.flow.set_taken(place, false);
            }
            return Ok(Reached::Nothing);
        };
        self.down.passes(packet.cause, u64::from(packet.bytes));
        self.flow
            .leave_output(place, &packet, passage, &self.network)?;
        Ok(Reached::Output(packet.begun(place, now)))
    }

    /// What happens next, or none where nothing is due.
    #[tactic(auto, using(crate::proofs::OrderLaws::no_task))]
    pub(crate) fn next(&mut self) -> Result<Option<Reached>, NetworkStop>
        ensures sent { self.new.flow.census.fates.sent ≡ self.old.flow.census.fates.sent }
        ensures arrived { IfOk result (λ r. self.new.flow.census.fates.delivered ≡ self.old.flow.census.fates.delivered + arrived r) }
        ensures in_order { IfOk result (λ r. IsInOrder r self.old.flow.agenda self.new.flow.agenda) }
        ensures old { self.new.flow.census.fates.old ≡ self.old.flow.census.fates.old }
        ensures forth { self.old.flow.agenda.moment ≤ self.new.flow.agenda.moment }
        ensures lossless { OnOk result (IsLossless self.old self.new) }
        ensures given { IsAsGiven self.old self.new }
    {
        self.flow.in_time()?;
        let Some(event) = self.flow.next() else {
            return Ok(None);
        };
        let reached = match event {
            NetworkEvent::Task(task) => Reached::Task(task),
            NetworkEvent::CardFree(place) => match self.begin_at_card(place)? {
                Some(begun) => Reached::Card(begun),
                None => Reached::Nothing,
            },
            NetworkEvent::OutputFree(place) => self.begin_at_output(place)?,
            NetworkEvent::AtSwitch(packet) => {
                let place = packet.receiver();
                let waits = self.flow.reach(self.outputs.as_mut_slice(), &packet)?;
                if waits {
                    self.begin_at_output(place)?
                } else {
                    Reached::Nothing
                }
            }
            NetworkEvent::AtHost(packet) => {
                self.flow.deliver(&packet);
                Reached::AtHost(packet)
            }
        };
        Ok(Some(reached))
    }

    /// Counting begins anew.
    pub(crate) fn restart(&mut self)
        ensures agenda { self.new.flow.agenda ≡ self.old.flow.agenda }
        ensures census { self.new.flow.census ≡ self.old.flow.census }
        ensures cards { waiting_at_all self.new.cards.items ≡ waiting_at_all self.old.cards.items }
        ensures outputs { waiting_at_all self.new.outputs.items ≡ waiting_at_all self.old.outputs.items }
        ensures down { self.new.down ≡ no_bytes }
        ensures given { IsAsGiven self.old self.new }
    {
        let now = self.flow.agenda.now();
        restart_all(self.cards.as_mut_slice(), now);
        restart_all(self.outputs.as_mut_slice(), now);
        restart_spans(self.flow.receivers.as_mut_slice(), now);
        self.down = Down::new();
    }
}
