// What is due, and what became of packets.
ghost use Rattle.std.specs.Prelude.{◌≡◌, ◌≤◌, ◌<◌, ◌+◌, ◌^◌, [], length, true, false, None, Ok, IfOk, IfSome, OnOk, OnErr};
ghost use Rattle.packet_network.specs.Standing.{in_agenda, carried};
ghost use Rattle.packet_network.specs.Censuses.{one_sent, one_repeated, one_lost, one_refused, one_delivered, IsStill};

use crate::chance::Chance;
use crate::event::{NetworkEvent, Place, Task};
use crate::fates::Census;
use crate::outlet::Outlet;
use crate::outlets::enter_at;
use crate::packet::SimPacket;
use crate::stop::NetworkStop;
use experiment::Network;
use network_parts::{Agenda, Passage};
use run_gauges::Receiver;

/// What is due, what is known of each receiver, and what became of packets. Those that are under way and of which nothing is due
/// wait at a queue.
#[derive(Drop)]
pub(crate) struct Flow {
    pub(crate) agenda: Agenda<NetworkEvent>,
    pub(crate) receivers: Vec<Receiver>,
    pub(crate) census: Census,
    ghost all_receivers: { length receivers.items ≡ 32 },
    ghost due_within: { in_agenda agenda.dues ≤ census.under_way },
}

// Nothing is begun at a later moment, or after more entries.
const MOST: u64 = 1 << 62;

impl Flow {
    ghost use Rattle.packet_network.specs.Flows.{outside, IsInTime};
    ghost use Rattle.packet_network.specs.Agendas.{IsEntered, IsNext};
    ghost use Rattle.packet_network.specs.Outlets.{waiting_at_all};

    /// The moment of what came last, if the run may go on.
    pub(crate) fn in_time(&self) -> Result<u64, NetworkStop>
        ensures now { IfOk result (λ now. now ≡ self.now.agenda.moment) }
        ensures in_time { OnOk result (IsInTime self.now) }
    {
        let now = self.agenda.now();
        if now < MOST && self.agenda.entered() < MOST && self.census.has_room() {
            Ok(now)
        } else {
            Err(NetworkStop::TooLong)
        }
    }

    /// A task is due at a moment, or now where that is over.
    #[tactic(auto, using(crate::proofs::StandingLaws::one_due))]
    pub(crate) fn enter(&mut self, at: u64, task: Task) -> Result<(), NetworkStop>
        ensures entered { OnOk result (IsEntered at task self.old.agenda self.new.agenda) }
        ensures refused { OnErr result (self.new.agenda ≡ self.old.agenda) }
        ensures census { self.new.census ≡ self.old.census }
        ensures receivers { self.new.receivers ≡ self.old.receivers }
        ensures moment { self.new.agenda.moment ≡ self.old.agenda.moment }
        ensures packets { in_agenda self.new.agenda.dues ≡ in_agenda self.old.agenda.dues }
    {
        self.in_time()?;
        self.agenda.enter(at, NetworkEvent::Task(task))?;
        Ok(())
    }

    /// A packet that was at its host was too old, and is so counted, if any was delivered.
    pub(crate) fn age(&mut self)
        ensures aged { 0 < self.old.census.fates.delivered → self.new.census.fates.old ≡ self.old.census.fates.old + 1 }
        ensures both { self.new.census.fates.delivered + self.new.census.fates.old ≡ self.old.census.fates.delivered + self.old.census.fates.old }
        ensures sent { self.new.census.fates.sent ≡ self.old.census.fates.sent }
        ensures under_way { self.new.census.under_way ≡ self.old.census.under_way }
        ensures agenda { self.new.agenda ≡ self.old.agenda }
        ensures receivers { self.new.receivers ≡ self.old.receivers }
    {
        self.census.ages();
    }

    // A packet with bytes of a message is under way to its receiver.
    fn goes_to(&mut self, packet: &SimPacket)
        ensures agenda { self.new.agenda ≡ self.old.agenda }
        ensures census { self.new.census ≡ self.old.census }
    {
        if packet.piece.is_some() {
            self.receivers[packet.to.0 as usize].sends(self.agenda.now());
        }
    }

    // Such a packet no longer is.
    fn is_gone(&mut self, packet: &SimPacket)
        ensures agenda { self.new.agenda ≡ self.old.agenda }
        ensures census { self.new.census ≡ self.old.census }
    {
        if packet.piece.is_some() {
            self.receivers[packet.to.0 as usize].arrives(self.agenda.now());
        }
    }

    /// A packet was sent, and waits at a card.
    pub(crate) fn send(&mut self, packet: &SimPacket)
        requires { self.old.census.fates.sent < 2 ^ 62 }
        ensures fates { self.new.census.fates ≡ one_sent self.old.census.fates }
        ensures outside { outside self.new ≡ outside self.old + 1 }
        ensures agenda { self.new.agenda ≡ self.old.agenda }
    {
        self.census.sends();
        self.goes_to(packet);
    }

    /// A packet of which nothing is due is lost.
    pub(crate) fn lose(&mut self, packet: &SimPacket)
        requires { 0 < outside self.old }
        ensures fates { self.new.census.fates ≡ one_lost self.old.census.fates }
        ensures outside { outside self.new + 1 ≡ outside self.old }
        ensures agenda { self.new.agenda ≡ self.old.agenda }
    {
        self.census.loses();
        self.is_gone(packet);
    }

    /// A packet of which nothing is due has no room.
    pub(crate) fn refuse(&mut self, packet: &SimPacket)
        requires { 0 < outside self.old }
        ensures fates { self.new.census.fates ≡ one_refused self.old.census.fates }
        ensures outside { outside self.new + 1 ≡ outside self.old }
        ensures agenda { self.new.agenda ≡ self.old.agenda }
    {
        self.census.refuses();
        self.is_gone(packet);
    }

    /// A packet of which nothing is due is at its host.
    pub(crate) fn deliver(&mut self, packet: &SimPacket)
        requires { 0 < outside self.old }
        ensures fates { self.new.census.fates ≡ one_delivered self.old.census.fates }
        ensures outside { outside self.new + 1 ≡ outside self.old }
        ensures agenda { self.new.agenda ≡ self.old.agenda }
    {
        self.census.delivers();
        self.is_gone(packet);
    }

    /// A packet of which nothing was due is on its way until a moment, or lost where memory runs out.
    #[tactic(auto, using(crate::proofs::StandingLaws::one_due))]
    pub(crate) fn carry(
        &mut self,
        at: u64,
        packet: &SimPacket,
        event: NetworkEvent,
    ) -> Result<(), NetworkStop>
        requires carried { carried event ≡ 1 }
        requires outside { 0 < outside self.old }
        requires entered { self.old.agenda.count < 2 ^ 63 }
        ensures ok { OnOk result (self.new.census.fates ≡ self.old.census.fates) }
        ensures err { OnErr result (self.new.census.fates ≡ one_lost self.old.census.fates) }
        ensures outside { outside self.new + 1 ≡ outside self.old }
        ensures moment { self.new.agenda.moment ≡ self.old.agenda.moment }
    {
        if self.agenda.enter(at, event).is_err() {
            self.lose(packet);
            return Err(NetworkStop::NoMemory);
        }
        Ok(())
    }

    // Something without a packet is due at a moment.
    #[tactic(auto, using(crate::proofs::StandingLaws::one_due))]
    fn await_free(&mut self, at: u64, event: NetworkEvent) -> Result<(), NetworkStop>
        requires carried { carried event ≡ 0 }
        requires entered { self.old.agenda.count < 2 ^ 63 }
        ensures census { self.new.census ≡ self.old.census }
        ensures outside { outside self.new ≡ outside self.old }
        ensures moment { self.new.agenda.moment ≡ self.old.agenda.moment }
        ensures entered { self.new.agenda.count ≤ self.old.agenda.count + 1 }
    {
        self.agenda.enter(at, event)?;
        Ok(())
    }

    // A packet comes to the switch once more, at a moment.
    #[tactic(auto, using(crate::proofs::StandingLaws::one_due))]
    fn repeat(&mut self, at: u64, packet: &SimPacket) -> Result<(), NetworkStop>
        requires repeated { self.old.census.fates.repeated < 2 ^ 62 }
        requires entered { self.old.agenda.count < 2 ^ 63 }
        ensures ok { OnOk result (self.new.census.fates ≡ one_repeated self.old.census.fates) }
        ensures err { OnErr result (self.new.census.fates ≡ self.old.census.fates) }
        ensures outside { outside self.new ≡ outside self.old }
        ensures moment { self.new.agenda.moment ≡ self.old.agenda.moment }
        ensures entered { self.new.agenda.count ≤ self.old.agenda.count + 1 }
    {
        self.agenda.enter(at, NetworkEvent::AtSwitch(*packet))?;
        self.census.repeats();
        self.goes_to(packet);
        Ok(())
    }

    // A packet comes to the switch once more, at a moment, if it is repeated.
    fn repeat_if(
        &mut self,
        is_repeated: bool,
        at: u64,
        packet: &SimPacket,
    ) -> Result<(), NetworkStop>
        requires repeated { self.old.census.fates.repeated < 2 ^ 62 }
        requires entered { self.old.agenda.count < 2 ^ 63 }
        ensures still { IsStill self.old.census.fates self.new.census.fates }
        ensures lost { self.new.census.fates.lost ≡ self.old.census.fates.lost }
        ensures single { is_repeated ≡ false → self.new.census.fates.repeated ≡ self.old.census.fates.repeated }
        ensures outside { outside self.new ≡ outside self.old }
        ensures moment { self.new.agenda.moment ≡ self.old.agenda.moment }
        ensures entered { self.new.agenda.count ≤ self.old.agenda.count + 1 }
    {
        if is_repeated {
            self.repeat(at, packet)
        } else {
            Ok(())
        }
    }

    // A packet is on its way to the switch until a moment, unless it is lost.
    fn carry_unless(
        &mut self,
        is_lost: bool,
        at: u64,
        packet: &SimPacket,
    ) -> Result<(), NetworkStop>
        requires outside { 0 < outside self.old }
        requires entered { self.old.agenda.count < 2 ^ 63 }
        ensures still { IsStill self.old.census.fates self.new.census.fates }
        ensures kept { is_lost ≡ false → OnOk result (self.new.census.fates.lost ≡ self.old.census.fates.lost) }
        ensures repeated { self.new.census.fates.repeated ≡ self.old.census.fates.repeated }
        ensures outside { outside self.new + 1 ≡ outside self.old }
        ensures moment { self.new.agenda.moment ≡ self.old.agenda.moment }
    {
        if is_lost {
            self.lose(packet);
            Ok(())
        } else {
            self.carry(at, packet, NetworkEvent::AtSwitch(*packet))
        }
    }

    /// What is due next happens now: a packet that it has with it is under way without anything due.
    #[tactic(auto, using(crate::proofs::StandingLaws::one_happens))]
    pub(crate) fn next(&mut self) -> Option<NetworkEvent>
        ensures some { IfSome result (λ event. outside self.new ≡ outside self.old + carried event) }
        ensures none { result ≡ None → outside self.new ≡ outside self.old }
        ensures next { IfSome result (λ event. IsNext event self.old.agenda self.new.agenda) }
        ensures empty { result ≡ None → self.old.agenda.dues ≡ [] }
        ensures census { self.new.census ≡ self.old.census }
        ensures receivers { self.new.receivers ≡ self.old.receivers }
        ensures forth { self.old.agenda.moment ≤ self.new.agenda.moment }
        ensures entered { self.new.agenda.count ≡ self.old.agenda.count }
    {
        let due = self.agenda.next()?;
        Some(due.what)
    }

    /// A packet of which nothing is due comes to its output, and waits there; false where it has no room. It is lost where memory
    /// runs out.
    pub(crate) fn reach(
        &mut self,
        outputs: &mut [Outlet],
        packet: &SimPacket,
    ) -> Result<bool, NetworkStop>
        requires outside { 0 < outside self.old }
        requires all { length outputs.old ≡ 32 }
        ensures placed { outside self.new + (waiting_at_all outputs.old + 1) ≡ outside self.old + waiting_at_all outputs.new }
        ensures still { IsStill self.old.census.fates self.new.census.fates }
        ensures kept { OnOk result (self.new.census.fates.lost ≡ self.old.census.fates.lost) }
        ensures repeated { self.new.census.fates.repeated ≡ self.old.census.fates.repeated }
        ensures agenda { self.new.agenda ≡ self.old.agenda }
    {
        match enter_at(outputs, packet.receiver(), self.agenda.now(), *packet) {
            Ok(true) => Ok(true),
            Ok(false) => {
                self.refuse(packet);
                Ok(false)
            }
            Err(_) => {
                self.lose(packet);
                Err(NetworkStop::NoMemory)
            }
        }
    }

    /// A packet left its card and is on its way to the switch, or is lost.
    pub(crate) fn leave_card(
        &mut self,
        place: Place,
        packet: &SimPacket,
        passage: Passage,
        network: &Network,
        chance: Chance,
    ) -> Result<(), NetworkStop>
        requires outside { 0 < outside self.old }
        requires there { passage.there < 2 ^ 63 }
        requires late { chance.late ≤ network.now.jitter }
        requires entered { self.old.agenda.count < 2 ^ 62 }
        requires repeated { self.old.census.fates.repeated < 2 ^ 62 }
        ensures still { IsStill self.old.census.fates self.new.census.fates }
        ensures kept { chance.is_lost ≡ false → OnOk result (self.new.census.fates.lost ≡ self.old.census.fates.lost) }
        ensures single { chance.is_repeated ≡ false → self.new.census.fates.repeated ≡ self.old.census.fates.repeated }
        ensures outside { outside self.new + 1 ≡ outside self.old }
        ensures moment { self.new.agenda.moment ≡ self.old.agenda.moment }
    {
        let at = passage.there + network.switch + chance.late;
        let freed = self.await_free(passage.left, NetworkEvent::CardFree(place));
        let repeated = self.repeat_if(chance.is_repeated, at + network.switch, packet);
        let carried = self.carry_unless(chance.is_lost, at, packet);
        freed?;
        repeated?;
        carried
    }

    /// A packet left its output and is on its way to its host.
    pub(crate) fn leave_output(
        &mut self,
        place: Place,
        packet: &SimPacket,
        passage: Passage,
        network: &Network,
    ) -> Result<(), NetworkStop>
        requires outside { 0 < outside self.old }
        requires there { passage.there < 2 ^ 63 }
        requires entered { self.old.agenda.count < 2 ^ 62 }
        ensures still { IsStill self.old.census.fates self.new.census.fates }
        ensures kept { OnOk result (self.new.census.fates.lost ≡ self.old.census.fates.lost) }
        ensures repeated { self.new.census.fates.repeated ≡ self.old.census.fates.repeated }
        ensures outside { outside self.new + 1 ≡ outside self.old }
        ensures moment { self.new.agenda.moment ≡ self.old.agenda.moment }
    {
        self.set_taken(place, true);
        let at = passage.there + software(packet, network);
        let freed = self.await_free(passage.left, NetworkEvent::OutputFree(place));
        let carried = self.carry(at, packet, NetworkEvent::AtHost(*packet));
        freed?;
        carried
    }

    /// The link to a host is taken, or idle, from now on.
    pub(crate) fn set_taken(&mut self, place: Place, is_taken: bool)
        ensures agenda { self.new.agenda ≡ self.old.agenda }
        ensures census { self.new.census ≡ self.old.census }
    {
        self.receivers[place.host as usize].set_taken(self.agenda.now(), is_taken);
    }
}

// How long software takes for a packet at its host.
fn software(packet: &SimPacket, network: &Network) -> u64
    ensures { result ≤ network.now.host_delay + network.now.service_time }
{
    if packet.piece.is_some_and(|piece| piece.ends_request()) {
        network.host_delay + network.service_time
    } else {
        network.host_delay
    }
}
