// A simulated network, which tells what happens next in the world, and heeds what the world tells.
ghost use Rattle.std.specs.Prelude.{◌≡◌, ◌≤◌, ◌<◌, ◌+◌, [], length, true, false, IfOk};
ghost use Rattle.packet_network.specs.Censuses.{no_fates, IsConserved};
ghost use Rattle.simulated_network.specs.Runs.{all_made, is_call, is_end, drawn_after, delivered_by, bytes_of, IsSame};
ghost use Rattle.simulated_network.specs.Ends.{MayEnd};
ghost use Rattle.simulated_network.specs.Troubles.{no_trouble, one_left_out};

use crate::arrivals::Arrivals;
use crate::known::KnownCalls;
use crate::outcome::RunOutcome;
use crate::step::RunStep;
use crate::tasks::happens;
use crate::trouble::Trouble;
use crate::window::Window;
use experiment::Experiment;
use homa_plain::{Event, HostId};
use packet_network::{NetworkStop, PacketNetwork, Reached, SimPacket, Task};
use std::alloc::Global;
use std::marker::Model;

// A run doesn't wait for open calls when as many calls were drawn behind those that are measured as these are, and so many more.
const MOST_BEHIND: u64 = 1000;

/// All of a run but its world: what is due, the packets under way, and what is known of calls.
#[derive(Drop)]
pub struct SimulatedNetwork<'a> {
    pub(crate) packets: PacketNetwork,
    pub(crate) arrivals: Arrivals,
    pub(crate) known: KnownCalls<'a>,
    pub(crate) window: Window,
    pub(crate) trouble: Trouble,
}

impl<'a> Model for SimulatedNetwork<'a> {
    ghost use Rattle.simulated_network.specs.Runs.{RunState};

    ghost Value = { RunState };

    ghost view = { λ n. record {
      load = n.known.experiment.now.load;
      network = n.packets.state;
      agenda = n.packets.agenda;
      calls = n.known.calls;
      transfers = n.known.transfers;
      drawn = n.arrivals.drawn;
      trouble = n.trouble;
    } };
}

impl<'a> SimulatedNetwork<'a> {
    /// Opens the network of an experiment with a seed, in which nothing has happened.
    pub fn open(
        alloc: Global,
        experiment: &'a Experiment,
        seed: u64,
    ) -> Result<SimulatedNetwork<'a>, NetworkStop>
        ensures load { IfOk result (λ n. n.load ≡ experiment.now.load) }
        ensures calls { IfOk result (λ n. n.calls ≡ []) }
        ensures transfers { IfOk result (λ n. n.transfers ≡ []) }
        ensures drawn { IfOk result (λ n. n.drawn ≡ 0) }
        ensures moment { IfOk result (λ n. n.network.moment ≡ 0) }
        ensures fates { IfOk result (λ n. n.network.fates ≡ no_fates) }
        ensures trouble { IfOk result (λ n. n.trouble ≡ no_trouble) }
    {
        let mut network = SimulatedNetwork {
            packets: PacketNetwork::open(alloc, experiment, seed)?,
            arrivals: Arrivals::new(experiment, seed),
            known: KnownCalls::new(alloc, experiment)?,
            window: Window::new(),
            trouble: Trouble::new(),
        };
        network.packets.enter(experiment.network.tick, Task::Clock)?;
        network.enter_calls()?;
        network.enter_restarts()?;
        network.enter_injections()?;
        network.enter_shifts()?;
        Ok(network)
    }

    // The first calls are due: of a list, or of each client, or of all clients of an incast at once.
    fn enter_calls(&mut self) -> Result<(), NetworkStop>
        ensures { IsSame self.old self.new }
    {
        let experiment = self.known.experiment;
        if let Some(first) = experiment.listed.first() {
            return self.packets.enter(first.at, Task::Listed(0));
        }
        let clients = if experiment.load.incast > 0 {
            1
        } else {
            experiment.settings.hosts
        };
        for client in 0..clients {
            let at = self.arrivals.next_gap();
            self.packets.enter(at, Task::Calls(HostId(client as u16)))?;
        }
        Ok(())
    }

    // The restarts are due at their moments.
    fn enter_restarts(&mut self) -> Result<(), NetworkStop>
        ensures { IsSame self.old self.new }
    {
        let mut number: u32 = 0;
        for restart in &self.known.experiment.restarts {
            self.packets.enter(restart.at, Task::Restart(number))?;
            number = number.saturating_add(1);
        }
        Ok(())
    }

    // The datagrams that no host sends are due at their moments.
    fn enter_injections(&mut self) -> Result<(), NetworkStop>
        ensures { IsSame self.old self.new }
    {
        let mut number: u32 = 0;
        for injection in &self.known.experiment.injections {
            self.packets.enter(injection.at, Task::Inject(number))?;
            number = number.saturating_add(1);
        }
        Ok(())
    }

    // The settings of clocks are due at their moments.
    fn enter_shifts(&mut self) -> Result<(), NetworkStop>
        ensures { IsSame self.old self.new }
    {
        let mut number: u32 = 0;
        for shift in &self.known.experiment.shifts {
            self.packets.enter(shift.at, Task::Shift(number))?;
            number = number.saturating_add(1);
        }
        Ok(())
    }

    /// The moment of the last step, in picoseconds.
    pub fn now(&self) -> u64
        ensures { result ≡ self.now.network.moment }
    {
        self.packets.now()
    }

    /// How many calls were drawn so far.
    pub fn drawn(&self) -> u32
        ensures { result ≡ self.now.drawn }
    {
        self.arrivals.drawn()
    }

    /// How many calls were made so far.
    pub fn made(&self) -> usize
        ensures { result ≡ length self.now.calls }
    {
        self.known.calls.count()
    }

    // Whether all calls that are measured have ended, or so many more were drawn that they hardly will. If calls aren't listed,
    // measuring ends with the first one behind them.
    #[tactic(auto, using(crate::proofs::EndLaws::ends_over, crate::proofs::EndLaws::ends_late))]
    fn is_over(&self) -> bool
        ensures { result ≡ true → MayEnd self.now }
    {
        let load = &self.known.experiment.load;
        let drawn = u64::from(self.arrivals.drawn());
        let measured = u64::from(load.warm) + u64::from(load.calls);
        let behind = u64::from(self.known.experiment.listed.is_empty());
        if drawn < measured + behind {
            return false;
        }
        if self.known.unended() == 0 {
            return true;
        }
        drawn >= measured + u64::from(load.calls) + MOST_BEHIND
    }

    /// Tells what happens next; `tick` is that of the world's clock. `RunStep::Over` comes only if a run may end.
    #[tactic(auto, using(crate::proofs::EndLaws::ends_idle))]
    pub fn next(&mut self, tick: u64) -> Result<RunStep, NetworkStop>
        ensures made { all_made self.new.calls ≡ all_made self.old.calls }
        ensures drawn { IfOk result (λ step. self.new.drawn ≡ drawn_after step self.old.drawn) }
        ensures delivered { IfOk result (λ step. self.new.network.fates.delivered ≡ self.old.network.fates.delivered + delivered_by step) }
        ensures sent { self.new.network.fates.sent ≡ self.old.network.fates.sent }
        ensures forth { self.old.network.moment ≤ self.new.network.moment }
        ensures bytes { IfOk result (λ step. bytes_of step ≤ 1000000) }
        ensures left_out { self.new.trouble.left_out ≡ self.old.trouble.left_out }
        ensures load { self.new.load ≡ self.old.load }
        ensures over { IfOk result (λ step. is_end step ≡ true → MayEnd self.old) }
    {
        if self.is_over() {
            return Ok(RunStep::Over);
        }
        if self.arrivals.is_due() {
            let asked = self.arrivals.call(self.known.experiment);
            return Ok(self.call(&asked));
        }
        match self.packets.next()? {
            None => Ok(RunStep::Over),
            Some(Reached::Task(task)) => self.begins(task),
            Some(Reached::AtHost(packet)) => Ok(self.arrives(tick, &packet)),
            Some(Reached::Card(begun)) => {
                self.known.leaves_card(self.packets.now(), &begun);
                Ok(RunStep::Inside)
            }
            Some(Reached::Output(begun)) => {
                self.known.leaves_output(&begun);
                Ok(RunStep::Inside)
            }
            Some(Reached::Nothing) => Ok(RunStep::Inside),
        }
    }

    // A packet is at its host. With version 1 the world wouldn't take one that is too old.
    fn arrives(&mut self, tick: u64, packet: &SimPacket) -> RunStep
        ensures made { all_made self.new.calls ≡ all_made self.old.calls }
        ensures drawn { self.new.drawn ≡ self.old.drawn }
        ensures step { is_call result ≡ false }
        ensures bytes { bytes_of result ≡ 0 }
        ensures delivered { 0 < self.old.network.fates.delivered
            → self.new.network.fates.delivered + 1 ≡ self.old.network.fates.delivered + delivered_by result }
        ensures sent { self.new.network.fates.sent ≡ self.old.network.fates.sent }
        ensures moment { self.new.network.moment ≡ self.old.network.moment }
        ensures trouble { self.new.trouble ≡ self.old.trouble }
        ensures load { self.new.load ≡ self.old.load }
        ensures last { is_end result ≡ false }
    {
        let settings = &self.known.experiment.settings;
        let age = tick.saturating_sub(packet.tick);
        if settings.wire == 1 && age > u64::from(settings.life) {
            self.packets.was_too_old();
            return RunStep::Inside;
        }
        self.known.arrives(&mut self.packets, packet);
        let packet = packet.number;
        happens(Event::Deliver { packet })
    }

    /// The call of the last step isn't made, as its client has as many live ones as it may.
    pub fn leaves_out(&mut self)
        ensures { self.new ≡ record self.old { trouble = one_left_out self.old.trouble } }
    {
        self.trouble.left_out = self.trouble.left_out.saturating_add(1);
    }

    /// What came of the run, which had so many events.
    pub fn finish(self, events: u64) -> RunOutcome
        ensures calls { result.calls ≡ self.entry.calls }
        ensures transfers { result.transfers ≡ self.entry.transfers }
        ensures fates { result.fates ≡ self.entry.network.fates }
        ensures conserved { IsConserved result.fates result.under_way }
        ensures under_way { result.under_way ≡ self.entry.network.under_way }
        ensures trouble { result.trouble ≡ self.entry.trouble }
        ensures events { result.events ≡ events }
        ensures ended { result.ended ≡ self.entry.network.moment }
    {
        let SimulatedNetwork {
            packets,
            known,
            mut window,
            trouble,
            ..
        } = self;
        let KnownCalls {
            experiment,
            calls,
            transfers,
            ..
        } = known;
        window.close(&packets, experiment.settings.hosts);
        RunOutcome {
            calls,
            transfers,
            window,
            fates: packets.fates(),
            under_way: packets.under_way(),
            trouble,
            events,
            ended: packets.now(),
        }
    }
}
