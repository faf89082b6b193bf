// What a task makes of the network, and what happens in the world then.
ghost use Rattle.std.specs.Prelude.{◌≡◌, ◌+◌, ◌-◌, ◌^◌, min, IfOk};
ghost use Rattle.simulated_network.specs.declared.step.RunStep.TheVariants as step;
ghost use Rattle.simulated_network.specs.Runs.{IsQuiet, IsSame, IsKept, IsBegun};

use crate::arrivals::DrawnCall;
use crate::network::SimulatedNetwork;
use crate::receivers::is_known;
use crate::step::RunStep;
use experiment::wire_of_call;
use homa_plain::{Event, HostId};
use packet_network::{NetworkStop, Task};

/// An event without bytes.
pub(crate) fn happens(event: Event) -> RunStep
    ensures { result ≡ step.Event event 0 }
{
    RunStep::Event { event, bytes: 0 }
}

impl SimulatedNetwork<'_> {
    /// A task begins.
    pub(crate) fn begins(&mut self, task: Task) -> Result<RunStep, NetworkStop>
        ensures kept { IsKept self.old self.new }
        ensures step { IfOk result (λ step. IsBegun step self.old self.new) }
    {
        match task {
            Task::Clock => self.ticks(),
            Task::Turn(host) => Ok(self.turn(host)),
            Task::Calls(client) => self.calls(client),
            Task::Listed(i) => self.listed(i),
            Task::Restart(i) => Ok(self.restart(i)),
            Task::Inject(i) => Ok(self.inject(i)),
            Task::Shift(i) => Ok(self.shift(i)),
        }
    }

    // The clock goes on, and turns are due.
    fn ticks(&mut self) -> Result<RunStep, NetworkStop>
        ensures same { IsSame self.old self.new }
        ensures step { IfOk result (λ step. IsQuiet step) }
    {
        let (tick, is_spread) = (
            self.known.experiment.network.tick,
            self.known.experiment.network.is_spread,
        );
        let hosts = self.known.experiment.settings.hosts;
        let now = self.packets.now();
        for host in 0..hosts {
            let late = if is_spread {
                tick * u64::from(host) / u64::from(hosts)
            } else {
                0
            };
            let at = now.saturating_add(late);
            self.packets.enter(at, Task::Turn(HostId(host as u16)))?;
        }
        self.packets.enter(now.saturating_add(tick), Task::Clock)?;
        Ok(happens(Event::Clock))
    }

    // A host has its turn, unless too much waits at its network card.
    fn turn(&mut self, host: HostId) -> RunStep
        ensures calls { self.new.calls ≡ self.old.calls }
        ensures network { self.new.network ≡ self.old.network }
        ensures left_out { self.new.trouble.left_out ≡ self.old.trouble.left_out }
        ensures load { self.new.load ≡ self.old.load }
        ensures drawn { self.new.drawn ≡ self.old.drawn }
        ensures step { IsQuiet result }
    {
        let limit = u64::from(self.known.experiment.network.card_limit);
        if is_known(host) && self.packets.card_bytes(host) > limit {
            self.trouble.held = self.trouble.held.saturating_add(1);
            return RunStep::Inside;
        }
        happens(Event::Turn { host })
    }

    // A client makes calls now, and its next ones are due.
    fn calls(&mut self, client: HostId) -> Result<RunStep, NetworkStop>
        ensures same { IsSame self.old self.new }
        ensures step { IfOk result (λ step. IsQuiet step) }
    {
        let gap = self.arrivals.next_gap();
        let next = self.packets.now().saturating_add(gap);
        self.packets.enter(next, Task::Calls(client))?;
        self.arrivals.begin(self.known.experiment, client);
        Ok(RunStep::Inside)
    }

    // The call of a list with this number is made, and the next one is due.
    fn listed(&mut self, i: u32) -> Result<RunStep, NetworkStop>
        ensures kept { IsKept self.old self.new }
        ensures step { IfOk result (λ step. IsBegun step self.old self.new) }
    {
        let Some(call) = self.known.experiment.listed.get(i as usize) else {
            return Ok(RunStep::Inside);
        };
        let next = i.saturating_add(1);
        if let Some(later) = self.known.experiment.listed.get(next as usize) {
            self.packets.enter(later.at, Task::Listed(next))?;
        }
        let asked = DrawnCall {
            client: call.client,
            server: call.server,
            bytes: call.bytes,
        };
        Ok(self.call(&asked))
    }

    // The restart with this number.
    fn restart(&self, i: u32) -> RunStep
        ensures { IsQuiet result }
    {
        match self.known.experiment.restarts.get(i as usize) {
            Some(restart) => happens(Event::Restart { host: restart.host }),
            None => RunStep::Inside,
        }
    }

    // The datagram with this number that no host sent.
    fn inject(&self, i: u32) -> RunStep
        ensures { IsQuiet result }
    {
        match self.known.experiment.injections.get(i as usize) {
            Some(injection) => RunStep::Event {
                event: Event::Inject {
                    host: injection.host,
                },
                bytes: injection.bytes,
            },
            None => RunStep::Inside,
        }
    }

    // The setting of a clock with this number.
    fn shift(&self, i: u32) -> RunStep
        ensures { IsQuiet result }
    {
        match self.known.experiment.shifts.get(i as usize) {
            Some(shift) => happens(Event::Shift {
                host: shift.host,
                n: shift.ticks,
            }),
            None => RunStep::Inside,
        }
    }

    /// A call was drawn, or is the next of the list. Measuring may begin or end with it.
    pub(crate) fn call(&mut self, asked: &DrawnCall) -> RunStep
        ensures kept { IsKept self.old self.new }
        ensures trouble { self.new.trouble ≡ self.old.trouble }
        ensures drawn { self.new.drawn ≡ min (self.old.drawn + 1) (2 ^ 32 - 1) }
        ensures step { result ≡ step.Call asked.now.client asked.now.server asked.now.bytes }
    {
        let load = &self.known.experiment.load;
        let drawn = self.arrivals.drawn();
        if drawn == load.warm {
            self.packets.restart();
            self.window.open(self.packets.now());
        }
        if drawn == load.warm + load.calls {
            self.window
                .close(&self.packets, self.known.experiment.settings.hosts);
        }
        self.window
            .offers(wire_of_call(self.known.experiment, asked.bytes));
        self.arrivals.count();
        RunStep::Call {
            client: asked.client,
            server: asked.server,
            bytes: asked.bytes,
        }
    }
}
