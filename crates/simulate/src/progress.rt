// How far a run has come, on standard error.
use crate::cells::Thousandths;
use crate::parts::part;
use simulation::{Far, Telling};
use std::rt::Clock;
use std::time::Instant;

/// What hears how far runs have come.
pub(crate) trait Hearing: Telling {
    /// Another run begins, with this seed, in which so many calls are to be drawn.
    fn begin(&mut self, seed: u64, calls: u64);
}

/// Tells how far a run has come, at most once a second.
#[derive(Drop)]
pub(crate) struct RunProgress<'a, R> {
    rt: &'a R,
    // When it began; it tells nothing if nobody asked.
    began: Option<Instant>,
    seed: u64,
    calls: u64,
    // The second in which it told last.
    told: u64,
}

impl<'a, R: Clock + Eprint> RunProgress<'a, R> {
    /// That of runs that begin now.
    pub(crate) fn new(rt: &'a R) -> RunProgress<'a, R> {
        RunProgress {
            rt,
            began: Instant::now(rt).ok(),
            seed: 0,
            calls: 0,
            told: 0,
        }
    }

    // Tells it, if another second has begun.
    fn look(&mut self, far: &Far) {
        let Some(began) = &self.began else {
            return;
        };
        let Ok(elapsed) = began.elapsed(self.rt) else {
            return;
        };
        let seconds = elapsed.as_secs();
        if seconds <= self.told {
            return;
        }
        self.told = seconds;
        let done = Thousandths(part(u128::from(far.drawn), u128::from(self.calls)));
        let (seed, calls, micros) = (self.seed, self.calls, far.now / 1_000_000);
        let _ = eprintln!(self.rt;
            "homa-simulate: seed {seed}: {done} of {calls} calls, {micros} us simulated, {seconds} s elapsed"
        );
    }
}

impl<R: Clock + Eprint> Telling for RunProgress<'_, R> {
    ghost hears = { λ a far b. Unit {0} };

    fn tell(&mut self, far: &Far) {
        self.look(far);
    }
}

impl<R: Clock + Eprint> Hearing for RunProgress<'_, R> {
    fn begin(&mut self, seed: u64, calls: u64) {
        self.seed = seed;
        self.calls = calls;
    }
}

/// Tells nothing.
#[derive(Drop)]
pub(crate) struct Silence;

impl Telling for Silence {
    ghost hears = { λ a far b. Unit {0} };

    fn tell(&mut self, _far: &Far) {}
}

impl Hearing for Silence {
    fn begin(&mut self, _seed: u64, _calls: u64) {}
}
