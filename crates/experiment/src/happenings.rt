// What lines say that happens at moments.
ghost use Rattle.std.specs.Prelude.{◌≤◌, length, All};
ghost use Rattle.experiment.specs.Marks.{IsRestart, IsCall, IsInjection, IsShift};

use crate::fault::{LineStop, Wrong, refused};
use crate::marks::{Injection, ListedCall, Restarting, Shifting, last_at};
use std::alloc::{AllocError, Global};

/// All that happens at moments, by its kind and in the order of its lines.
#[derive(Drop)]
pub(crate) struct Happenings {
    pub(crate) restarts: Vec<Restarting>,
    pub(crate) listed: Vec<ListedCall>,
    pub(crate) injections: Vec<Injection>,
    pub(crate) shifts: Vec<Shifting>,
    ghost restarts_within: { All IsRestart restarts.items },
    ghost restarts_most: { length restarts.items ≤ 64 },
    ghost listed_within: { All IsCall listed.items },
    ghost listed_most: { length listed.items ≤ 100000000 },
    ghost injections_within: { All IsInjection injections.items },
    ghost shifts_within: { All IsShift shifts.items },
}

// The most restarts: each takes one of 64 spare services.
const MOST_RESTARTS: usize = 64;

// The most calls of a list.
const MOST_LISTED: usize = 100_000_000;

// The most datagrams that are injected, and clocks that are shifted.
const MOST_OTHERS: usize = 100_000;

impl Happenings {
    ghost use Rattle.std.specs.Prelude.{◌≡◌, []};
    ghost use Rattle.experiment.specs.Sizes.{IsAfter};
    ghost use Rattle.experiment.specs.Happenings.{happening, restarted, called, injected, shifted};

    /// Nothing happens.
    pub(crate) fn new(alloc: Global) -> Happenings
        ensures { happening result ≡ record { restarts = []; listed = []; injections = []; shifts = [] } }
    {
        Happenings {
            restarts: Vec::new(alloc),
            listed: Vec::new(alloc),
            injections: Vec::new(alloc),
            shifts: Vec::new(alloc),
        }
    }

    /// One restart more.
    pub(crate) fn add_restart(&mut self, restart: Restarting) -> Result<(), LineStop>
        requires { IsRestart restart }
        ensures { IsAfter (restarted (happening self.old) restart) result (happening self.new) }
    {
        if self.restarts.len() >= MOST_RESTARTS {
            return refused(1, Wrong::TooMany(64));
        }
        Ok(self.restarts.push(restart).map_err(AllocError::from)?)
    }

    /// One call more, at no moment before that of the last one.
    pub(crate) fn add_call(&mut self, call: ListedCall) -> Result<(), LineStop>
        requires { IsCall call }
        ensures { IsAfter (called (happening self.old) call) result (happening self.new) }
    {
        if call.at < last_at(&self.listed) {
            return refused(5, Wrong::Before);
        }
        if self.listed.len() >= MOST_LISTED {
            return refused(1, Wrong::TooMany(100_000_000));
        }
        Ok(self.listed.push(call).map_err(AllocError::from)?)
    }

    /// One datagram more.
    pub(crate) fn add_injection(&mut self, injection: Injection) -> Result<(), LineStop>
        requires { IsInjection injection }
        ensures { IsAfter (injected (happening self.old) injection) result (happening self.new) }
    {
        if self.injections.len() >= MOST_OTHERS {
            return refused(1, Wrong::TooMany(100_000));
        }
        Ok(self.injections.push(injection).map_err(AllocError::from)?)
    }

    /// One clock more that is set.
    pub(crate) fn add_shift(&mut self, shift: Shifting) -> Result<(), LineStop>
        requires { IsShift shift }
        ensures { IsAfter (shifted (happening self.old) shift) result (happening self.new) }
    {
        if self.shifts.len() >= MOST_OTHERS {
            return refused(1, Wrong::TooMany(100_000));
        }
        Ok(self.shifts.push(shift).map_err(AllocError::from)?)
    }
}
