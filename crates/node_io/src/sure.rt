// A net that never fails.
ghost use Rattle.std.specs.Prelude.{◌≡◌, ◌||◌, ◌<◌, false, None, IsOk, refl};
ghost use Rattle.homa_plain.specs.declared.id.HostId.{HostId as Host};
ghost use Rattle.homa_plain.specs.Calls.{is_host};
ghost use Rattle.node_io.specs.declared.net.Got.TheVariants.{Nothing};

use crate::hosts::HostSet;
use crate::{Got, Net, NetFailed};
use homa_plain::{Frame, HostId};

/// A net that takes every datagram and gives none, which has no faults. It tells nothing of datagrams.
#[derive(Drop)]
pub struct SureNet {
    known: HostSet,
}

impl SureNet {
    ghost use Rattle.node_io.specs.Sure.{sure_known, sure_faults};

    /// A net that knows no host.
    pub fn new() -> SureNet
        ensures known { (h : Host) → sure_known result h ≡ false }
        ensures faults { sure_faults result ≡ 0 }
    {
        SureNet {
            known: HostSet::new(),
        }
    }
}

impl Net for SureNet {
    ghost use Rattle.node_io.specs.Sure.{sure_known, sure_faults};

    ghost known = { sure_known };

    ghost queued = { λ _. None };

    ghost acts = { λ _. None };

    ghost sent = { λ _. None };

    ghost gave = { λ _. None };

    ghost faults = { sure_faults };

    fn bind(&mut self, host: HostId, _port: u16) -> Result<(), NetFailed>
        ensures never_fails { IsOk result }
        ensures known { (h : Host) → sure_known self.new h ≡ (sure_known self.old h || is_host h host) }
    {
        self.known.insert(host);
        Ok(())
    }

    fn route(&mut self, host: HostId, _port: u16) -> Result<(), NetFailed>
        ensures never_fails { IsOk result }
        ensures known { (h : Host) → sure_known self.new h ≡ (sure_known self.old h || is_host h host) }
    {
        self.known.insert(host);
        Ok(())
    }

    fn send(&mut self, _from: HostId, _to: HostId, _bytes: &[u8]) -> Result<(), NetFailed>
        ensures never_fails { IsOk result }
        ensures known { sure_known self.new ≡ sure_known self.old }
    {
        Ok(())
    }

    fn recv(&mut self, _host: HostId, _frame: &mut Frame) -> Result<Got, NetFailed>
        ensures nothing { result ≡ Ok Nothing }
        ensures known { sure_known self.new ≡ sure_known self.old }
    {
        Ok(Got::Nothing)
    }

    ghost sent_is = { λ _. refl };

    ghost gave_is = { λ _. refl };
}
