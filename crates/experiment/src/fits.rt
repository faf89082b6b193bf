// What makes of what was said an experiment, or which line is wrong.
ghost use Rattle.std.specs.Prelude.{◌≡◌};
ghost use Rattle.homa_plain.specs.Settings.{verdict};
ghost use Rattle.experiment.specs.Fits.{said, settings_by, restarts_fit, calls_fit, injections_fit, shifts_fit, incast_fits, hot_fits};

use crate::amounts::Amount;
use crate::fault::{ExperimentFault, Wrong};
use crate::load::Hot;
use crate::marks::{Injection, ListedCall, Restarting, Shifting};
use homa_plain::{Name, SettingFault, Settings};

// This word of this line is wrong.
fn said(line: u64, word: u32, wrong: Wrong) -> Result<(), ExperimentFault>
    ensures { result ≡ said line word wrong }
{
    Err(ExperimentFault::Said { line, word, wrong })
}

/// That the settings of the hosts are valid, where the last one was said in this line.
pub(crate) fn check_settings(settings: &Settings, line: u64) -> Result<(), ExperimentFault>
    ensures { result ≡ settings_by line (verdict settings.now) }
{
    match settings.check() {
        Ok(()) => Ok(()),
        Err(SettingFault::OutOfRange(name)) => said(line, 2, Wrong::Setting(name)),
        Err(SettingFault::UnschedOverWindow) => said(line, 2, Wrong::UnschedOverWindow),
        Err(SettingFault::RateUnderSeg) => said(line, 2, Wrong::RateUnderSeg),
    }
}

/// That the hosts of restarts are hosts.
pub(crate) fn check_restarts(restarts: &[Restarting], hosts: u32) -> Result<(), ExperimentFault>
    ensures { result ≡ restarts_fit hosts restarts.now }
{
    for restart in restarts {
        if u32::from(restart.host.0) >= hosts {
            return said(restart.line, 2, Wrong::Host);
        }
    }
    Ok(())
}

/// That the hosts of listed calls are hosts.
pub(crate) fn check_calls(calls: &[ListedCall], hosts: u32) -> Result<(), ExperimentFault>
    ensures { result ≡ calls_fit hosts calls.now }
{
    for call in calls {
        if u32::from(call.client.0) >= hosts {
            return said(call.line, 2, Wrong::Host);
        }
        if u32::from(call.server.0) >= hosts {
            return said(call.line, 3, Wrong::Host);
        }
    }
    Ok(())
}

/// That the hosts of injected datagrams are hosts.
pub(crate) fn check_injections(injections: &[Injection], hosts: u32) -> Result<(), ExperimentFault>
    ensures { result ≡ injections_fit hosts injections.now }
{
    for injection in injections {
        if u32::from(injection.host.0) >= hosts {
            return said(injection.line, 2, Wrong::Host);
        }
    }
    Ok(())
}

/// That the hosts of shifted clocks are hosts, and that no clock is set further ahead than twice `skew`.
pub(crate) fn check_shifts(
    shifts: &[Shifting],
    hosts: u32,
    skew: u32,
) -> Result<(), ExperimentFault>
    ensures { result ≡ shifts_fit hosts skew shifts.now }
{
    for shift in shifts {
        if u32::from(shift.host.0) >= hosts {
            return said(shift.line, 2, Wrong::Host);
        }
        if u64::from(shift.ticks) > 2 * u64::from(skew) {
            return said(shift.line, 3, Wrong::AgainstSetting(Name::Skew));
        }
    }
    Ok(())
}

/// That there are more hosts than clients of an incast, which was said in this line.
pub(crate) fn check_incast(incast: u64, line: u64, hosts: u32) -> Result<(), ExperimentFault>
    ensures { result ≡ incast_fits hosts incast line }
{
    if incast < u64::from(hosts) {
        Ok(())
    } else {
        said(line, 2, Wrong::Against(Amount::Incast))
    }
}

/// That the host to which more calls go is a host, if there is one; it was said in this line.
pub(crate) fn check_hot(hot: Option<Hot>, line: u64, hosts: u32) -> Result<(), ExperimentFault>
    ensures { result ≡ hot_fits hosts line hot }
{
    let Some(named) = hot else {
        return Ok(());
    };
    if u32::from(named.host.0) < hosts {
        Ok(())
    } else {
        said(line, 2, Wrong::Host)
    }
}
