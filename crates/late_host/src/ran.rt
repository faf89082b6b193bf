// The call that ran in a step.
ghost use Rattle.std.specs.Prelude.{◌≡◌, ◌↔◌, IsTrue, Some};
ghost use Rattle.late_host.specs.Ran.{ran_by, ran_in};

use homa_host::Host;
use homa_plain::CallId;
use host_view::Mark;

/// Whether this call ran in a host's last step.
pub(crate) fn has_run(host: &Host, id: CallId) -> bool
    ensures { IsTrue result ↔ (ran_in host.now.marks ≡ Some id) }
{
    match ran(host) {
        Some(ran) => ran == id,
        None => false,
    }
}

/// The call that ran in a host's last step, if one did.
pub(crate) fn ran(host: &Host) -> Option<CallId>
    ensures { result ≡ ran_in host.now.marks }
{
    for i in 0..host.entries() {
        if let Some(id) = ran_by(host.mark(i)) {
            return Some(id);
        }
    }
    None
}

// The call that ran with this mark.
fn ran_by(mark: &Mark) -> Option<CallId>
    ensures { result ≡ ran_by mark.now }
{
    match mark {
        Mark::Ran { id, .. } => Some(*id),
        _ => None,
    }
}
