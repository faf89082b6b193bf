// A call of one host.
ghost use Rattle.std.specs.Prelude.{◌≡◌, ◌<◌};

use homa_host::Host;
use homa_plain::{HostId, Settings};
use host_view::Outbox;
use std::alloc::{AllocError, Global};
use std::test::Fail;

// What a first call leaves: whether it was sent, the host's entries and calls, and the frames.
fn call(client: &mut Host, request: Vec<u8>, out: &mut Outbox) -> (bool, usize, u32, usize)
    requires server { 1 < client.old.settings.hosts }
    requires last { client.old.host.last ≡ 0 }
    requires order { client.old.host.order ≡ 0 }
{
    let is_sent = client.call(HostId(1), 0, request, 0, out).is_ok();
    (is_sent, client.entries(), client.live(), out.len())
}

// The host comes last, so that no fault leaves it behind.
fn called(alloc: Global) -> Result<(bool, usize, u32, usize), AllocError> {
    let request = Vec::from_slice(alloc, b"hi")?;
    let mut out = Outbox::new(alloc)?;
    let mut client = Host::open(alloc, HostId(0), 1, &Settings::usual())?;
    Ok(call(&mut client, request, &mut out))
}

#[test]
fn a_call_is_sent(rt: HostRuntime) -> Result<(), Fail> {
    let (is_sent, entries, live, sent) = called(rt.alloc())?;
    assert!(rt; is_sent);
    assert_eq!(rt; entries, 2);
    assert_eq!(rt; live, 1);
    assert_eq!(rt; sent, 1);
    Ok(())
}
