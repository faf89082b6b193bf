// What the tests of nets do and see.
use homa_plain::{Frame, HostId};
use node_io::{Got, Net, NetFailed};
use std::process::Abort;

pub(crate) const A: HostId = HostId(0);

pub(crate) const B: HostId = HostId(1);

pub(crate) const C: HostId = HostId(2);

// A host is bound so.
pub(crate) fn binds<N: Net>(
    rt: &impl Abort,
    net: &mut N,
    host: HostId,
    port: u16,
    wanted: Result<(), NetFailed>,
) {
    assert_eq!(rt; net.bind(host, port), wanted);
}

// A host elsewhere is known.
pub(crate) fn routes<N: Net>(rt: &impl Abort, net: &mut N, host: HostId, port: u16) {
    assert_eq!(rt; net.route(host, port), Ok(()));
}

// Bytes are sent so.
pub(crate) fn sends<N: Net>(
    rt: &impl Abort,
    net: &mut N,
    from: HostId,
    to: HostId,
    bytes: &[u8],
    wanted: Result<(), NetFailed>,
) {
    assert_eq!(rt; net.send(from, to, bytes), wanted);
}

// A host receives so.
pub(crate) fn receives<N: Net>(
    rt: &impl Abort,
    net: &mut N,
    got: &mut Frame,
    host: HostId,
    wanted: Result<Got, NetFailed>,
) {
    assert_eq!(rt; net.recv(host, got), wanted);
}

// What was received is this.
pub(crate) fn holds(rt: &impl Abort, got: &Frame, bytes: &[u8]) {
    assert!(rt; got.bytes() == bytes);
}

// What a host receives is this, from there, and it may come late.
pub(crate) fn hears<N: Net>(
    rt: &impl Abort,
    net: &mut N,
    got: &mut Frame,
    host: HostId,
    from: HostId,
    bytes: &[u8],
) {
    assert_eq!(rt; receive(net, host, got), Ok(Got::Frame { from }));
    holds(rt, got, bytes);
}

// What a receive gives, which may come late.
pub(crate) fn receive<N: Net>(
    net: &mut N,
    host: HostId,
    frame: &mut Frame,
) -> Result<Got, NetFailed> {
    for _ in 0..1000 {
        let got = net.recv(host, frame)?;
        if got != Got::Nothing {
            return Ok(got);
        }
    }
    Ok(Got::Nothing)
}
