// Commands over memory.
ghost use Rattle.std.specs.Prelude.{◌≡◌, false};
ghost use Rattle.homa_plain.specs.declared.id.HostId.{HostId as Host};

use homa_io::{MemSink, MemSource};
use homa_top::{ExitStatus, run, suites};
use node_io::{Clock, MemClock, Net, SureNet};
use std::alloc::Global;
use std::test::Fail;

// Carries out a command, and answers its status and what its sink took: at most so many bytes.
pub(crate) fn carry_out<N: Net, C: Clock>(
    alloc: Global,
    words: &[&str],
    input: &[u8],
    most: u32,
    net: &mut N,
    clock: &mut C,
) -> Result<(ExitStatus, MemSink), Fail>
    requires none_known { (h : Host) → N.known net.old h ≡ false }
{
    let bytes = Vec::from_slice(alloc, input)?;
    let mut source = MemSource::new(bytes, Vec::new(alloc));
    let mut sink = MemSink::new(alloc, most, Vec::new(alloc))?;
    let services = suites(alloc)?;
    let status = run(alloc, words, &mut source, &mut sink, net, clock, services);
    Ok((status, sink))
}

// The same of a command that needs no net.
pub(crate) fn carry(
    alloc: Global,
    words: &[&str],
    input: &[u8],
    most: u32,
) -> Result<(ExitStatus, MemSink), Fail> {
    let mut net = SureNet::new();
    let mut clock = MemClock::new(vec![in alloc; 0]?);
    carry_out(alloc, words, input, most, &mut net, &mut clock)
}
