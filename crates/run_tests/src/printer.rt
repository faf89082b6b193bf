// A node's printer.
ghost use Rattle.homa_plain.specs.Entries.{plain};
ghost use Rattle.homa_plain.specs.Told.{HasLine};
ghost use Rattle.node_io.specs.Observer.{IsSeen};

use homa_io::{MemSink, WriteFailed};
use homa_node::Printer;
use homa_plain::{Entry, HostId};
use node_io::{Observer, SeenFault};
use std::process::Abort;
use std::test::Fail;

// A printer prints an entry, or fails.
fn prints(
    rt: &impl Abort,
    printer: &mut Printer<&mut MemSink>,
    entry: &Entry<'_>,
    wanted: Result<(), SeenFault>,
)
    requires seen { IsSeen (plain entry.now) }
    requires line { HasLine (plain entry.now) }
{
    assert_eq!(rt; printer.seen(entry), wanted);
}

#[test]
fn entries_are_printed_and_turnings_are_not(rt: HostRuntime) -> Result<(), Fail> {
    let fails = Vec::from_slice(rt.alloc(), &[2])?;
    let mut sink = MemSink::new(rt.alloc(), 80, fails)?;
    let mut printer = Printer::new(&mut sink);
    let (host, from, bytes) = (HostId(1), HostId(0), b"hi");
    let failed = Err(SeenFault::Write(WriteFailed));
    prints(&rt, &mut printer, &Entry::Clock { tick: 7 }, Ok(()));
    assert_eq!(rt; printer.turning(HostId(0)), Ok(()));
    prints(
        &rt,
        &mut printer,
        &Entry::Recv { host, from, bytes },
        Ok(()),
    );
    prints(&rt, &mut printer, &Entry::Junk { host }, failed);
    let _sink = printer.into_sink();
    assert_eq!(rt; sink.bytes(), b"clock 7\nrecv 1 0 6869\n".as_slice());
    Ok(())
}
