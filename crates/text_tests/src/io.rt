// Each constructor and call, where it succeeds and where it fails, and wrappers over what is lent.
ghost use Rattle.std.specs.Prelude.{◌≡◌, ◌++◌, [], OnOk, OnErr, IfOk, take};
ghost use Rattle.homa_io.specs.Outside.{appended, unread, TookFront};
ghost use Rattle.homa_io.specs.Held.{sink_below, held_bytes};

use homa_io::{
    HeldSink, MemSink, MemSource, ReadFailed, Room, Sink, Source, StdSink, StdSource, SureSink,
    SureSource, WriteFailed, write_all,
};
use std::alloc::Global;
use std::io::{self, ErrorKind, Read, Write};
use std::process::Abort;
use std::test::Fail;

/// A wrapper that owns its sink, or holds one that is lent.
struct Wrapper<K: Sink> {
    sink: K,
}

impl<K: Sink> Wrapper<K> {
    fn put(&mut self, bytes: &[u8]) -> Result<(), WriteFailed>
        ensures ok { OnOk result (K.taken self.new.sink ≡ appended (K.taken self.old.sink) bytes.now) }
        ensures same { K.is_same self.old.sink self.new.sink }
    {
        write_all(&mut self.sink, bytes)
    }
}

/// Writes through a wrapper, whose lender knows what its sink took.
fn put_through<K: Sink>(sink: &mut K, bytes: &[u8]) -> Result<(), WriteFailed>
    ensures { OnOk result (K.taken sink.new ≡ appended (K.taken sink.old) bytes.now) }
{
    let mut wrapper = Wrapper { sink };
    let answer = wrapper.put(bytes);
    let Wrapper { sink: _ } = wrapper;
    answer
}

/// A wrapper that owns its source, or holds one that is lent.
struct Reader<S: Source> {
    source: S,
}

impl<S: Source> Reader<S> {
    fn get(&mut self, buf: &mut [u8]) -> Result<usize, ReadFailed>
        ensures read { IfOk result (λ n.
            S.left self.old.source ≡ unread (take n buf.new) (S.left self.new.source)) }
        ensures same { S.is_same self.old.source self.new.source }
    {
        self.source.read(buf)
    }
}

/// Reads through a wrapper, whose lender knows what its source has left.
fn get_through<S: Source>(source: &mut S, buf: &mut [u8]) -> Result<usize, ReadFailed>
    ensures { IfOk result (λ n. S.left source.old ≡ unread (take n buf.new) (S.left source.new)) }
{
    let mut reader = Reader { source };
    let answer = reader.get(buf);
    let Reader { source: _ } = reader;
    answer
}

// A read answers so.
fn reads<S: Source>(
    rt: &impl Abort,
    source: &mut S,
    buf: &mut [u8],
    wanted: Result<usize, ReadFailed>,
) {
    assert_eq!(rt; source.read(buf), wanted);
}

// A write answers so.
fn writes<K: Sink>(
    rt: &impl Abort,
    sink: &mut K,
    bytes: &[u8],
    wanted: Result<usize, WriteFailed>,
) {
    assert_eq!(rt; sink.write(bytes), wanted);
}

// All of it is written, or the first error is answered.
fn writes_all<K: Sink>(
    rt: &impl Abort,
    sink: &mut K,
    bytes: &[u8],
    wanted: Result<(), WriteFailed>,
) {
    assert_eq!(rt; write_all(sink, bytes), wanted);
}

#[test]
fn memory_is_read_in_parts(rt: HostRuntime) -> Result<(), Fail> {
    let bytes = Vec::from_slice(rt.alloc(), b"homa!")?;
    let mut source = MemSource::new(bytes, Vec::new(rt.alloc()));
    let mut buf = [0; 3];
    reads(&rt, &mut source, &mut buf, Ok(3));
    assert_eq!(rt; buf, *b"hom");
    assert_eq!(rt; get_through(&mut source, &mut buf), Ok(2));
    assert_eq!(rt; buf[..2] == [b'a', b'!'], true);
    reads(&rt, &mut source, &mut buf, Ok(0));
    Ok(())
}

#[test]
fn a_failed_read_moves_nothing(rt: HostRuntime) -> Result<(), Fail> {
    let fails = Vec::from_slice(rt.alloc(), &[1])?;
    let bytes = Vec::from_slice(rt.alloc(), b"homa!")?;
    let mut source = MemSource::new(bytes, fails);
    let mut buf = [0; 3];
    reads(&rt, &mut source, &mut buf, Ok(3));
    reads(&rt, &mut source, &mut buf, Err(ReadFailed));
    reads(&rt, &mut source, &mut buf, Ok(2));
    assert_eq!(rt; buf, *b"a!m");
    Ok(())
}

#[test]
fn memory_takes_what_fits(rt: HostRuntime) -> Result<(), Fail> {
    let mut sink = MemSink::new(rt.alloc(), 4, Vec::new(rt.alloc()))?;
    writes(&rt, &mut sink, b"homa!!", Ok(4));
    writes(&rt, &mut sink, b"!", Err(WriteFailed));
    writes(&rt, &mut sink, b"", Ok(0));
    assert_eq!(rt; sink.bytes(), b"homa".as_slice());
    Ok(())
}

#[test]
fn all_is_written_or_a_front(rt: HostRuntime) -> Result<(), Fail> {
    let fails = Vec::from_slice(rt.alloc(), &[1])?;
    let mut sink = MemSink::new(rt.alloc(), 8, fails)?;
    writes_all(&rt, &mut sink, b"ho", Ok(()));
    writes_all(&rt, &mut sink, b"no", Err(WriteFailed));
    assert_eq!(rt; put_through(&mut sink, b"ma"), Ok(()));
    assert_eq!(rt; sink.bytes(), b"homa".as_slice());
    Ok(())
}

// Of six bytes the second write in this call finds no room.
#[test]
fn a_front_is_written_where_there_is_no_room(rt: HostRuntime) -> Result<(), Fail> {
    let mut small = MemSink::new(rt.alloc(), 4, Vec::new(rt.alloc()))?;
    writes_all(&rt, &mut small, b"homa!!", Err(WriteFailed));
    assert_eq!(rt; small.bytes(), b"homa".as_slice());
    Ok(())
}

#[test]
fn sure_ones_never_fail(rt: HostRuntime) -> Result<(), Fail> {
    let mut source = SureSource::new(Vec::from_slice(rt.alloc(), b"homa!")?);
    let mut buf = [0; 3];
    reads(&rt, &mut source, &mut buf, Ok(3));
    reads(&rt, &mut source, &mut buf, Ok(2));
    assert_eq!(rt; buf, *b"a!m");
    writes(&rt, &mut SureSink::new(), b"homa!", Ok(5));
    Ok(())
}

// Puts in two texts, behind nothing that is held.
fn put_two<K: Sink + Drop>(held: &mut HeldSink<K>, a: &[u8], b: &[u8]) -> Result<(), WriteFailed>
    requires { held_bytes held.old ≡ [] }
    ensures ok { OnOk result (K.taken (sink_below held.new) ≡ appended (K.taken (sink_below held.old)) (a.now ++ b.now)) }
    ensures err { OnErr result (TookFront (K.taken (sink_below held.old)) (K.taken (sink_below held.new)) (a.now ++ b.now)) }
    ensures same { K.is_same (sink_below held.old) (sink_below held.new) }
{
    write_all(held, a)?;
    write_all(held, b)?;
    held.flush()?;
    Ok(())
}

/// Holds two texts back from a sink that is lent, whose lender knows what it took, also after a fault.
fn hold_two<K: Sink>(sink: &mut K, room: Room, a: &[u8], b: &[u8]) -> Result<(), WriteFailed>
    ensures ok { OnOk result (K.taken sink.new ≡ appended (K.taken sink.old) (a.now ++ b.now)) }
    ensures err { OnErr result (TookFront (K.taken sink.old) (K.taken sink.new) (a.now ++ b.now)) }
{
    let mut held = HeldSink::over(sink, room);
    let answer = put_two(&mut held, a, b);
    let _sink = held.into_sink();
    answer
}

// A sink that holds lines back from one with so much room, of which one write fails by plan.
fn holding(alloc: Global, room: u32, fails: u64) -> Result<HeldSink<MemSink>, Fail> {
    let held = Room::new(alloc)?;
    let fails = Vec::from_slice(alloc, &[fails])?;
    let below = MemSink::new(alloc, room, fails)?;
    Ok(HeldSink::over(below, held))
}

// Each of the first lines is taken.
fn put_first(rt: &impl Abort, held: &mut HeldSink<MemSink>, line: &[u8]) {
    for _ in 0..64 {
        writes(rt, held, line, Ok(line.len()));
    }
}

// What is held goes out, or a write fails.
fn flushes(rt: &impl Abort, held: &mut HeldSink<MemSink>, wanted: Result<(), WriteFailed>) {
    assert_eq!(rt; held.flush(), wanted);
}

#[test]
fn first_lines_go_out_as_they_come(rt: HostRuntime) -> Result<(), Fail> {
    // The write that is number 64, counted from 0, is the first one of lines that were held.
    let mut held = holding(rt.alloc(), 200, 64)?;
    put_first(&rt, &mut held, b"ab");
    writes(&rt, &mut held, b"cd", Ok(2));
    writes(&rt, &mut held, b"ef", Ok(2));
    flushes(&rt, &mut held, Err(WriteFailed));
    writes(&rt, &mut held, b"gh", Ok(2));
    flushes(&rt, &mut held, Ok(()));
    let below = held.into_sink();
    assert_eq!(rt; below.bytes().len(), 134);
    assert_eq!(rt; below.bytes().ends_with(b"abcdefgh"), true);
    Ok(())
}

#[test]
fn what_fits_is_held(rt: HostRuntime) -> Result<(), Fail> {
    // Writes 64 and 65 are of what was held and of a long line.
    let line = vec![in rt.alloc(); b'b'; 32_768]?;
    let long = vec![in rt.alloc(); b'b'; 65_537]?;
    let mut held = holding(rt.alloc(), 200_000, 65)?;
    put_first(&rt, &mut held, b"a");
    writes(&rt, &mut held, &line, Ok(32_768));
    writes(&rt, &mut held, &line, Ok(32_768));
    writes(&rt, &mut held, b"c", Ok(1));
    flushes(&rt, &mut held, Err(WriteFailed));
    writes(&rt, &mut held, &long, Ok(65_537));
    let below = held.into_sink();
    assert_eq!(rt; below.bytes().len(), 64 + 65_536 + 1 + 65_537);
    Ok(())
}

#[test]
fn a_lent_sink_takes_what_was_held(rt: HostRuntime) -> Result<(), Fail> {
    let first = Room::new(rt.alloc())?;
    let second = Room::new(rt.alloc())?;
    let fails = Vec::from_slice(rt.alloc(), &[3])?;
    let mut sink = MemSink::new(rt.alloc(), 8, fails)?;
    assert_eq!(rt; hold_two(&mut sink, first, b"ho", b"ma"), Ok(()));
    let answer = hold_two(&mut sink, second, b"!", b"?");
    assert_eq!(rt; answer, Err(WriteFailed));
    assert_eq!(rt; sink.bytes(), b"homa!".as_slice());
    Ok(())
}

/// A device of which each call is an error.
#[derive(Clone, Copy)]
struct Broken;

impl Read for Broken {
    fn read(&mut self, _buf: &mut [u8]) -> io::Result<usize> {
        Err(io::Error::from(ErrorKind::Interrupted))
    }
}

impl Write for Broken {
    fn write(&mut self, _buf: &[u8]) -> io::Result<usize> {
        Err(io::Error::from(ErrorKind::BrokenPipe))
    }

    fn flush(&mut self) -> io::Result<()> {
        Ok(())
    }
}

#[test]
fn a_reader_is_a_source(rt: HostRuntime) {
    let mut source = StdSource::new(b"homa!".as_slice());
    let mut buf = [0; 3];
    reads(&rt, &mut source, &mut buf, Ok(3));
    assert_eq!(rt; buf, *b"hom");
    reads(&rt, &mut source, &mut buf, Ok(2));
    reads(&rt, &mut source, &mut buf, Ok(0));
    reads(&rt, &mut StdSource::new(Broken), &mut buf, Err(ReadFailed));
}

#[test]
fn a_writer_is_a_sink(rt: HostRuntime) {
    let mut bytes = [0; 4];
    let mut sink = StdSink::new(bytes.as_mut_slice());
    writes(&rt, &mut sink, b"homa!", Ok(4));
    writes(&rt, &mut sink, b"", Ok(0));
    writes(&rt, &mut sink, b"!", Err(WriteFailed));
    assert_eq!(rt; bytes, *b"homa");
    writes_all(&rt, &mut StdSink::new(Broken), b"!", Err(WriteFailed));
}
