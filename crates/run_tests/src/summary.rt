// The summary of a few lines.
use homa_generate::Counts;
use homa_io::MemSink;
use homa_plain::Kind;
use homa_world::LineKind;
use std::alloc::{AllocError, Global};

// Whether this is the summary of lines of three kinds, with one between them that isn't counted.
fn sums_up(alloc: Global, text: &[u8]) -> Result<bool, AllocError> {
    let mut counts = Counts::new();
    counts.note_kind(Some(LineKind::Clock))?;
    counts.note_kind(None)?;
    counts.note_kind(Some(LineKind::Forgotten))?;
    counts.note_kind(Some(LineKind::Sent(Kind::Busy)))?;
    let mut sink = MemSink::new(alloc, 1000, Vec::new(alloc))?;
    let written = counts.put(&mut sink);
    Ok(written.is_ok() && sink.bytes() == text)
}

#[test]
fn the_summary_of_three_lines(rt: HostRuntime) {
    let text =
        b"calls 0\nruns 0\ndone 0\ntimeout 0\nforgotten 1\ndeliver 0\nclock 1\nDATA 0\nGRANT 0\nRESEND 0\nBUSY 1\nCUTOFFS 0\n\
        UNKNOWN 0\nNEED_ACK 0\nACK 0\n";
    let same = sums_up(rt.alloc(), text);
    assert!(rt; same == Ok(true));
}
