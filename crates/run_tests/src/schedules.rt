// Schedules of one call, which is one packet there and one back. The draws of the seeds come from another program of the
// generator, and the lines follow from them by the rules of rounds.
ghost use Rattle.std.specs.Prelude.{IfOk};
ghost use Rattle.box_laws.specs.First.{AreReady};

use homa_generate::make;
use homa_io::MemSink;
use homa_world::World;
use std::alloc::{AllocError, Global};
use test_services::Letter;

// The lines of the settings.
const SETTINGS: &[u8] =
    b"hosts 32\nseg 1400\nwindow 10000\nunsched 10000\novercommit 4\nrate 14000\nresend 4\ntries 5\nlife 20\npages 1024\n\
    calls 256\nserved 1024\nrebalance 0\ngo\n";

// A service for each host.
fn letters(alloc: Global) -> Result<Vec<Letter>, AllocError>
    ensures { IfOk result (λ all. AreReady (λ it. it.served) all.items) }
{
    let mut all = Vec::new(alloc);
    for made in 0..32u32 {
        all.push(Letter::new(b'a'))?;
    }
    Ok(all)
}

// Whether the schedule of a seed with one call is the settings and these lines.
fn plays(alloc: Global, seed: u64, lines: &[u8]) -> Result<bool, AllocError> {
    let services = letters(alloc)?;
    let mut sink = MemSink::new(alloc, 1000, Vec::new(alloc))?;
    let made = make::<Vec<Letter>, World<Letter>, MemSink>(alloc, &mut sink, services, seed, 1);
    let text = sink.bytes();
    let is_whole = text.len() == SETTINGS.len() + lines.len();
    Ok(made.is_ok() && is_whole && text.starts_with(SETTINGS) && text.ends_with(lines))
}

// The client has the lower number: its round is over when the response is sent, which is delivered in the next one.
#[test]
fn one_call(rt: HostRuntime) {
    let lines = b"tick\ncall 14 23 2 *3\ntick\ndeliver 0\ntick\ndeliver 1\n";
    let same = plays(rt.alloc(), 334, lines);
    assert!(rt; same == Ok(true));
}

// The client has the higher number: the response is delivered in the same round as the request.
#[test]
fn a_repeated_packet(rt: HostRuntime) {
    let lines = b"tick\ncall 18 13 3 *35\ntick\ndeliver 0\ndeliver 0\ndeliver 1\n";
    let same = plays(rt.alloc(), 1006, lines);
    assert!(rt; same == Ok(true));
}
