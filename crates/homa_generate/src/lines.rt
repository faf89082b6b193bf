//! The lines of a schedule: they are printed and carried out, and their packets enter the fabric.
ghost use Rattle.std.specs.Prelude.{codes, ◌++◌, ◌≡◌, ◌≤◌, ◌<◌, ◌+◌, ◌^◌, [], OnOk, OnErr, IfOk};
ghost use Rattle.std.specs.Fmt.{decimal};
ghost use Rattle.homa_io.specs.Writing.{IsWritten};
ghost use Rattle.homa_plain.specs.World.{World};
ghost use Rattle.homa_plain.specs.Replay.{events_of};
ghost use Rattle.generated_runs.specs.Rounds.{Generated, with_line};
ghost use Rattle.generated_runs.specs.Generated.{given_text};
ghost use Rattle.homa_generate.specs.Carried.{IsCarried};
ghost use Rattle.homa_generate.specs.Lines.{given_of, IsShort};
ghost use Rattle.homa_generate.specs.Progress.{holds_of, IsHeard, IsReady, IsSteady, IsFaulted};
ghost use Rattle.homa_generate.specs.Going.{IsAt, HasGone, HasStopped};

use crate::events::{enter, happen, tick};
use crate::setup::Setup;
use crate::{Counts, GenerateWorld};
use arrayvec::ArrayVec;
use homa_fabric::{Fabric, Traffic};
use homa_io::{Sink, WriteFailed, write_all};
use homa_plain::{Entry, Event};
use homa_replay::{FlushSink, ReplayWorld, Stop};
use homa_script::put_event;
use itoa::Buffer;
use std::alloc::AllocError;
use written_lines::Word::{Host, Number, Text};
use written_lines::put_line;

/// A line of a generated schedule.
#[derive(Clone, Copy)]
pub(crate) enum Line {
    Tick,
    Deliver(u64),
    Call(Traffic),
}

/// How far a run has come, beside its world: the fabric, the counts of its trace, and how many calls are still to be made.
#[derive(Drop)]
pub(crate) struct Progress {
    pub(crate) fabric: Fabric,
    pub(crate) counts: Counts,
    pub(crate) left: u32,
}

// The word for so many counting bytes.
fn counting_word(n: u32) -> ArrayVec<u8, 24>
    ensures { result.items ≡ codes "*" ++ decimal n }
{
    let mut word = ArrayVec::<u8, 24>::new();
    word.push(b'*');
    let mut buffer = Buffer::new();
    word.try_extend_from_slice(buffer.format(n).as_bytes())
        .unwrap();
    word
}

// Prints the line of a call.
fn put_call<K: FlushSink>(sink: &mut K, t: &Traffic) -> Result<(), WriteFailed>
    ensures { IsWritten K.taken K.faults K.is_same result sink.old sink.new (given_text (given_of (Line.Call t.now))) }
{
    let bytes = counting_word(t.len);
    let words = [
        Text(b"call"),
        Host(t.client),
        Host(t.server),
        Number(u64::from(t.number)),
        Text(bytes.as_slice()),
    ];
    put_line(sink, &words)
}

// Prints a line.
#[tactic(auto, unfolding(homa_plain::specs::Script::event_text, homa_plain::specs::Text::line_text))]
fn put<K: FlushSink>(sink: &mut K, line: &Line) -> Result<(), WriteFailed>
    ensures { IsWritten K.taken K.faults K.is_same result sink.old sink.new (given_text (given_of line.now)) }
{
    match line {
        Line::Tick => write_all(sink, b"tick\n"),
        Line::Deliver(number) => sink.put(&Entry::Deliver { packet: *number }),
        Line::Call(t) => put_call(sink, t),
    }
}

// Prints a line, where the lines of this run are printed.
fn show<K: FlushSink>(setup: &Setup, sink: &mut K, line: &Line) -> Result<(), WriteFailed>
    requires heard { IsHeard setup.now.prints K.taken }
    ensures { IsWritten K.taken K.faults K.is_same result sink.old sink.new (given_text (given_of line.now)) }
{
    if !setup.prints {
        return Ok(());
    }
    put(sink, line)
}

// Carries out a line, up to an event that the world refuses; whether it refused none.
fn carry<P: GenerateWorld>(
    setup: &Setup,
    world: &mut P,
    counts: &mut Counts,
    line: &Line,
) -> Result<bool, AllocError>
    requires setup { setup.now.settings ≡ P.settings world.old }
    requires short { IsShort line.now }
    requires few { P.events world.old + 33 ≤ 2 ^ 57 }
    ensures carried { IfOk result (λ done. (w : World) → P.stands world.old w
        → IsCarried (P.settings world.old) w (events_of (P.settings world.old).hosts (given_of line.now)) (P.stands world.new) counts.old counts.new
        (P.allows world.old) (P.allows world.new) done) }
    ensures settings { P.settings world.new ≡ P.settings world.old }
    ensures counted { P.events world.new ≤ P.events world.old + 33 }
{
    match *line {
        Line::Tick => tick(setup.alloc, world, counts, setup.settings.hosts),
        Line::Deliver(packet) => {
            happen(setup.alloc, world, counts, &Event::Deliver { packet }, &[])
        }
        Line::Call(t) => {
            let event = Event::Call {
                client: t.client,
                server: t.server,
                number: t.number,
            };
            let bytes = &setup.bytes[..t.len as usize];
            happen(setup.alloc, world, counts, &event, bytes)
        }
    }
}

/// Prints a line, where the lines of this run are printed, and carries it out; the packets that it sends enter the fabric.
pub(crate) fn play<P: GenerateWorld, K: FlushSink>(
    setup: &Setup,
    world: &mut P,
    sink: &mut K,
    progress: &mut Progress,
    line: &Line,
) -> Result<(), Stop>
    requires ready { IsReady setup.now.settings (P.settings world.old) progress.old (P.events world.old) 33 }
    requires heard { IsHeard setup.now.prints K.taken }
    requires short { IsShort line.now }
    ensures gone { OnOk result ((g : Generated) → IsAt (holds_of progress.old (K.taken sink.old)) (P.stands world.old) g
        → HasGone (with_line (P.settings world.old) (given_of line.now)) (λ x. x) g (holds_of progress.old (K.taken sink.old))
        (holds_of progress.new (K.taken sink.new)) (P.stands world.new) (P.allows world.old) (P.allows world.new)) }
    ensures stopped { OnErr result ((g : Generated) → IsAt (holds_of progress.old (K.taken sink.old)) (P.stands world.old) g
        → HasStopped (with_line (P.settings world.old) (given_of line.now)) g (K.taken sink.old) (K.taken sink.new) (P.allows world.old)) }
    ensures steady { IsSteady (P.settings world.old) (P.settings world.new) progress.old progress.new (P.events world.old) (P.events world.new) 33 }
    ensures left { progress.new.left ≡ progress.old.left }
    ensures faulted { IsFaulted result (K.faults sink.old) (K.faults sink.new) }
    ensures same { K.is_same sink.old sink.new }
{
    show(setup, sink, line)?;
    let first = world.packets();
    carry(setup, world, &mut progress.counts, line)?;
    enter(world, &mut progress.fabric, first);
    Ok(())
}
