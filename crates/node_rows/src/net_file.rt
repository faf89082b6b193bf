// What the net and the clock of a case are, as a file tells it.
ghost use Rattle.std.specs.Prelude.{◌≡◌, ◌<◌, true, length, IfSome};
ghost use Rattle.node_runs.specs.Course.{AreTicks};

use homa_plain::{Frame, HostId, LAST_TICK};
use std::alloc::Global;

// The most bytes of a datagram.
const MOST_BYTES: usize = 1500;

// For how many sends, and as many receives, a net has room where no line says it.
const USUAL_ROOM: u32 = 2000;

/// What the lines of a net's file say.
///
/// `clock T ..`: the ticks that the clock gives, one in each loop turn, and the last of them for ever; they never fall, and
/// are at most 1,000,000,000,000. `queued FROM TO HEX`: a datagram that is queued at first, with `-` for no bytes, cut to
/// 1,500. `room N`: for how many sends, and as many receives, the net has room. `fails N ..`: the numbers, from 0, of the
/// net's calls that are to fail; `reads N ..` and `writes N ..` those of the source's and of the sink's.
#[derive(Drop)]
pub(crate) struct NetFile {
    /// The ticks that the clock gives.
    pub(crate) ticks: Vec<u64>,
    /// Sender, receiver and bytes of what is queued, the oldest first.
    pub(crate) queued: Vec<(HostId, HostId, Frame)>,
    /// The net's room.
    pub(crate) room: u32,
    /// The numbers of the net's calls that are to fail.
    pub(crate) fails: Vec<u64>,
    /// The same of the source's.
    pub(crate) reads: Vec<u64>,
    /// The same of the sink's.
    pub(crate) writes: Vec<u64>,
}

// The datagram that a word spells.
fn frame_of(alloc: Global, word: &str) -> Option<Frame> {
    let mut frame = Frame::empty();
    if word != "-" {
        let bytes = hex::decode(alloc, word).ok()?;
        let most = bytes.len().min(MOST_BYTES);
        frame.set(&bytes[..most]);
    }
    Some(frame)
}

// Whether a clock may give these ticks.
fn may_be_given(ticks: &[u64]) -> bool
    ensures { result ≡ true → AreTicks 0 ticks.now }
{
    let mut last = 0;
    for tick in ticks {
        if *tick < last || LAST_TICK < *tick {
            return false;
        }
        last = *tick;
    }
    true
}

// The words of a line behind its first one as numbers, behind these.
fn read_numbers(line: &str, numbers: &mut Vec<u64>) -> Option<()> {
    for word in line.split_ascii_whitespace().skip(1) {
        numbers.push(word.parse().ok()?).ok()?;
    }
    Some(())
}

impl NetFile {
    // What a line says. None where it can't be read, or there is no memory.
    fn read_line(&mut self, alloc: Global, line: &str) -> Option<()> {
        let mut words = line.split_ascii_whitespace();
        match words.next()? {
            "clock" => read_numbers(line, &mut self.ticks),
            "fails" => read_numbers(line, &mut self.fails),
            "reads" => read_numbers(line, &mut self.reads),
            "writes" => read_numbers(line, &mut self.writes),
            "room" => {
                self.room = words.next()?.parse().ok()?;
                Some(())
            }
            "queued" => {
                let from = HostId(words.next()?.parse().ok()?);
                let to = HostId(words.next()?.parse().ok()?);
                let frame = frame_of(alloc, words.next()?)?;
                self.queued.push((from, to, frame)).ok()
            }
            _ => None,
        }
    }

    /// What the lines of a file say. None where one of them can't be read, where no tick is told or one falls, or where
    /// there is no memory.
    pub(crate) fn read(alloc: Global, text: &str) -> Option<NetFile>
        ensures some { IfSome result (λ file. 0 < length file.ticks.items) }
        ensures ticks { IfSome result (λ file. AreTicks 0 file.ticks.items) }
    {
        let mut file = NetFile {
            ticks: Vec::new(alloc),
            queued: Vec::new(alloc),
            room: USUAL_ROOM,
            fails: Vec::new(alloc),
            reads: Vec::new(alloc),
            writes: Vec::new(alloc),
        };
        for line in text.lines() {
            if !line.is_empty() {
                file.read_line(alloc, line)?;
            }
        }
        if file.ticks.is_empty() || !may_be_given(&file.ticks) {
            return None;
        }
        Some(file)
    }
}
