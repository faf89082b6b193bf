// A scan for the next line feed.
ghost use Rattle.std.specs.Prelude.{◌≡◌, ◌≤◌, ◌<◌, ◌+◌, ◌∷◌, true, false, length, take, drop, min, OnOk, OnErr, IfOk};
ghost use Rattle.homa_io.specs.Outside.{HasRisen};
ghost use Rattle.text_lines.specs.Rest.{StopsInLine};
ghost use Rattle.text_lines.specs.Input.{pending_of, rest_of};
ghost use Rattle.text_lines.specs.Scan.{IsScan};
ghost use Rattle.text_lines.specs.LineRoom.{kept, room};
ghost use Rattle.homa_plain.specs.Input.{has_no_feed};

use crate::input::Input;
use crate::line_room::LineRoom;
use homa_io::{ReadFailed, Source};
use memchr::memchr;

// What a scan found.
#[derive(Clone, Copy)]
pub(crate) enum Found {
    /// `len` bytes up to a line feed or the end of the input, and `size` with the line feed.
    Line { len: usize, size: usize },
    /// One byte more than were allowed.
    Over,
}

// How many of the first `most` bytes come before a line feed, and whether one follows them.
fn before_feed(bytes: &[u8], most: usize) -> (usize, bool)
    ensures within { result.0 ≤ length bytes.now }
    ensures most { result.0 ≤ most }
    ensures before { has_no_feed (take result.0 bytes.now) ≡ true }
    ensures feed { result.1 ≡ true → (result.0 < most) × (drop result.0 bytes.now ≡ 10 ∷ drop (result.0 + 1) bytes.now) }
    ensures all { result.1 ≡ false → result.0 ≡ min (length bytes.now) most }
{
    let front = &bytes[..bytes.len().min(most)];
    match memchr(b'\n', front) {
        Some(i) => (i, true),
        None => (front.len(), false),
    }
}

// Reads up to the next line feed, over at most `most` bytes with it. `line` gets as many of the
// bytes before it as it has room for. Where a line feed is pending the source isn't read.
pub(crate) fn find_feed<S: Source>(
    input: &mut Input,
    source: &mut S,
    line: &mut LineRoom,
    most: usize,
) -> Result<Found, ReadFailed>
    ensures found { IfOk result (IsScan (rest_of input.old (S.left source.old)) (rest_of input.new (S.left source.new)) (room line.new) (kept line.new) most) }
    ensures room { room line.new ≡ room line.old }
    ensures stays { has_no_feed (pending_of input.old) ≡ false → source.new ≡ source.old }
    ensures err { OnErr result (StopsInLine (rest_of input.old (S.left source.old)) (rest_of input.new (S.left source.new))) }
    ensures risen { OnErr result (HasRisen (S.faults source.old) (S.faults source.new)) }
    ensures quiet { OnOk result (S.faults source.new ≡ S.faults source.old) }
    ensures never_falls { S.faults source.old ≤ S.faults source.new }
    ensures same { S.is_same source.old source.new }
{
    line.clear();
    let mut n = 0;
    while n < most {
        input.fill(source)?;
        let pending = input.pending();
        if pending.is_empty() {
            return Ok(Found::Line { len: n, size: n });
        }
        let (len, is_feed) = before_feed(pending, most - n);
        line.add(&pending[..len]);
        n += len;
        if is_feed {
            input.take(len + 1);
            return Ok(Found::Line {
                len: n,
                size: n + 1,
            });
        }
        input.take(len);
    }
    input.fill(source)?;
    if input.pending().is_empty() {
        return Ok(Found::Line { len: n, size: n });
    }
    input.take(1);
    Ok(Found::Over)
}
