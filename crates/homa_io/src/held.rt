// A sink that holds lines back, so that many of them go out in one write.
ghost use Rattle.std.specs.Prelude.{◌≡◌, ◌≤◌, ◌<◌, ◌+◌, ◌-◌, ◌↔◌, ◌++◌, Ok, true, false, [], length, take, nat_eq, IfOk, OnOk, OnErr, if◌then◌else◌};
ghost use Rattle.homa_io.specs.Outside.{appended, Grows};

use crate::held_text::ROOM;
use crate::{HeldText, Room, Sink, WriteFailed};

// How many lines are passed on at once.
const DIRECT: u32 = 64;

/// A sink over another one. It passes the first 64 lines on at once. What comes later it holds
/// back, up to 65,536 bytes, until a line doesn't fit after them or `flush` is called. It takes no
/// memory. What is held when it is dropped is lost: the last of the bytes that were written, 65,536 at
/// most, and none of the first 64 lines. So flush it on every way out.
#[derive(Drop)]
pub struct HeldSink<K> {
    sink: K,
    /// The text that is held. Bytes that `make_room` made room for may be added here.
    pub text: HeldText,
    // How many lines are still passed on at once.
    direct: u32,
}

impl<K: Sink + Drop> HeldSink<K> {
    ghost use Rattle.homa_io.specs.Held.{sink_below, held_bytes, space_left, direct_lines, PassesOn};

    /// A sink over this one, which holds nothing yet.
    pub fn over(sink: K, room: Room) -> HeldSink<K>
        ensures below { sink_below result ≡ sink }
        ensures none { held_bytes result ≡ [] }
        ensures space { space_left result ≡ 65536 }
        ensures direct { direct_lines result ≡ 64 }
    {
        HeldSink {
            sink,
            text: HeldText::over(room),
            direct: DIRECT,
        }
    }

    /// The sink below. What is still held is lost.
    pub fn into_sink(self) -> K
        ensures { result ≡ sink_below self }
    {
        let HeldSink { sink, .. } = self;
        sink
    }

    /// Writes what is held. After an error, which is the first that a write gave, what wasn't taken is
    /// still held.
    pub fn flush(&mut self) -> Result<(), WriteFailed>
        ensures whole { appended (K.taken (sink_below self.new)) (held_bytes self.new)
            ≡ appended (K.taken (sink_below self.old)) (held_bytes self.old) }
        ensures ok { OnOk result (K.taken (sink_below self.new)
            ≡ appended (K.taken (sink_below self.old)) (held_bytes self.old)) }
        ensures none { OnOk result (held_bytes self.new ≡ []) }
        ensures space { OnOk result (space_left self.new ≡ 65536) }
        ensures direct { direct_lines self.new ≡ direct_lines self.old }

        // So much is lost at most where the sink is dropped after an error.
        ensures most { length (held_bytes self.new) ≤ 65536 }

        ensures below { PassesOn K.taken K.faults K.is_same result (sink_below self.old) (sink_below self.new) }
    {
        while !self.text.rest().is_empty() {
            let n = self.sink.write(self.text.rest())?;
            self.text.went_out(n);
        }
        self.text.clear();
        Ok(())
    }

    // Hands bytes on, where nothing is held.
    fn pass(&mut self, bytes: &[u8]) -> Result<usize, WriteFailed>
        requires { held_bytes self.old ≡ [] }
        ensures fits { IfOk result (λ n. n ≤ length bytes.now) }
        ensures some { IfOk result (λ n. 0 < length bytes.now → 0 < n) }
        ensures taken { IfOk result (λ n. K.taken (sink_below self.new) ≡ appended (K.taken (sink_below self.old)) (take n bytes.now)) }
        ensures err { OnErr result (K.taken (sink_below self.new) ≡ K.taken (sink_below self.old)) }
        ensures none { held_bytes self.new ≡ [] }
        ensures counted { IfOk result (λ n. direct_lines self.new
            ≡ (if nat_eq n (length bytes.now) then direct_lines self.old - 1 else direct_lines self.old)) }
        ensures uncounted { OnErr result (direct_lines self.new ≡ direct_lines self.old) }
        ensures below { PassesOn K.taken K.faults K.is_same result (sink_below self.old) (sink_below self.new) }
    {
        let n = self.sink.write(bytes)?;
        if n == bytes.len() {
            self.direct = self.direct.saturating_sub(1);
        }
        Ok(n)
    }

    /// Makes room for so many more bytes in `text`: it writes what is held if they don't fit after it.
    /// False, and nothing is done, while the first 64 lines are passed on at once, and for more than
    /// 65,536 bytes: then `write` takes them. After an error nothing of what is held is lost.
    pub fn make_room(&mut self, n: usize) -> Result<bool, WriteFailed>
        ensures room { IfOk result (λ made. made ≡ true → n ≤ space_left self.new) }
        ensures when { IfOk result (λ made. (made ≡ true) ↔ ((direct_lines self.old ≡ 0) × (n ≤ 65536))) }
        ensures none { result ≡ Ok false → self.new ≡ self.old }
        ensures waits { n ≤ space_left self.old → self.new ≡ self.old }

        // Where they don't fit after what is held, all of it goes out.
        ensures sent { IfOk result (λ made. made ≡ true → space_left self.old < n →
            K.taken (sink_below self.new) ≡ appended (K.taken (sink_below self.old)) (held_bytes self.old)) }
        ensures emptied { IfOk result (λ made. made ≡ true → space_left self.old < n → held_bytes self.new ≡ []) }

        ensures whole { appended (K.taken (sink_below self.new)) (held_bytes self.new)
            ≡ appended (K.taken (sink_below self.old)) (held_bytes self.old) }
        ensures direct { direct_lines self.new ≡ direct_lines self.old }
        ensures below { PassesOn K.taken K.faults K.is_same result (sink_below self.old) (sink_below self.new) }
    {
        if self.direct > 0 || n > ROOM {
            return Ok(false);
        }
        if n > self.text.space() {
            self.flush()?;
        }
        Ok(true)
    }
}

impl<K: Sink + Drop> Sink for HeldSink<K> {
    ghost use Rattle.homa_io.specs.Held.{sink_below, held_bytes, space_left, direct_lines, PassesOn};
    ghost use Rattle.homa_io.specs.Growing.{grows_none, grows_on};

    ghost taken = { λ h. appended (K.taken (sink_below h)) (held_bytes h) };

    ghost faults = { λ h. K.faults (sink_below h) };

    // What the sink below took only grows.
    ghost is_same = { λ a b. K.is_same (sink_below a) (sink_below b) × Grows (K.taken (sink_below a)) (K.taken (sink_below b)) };

    ghost same_self = { λ a. (K.same_self (sink_below a), grows_none (K.taken (sink_below a))) };

    ghost same_on = { λ a b c p q. (
      K.same_on (sink_below a) (sink_below b) (sink_below c) p.0 q.0,
      grows_on (K.taken (sink_below a)) (K.taken (sink_below b)) (K.taken (sink_below c)) p.1 q.1,
    ) };

    /// Takes all of the bytes, or as many as the sink below takes of one of the first lines and of
    /// what is longer than 65,536 bytes. A line is a call of which all bytes were taken.
    fn write(&mut self, bytes: &[u8]) -> Result<usize, WriteFailed>
        ensures fits { IfOk result (λ n. n ≤ length bytes.now) }
        ensures some { IfOk result (λ n. 0 < length bytes.now → 0 < n) }
        ensures taken { IfOk result (λ n.
            appended (K.taken (sink_below self.new)) (held_bytes self.new)
            ≡ appended (appended (K.taken (sink_below self.old)) (held_bytes self.old)) (take n bytes.now)) }
        ensures err { OnErr result (
            appended (K.taken (sink_below self.new)) (held_bytes self.new)
            ≡ appended (K.taken (sink_below self.old)) (held_bytes self.old)) }

        ensures below { PassesOn K.taken K.faults K.is_same result (sink_below self.old) (sink_below self.new) }

        // The first lines are passed on at once, and each that is taken whole is one of them.
        ensures first { OnOk result (0 < direct_lines self.old → held_bytes self.new ≡ []) }
        ensures counted { IfOk result (λ n. n ≡ length bytes.now →
            0 < direct_lines self.old → direct_lines self.new + 1 ≡ direct_lines self.old) }
        ensures never_more { direct_lines self.new ≤ direct_lines self.old }

        // What comes later is held as long as it fits, and then nothing goes out. Of what doesn't fit, up
        // to 65,536 bytes are held alone, after what was held went out; what is longer goes out too.
        ensures waits { direct_lines self.old ≡ 0 → length bytes.now ≤ space_left self.old →
            sink_below self.new ≡ sink_below self.old }
        ensures joins { OnOk result (direct_lines self.old ≡ 0 → length bytes.now ≤ space_left self.old →
            held_bytes self.new ≡ held_bytes self.old ++ bytes.now) }
        ensures passed { OnOk result (65536 < length bytes.now → held_bytes self.new ≡ []) }
        ensures held { OnOk result
            (direct_lines self.old ≡ 0 → space_left self.old < length bytes.now → length bytes.now ≤ 65536 →
            (K.taken (sink_below self.new) ≡ appended (K.taken (sink_below self.old)) (held_bytes self.old))
            × (held_bytes self.new ≡ bytes.now)) }

        // So much is lost at most where the sink is dropped and not flushed.
        ensures most { length (held_bytes self.new) ≤ 65536 }
    {
        if !self.make_room(bytes.len())? {
            self.flush()?;
            return self.pass(bytes);
        }
        self.text.add(bytes);
        Ok(bytes.len())
    }
}
