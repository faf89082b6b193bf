// Bytes of a line that are held before they are written.
ghost use Rattle.std.specs.Prelude.{◌≡◌, ◌≤◌, ◌++◌, [], length, OnOk};
ghost use Rattle.hex.specs.Hex.{encode_lower};
ghost use Rattle.homa_io.specs.Writing.{IsWritten};
ghost use Rattle.written_lines.specs.Put.{Puts};

use crate::adding::write_digits;
use arrayvec::ArrayVec;
use homa_io::{Sink, WriteFailed, write_all};

// How many bytes are made to digits between two writes.
const PART: usize = 1408;

/// The bytes of a line that aren't written yet.
pub type Held<const N: usize> = ArrayVec<u8, N>;

// Writes what is held.
fn flush<K: Sink, const N: usize>(sink: &mut K, held: &mut Held<N>) -> Result<(), WriteFailed>
    ensures written { IsWritten K.taken K.faults K.is_same result sink.old sink.new held.old.items }
    ensures empty { OnOk result (held.new.items ≡ []) }
{
    write_all(sink, held.as_slice())?;
    held.clear();
    Ok(())
}

/// Holds bytes after those that are held already, which are written first where these don't fit. After an error the sink
/// took a prefix of both.
pub fn append<K: Sink, const N: usize>(
    sink: &mut K,
    held: &mut Held<N>,
    bytes: &[u8],
) -> Result<(), WriteFailed>
    ensures { Puts K.taken K.faults K.is_same result sink.old sink.new held.new.items (held.old.items ++ bytes.now) }
{
    if bytes.len() <= held.remaining_capacity() {
        held.try_extend_from_slice(bytes).unwrap();
        return Ok(());
    }
    flush(sink, held)?;
    if bytes.len() > N {
        return write_all(sink, bytes);
    }
    held.try_extend_from_slice(bytes).unwrap();
    Ok(())
}

// Holds a few bytes in hex, or writes them after what was held. Their digits are made in room that is lent.
fn put_digits<K: Sink, const N: usize>(
    sink: &mut K,
    held: &mut Held<N>,
    bytes: &[u8],
    digits: &mut [u8],
) -> Result<(), WriteFailed>
    requires few { length bytes.now ≤ 1408 }
    requires room { length digits.old ≡ 2816 }
    ensures put { Puts K.taken K.faults K.is_same result sink.old sink.new held.new.items (held.old.items ++ encode_lower bytes.now) }
    ensures room { length digits.new ≡ length digits.old }
{
    let out = &mut digits[..2 * bytes.len()];
    write_digits(bytes, out);
    if bytes.len() < 64 {
        return append(sink, held, out);
    }
    flush(sink, held)?;
    write_all(sink, out)
}

/// Holds bytes in hex, a few at a time, as `append` does. The room for their digits is filled with zeros once, not for
/// each part.
pub fn put_hex<K: Sink, const N: usize>(
    sink: &mut K,
    held: &mut Held<N>,
    bytes: &[u8],
) -> Result<(), WriteFailed>
    ensures { Puts K.taken K.faults K.is_same result sink.old sink.new held.new.items (held.old.items ++ encode_lower bytes.now) }
{
    let mut digits = [0; 2 * PART];
    let mut done = 0;
    while done < bytes.len() {
        let n = (bytes.len() - done).min(PART);
        put_digits(sink, held, &bytes[done..done + n], &mut digits)?;
        done += n;
    }
    Ok(())
}
